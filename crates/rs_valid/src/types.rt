//! Valid types.

ghost use Rattle.std.specs.Prelude.{◌≡◌, map, option_map};
ghost use Rattle.rs_text.specs.Tree.{tys, option_ty};
ghost use Rattle.rs_text.specs.Valid as valid;
ghost use Rattle.rs_tree.specs.Views.{ty_view};

use crate::words::is_valid_path;
use cr_base::{Boxed, Items};
use rs_tree::RTy;

fn is_void(ty: &RTy) -> bool
    ensures { result ≡ valid.is_void (ty_view ty.now) }
{
    match ty {
        RTy::Void => true,
        _ => false,
    }
}

// Whether a length is a number of 64 bits, as each is here.
fn is_length(size: u64) -> bool
    ensures { result ≡ valid.is_length size }
{
    size <= u64::MAX
}

#[cycle(types)]
pub(crate) fn is_valid_ty(ty: &RTy) -> bool
    ensures { result ≡ valid.valid_ty (ty_view ty.now) }
{
    match ty {
        RTy::Integer(_) | RTy::Boolean => true,
        RTy::Void => false,
        RTy::Pointer(target) => is_valid_target(target.get()),
        RTy::Array(element, size) => is_valid_ty(element.get()) && is_length(*size),
        RTy::Code(params, given) => are_valid_tys(params) && is_valid_result(given),
        RTy::Record(path) => is_valid_path(path),
    }
}

/// Whether a pointer may point to values of the type.
#[cycle(types)]
pub(crate) fn is_valid_target(ty: &RTy) -> bool
    ensures { result ≡ valid.valid_target (ty_view ty.now) }
{
    is_void(ty) || is_valid_ty(ty)
}

#[cycle(types)]
pub(crate) fn are_valid_tys(params: &Items<RTy>) -> bool
    ensures { result ≡ valid.valid_tys (tys (map ty_view params.now)) }
{
    for ty in params.as_slice() {
        if !is_valid_ty(ty) {
            return false;
        }
    }
    true
}

#[cycle(types)]
pub(crate) fn is_valid_result(given: &Option<Boxed<RTy>>) -> bool
    ensures { result ≡ valid.valid_result (option_ty (option_map ty_view given.now)) }
{
    match given {
        None => true,
        Some(ty) => is_valid_ty(ty.get()),
    }
}
