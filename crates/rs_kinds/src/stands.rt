//! Types that stand in a crate.

ghost use Rattle.std.specs.Prelude.{◌≡◌, ◌&&◌, ◌||◌, map, option_map, is_none, is_some};
ghost use Rattle.rs_mean.specs.Layout as layout;
ghost use Rattle.rs_mean.specs.Scalars.{is_scalar};
ghost use Rattle.rs_mean.specs.Typing as typing;
ghost use Rattle.rs_mean.specs.Typing.{is_length, params_stand, result_stands, type_stands};
ghost use Rattle.rs_text.specs.Tree as tree;
ghost use Rattle.rs_text.specs.Tree.{tys, option_ty};
ghost use Rattle.rs_text.specs.Valid.{is_void};
ghost use Rattle.rs_tree.specs.Views.{ty_view, module_view};
ghost use Rattle.rs_layout.specs.Layouts.{ModulesAreAligned};

use cr_base::{Boxed, Items, MOST_BYTES};
use rs_layout::{laid_of, record_at};
use rs_tree::{Module, RTy};

fn is_length(size: u64) -> bool
    ensures { result ≡ is_length size }
{
    1 <= size && size <= MOST_BYTES
}

fn is_void(ty: &RTy) -> bool
    ensures { result ≡ is_void (ty_view ty.now) }
{
    matches!(ty, RTy::Void)
}

pub fn is_scalar_type(ty: &RTy) -> bool
    ensures { result ≡ is_scalar (ty_view ty.now) }
{
    matches!(
        ty,
        RTy::Integer(_) | RTy::Boolean | RTy::Pointer(_) | RTy::Code(_, _)
    )
}

/// Whether a type is one of objects: the target of a pointer that is moved, or of an address.
pub(crate) fn is_target(ty: &RTy) -> bool
    ensures { result ≡ typing.is_target (ty_view ty.now) }
{
    !is_void(ty)
}

// Whether an array isn't too large, where its elements are laid out.
fn array_fits(modules: &[Module], element: &RTy, array: &RTy) -> bool
    requires { ModulesAreAligned (map module_view modules.now) }
    ensures { result ≡ (is_none (layout.laid_of (map module_view modules.now) (ty_view element.now))
        || is_some (layout.laid_of (map module_view modules.now) (ty_view array.now))) }
{
    laid_of(modules, element).is_none() || laid_of(modules, array).is_some()
}

/// Whether a type stands in a crate: its records exist, and its arrays have lengths and aren't too large,
/// where their elements are laid out.
#[cycle(stands)]
pub fn type_stands(modules: &[Module], ty: &RTy) -> bool
    requires { ModulesAreAligned (map module_view modules.now) }
    ensures { result ≡ type_stands (map module_view modules.now) (ty_view ty.now) }
{
    match ty {
        RTy::Integer(_) | RTy::Boolean => true,
        RTy::Void => false,
        RTy::Pointer(target) => is_void(target.get()) || type_stands(modules, target.get()),
        RTy::Array(element, size) => {
            type_stands(modules, element.get())
                && is_length(*size)
                && array_fits(modules, element.get(), ty)
        }
        RTy::Code(params, given) => params_stand(modules, params) && result_stands(modules, given),
        RTy::Record(path) => record_at(modules, path).is_some(),
    }
}

/// Whether the types of parameters are scalar and stand.
#[cycle(stands)]
pub fn params_stand(modules: &[Module], params: &Items<RTy>) -> bool
    requires { ModulesAreAligned (map module_view modules.now) }
    ensures { result ≡ params_stand (map module_view modules.now) (tys (map ty_view params.now)) }
{
    for param in params.as_slice() {
        if !(is_scalar_type(param) && type_stands(modules, param)) {
            return false;
        }
    }
    true
}

/// Whether the type of a result, if there is one, is scalar and stands.
#[cycle(stands)]
pub fn result_stands(modules: &[Module], given: &Option<Boxed<RTy>>) -> bool
    requires { ModulesAreAligned (map module_view modules.now) }
    ensures { result ≡ result_stands (map module_view modules.now) (option_ty (option_map ty_view given.now)) }
{
    match given {
        None => true,
        Some(ty) => is_scalar_type(ty.get()) && type_stands(modules, ty.get()),
    }
}

/// Whether the type of a pointer to a value of this type stands.
pub(crate) fn pointer_stands(modules: &[Module], target: &RTy) -> bool
    requires { ModulesAreAligned (map module_view modules.now) }
    ensures { result ≡ type_stands (map module_view modules.now) (tree.Pointer (ty_view target.now)) }
{
    is_void(target) || type_stands(modules, target)
}
