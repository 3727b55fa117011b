//! Equal types. Each is refused only for want of memory.

ghost use Rattle.std.specs.Prelude.{◌≡◌, map, option_map, IfOk};
ghost use Rattle.rs_text.specs.Tree as tree;
ghost use Rattle.rs_text.specs.Tree.{tys, option_ty};
ghost use Rattle.rs_tree.specs.Views.{ty_view};

use cr_base::{Boxed, Items, Memory};
use rs_tree::{RPath, RTy};
use std::alloc::Global;

/// An equal path.
pub fn copy_path(path: &RPath) -> Result<RPath, Memory>
    ensures { IfOk result (λ made. made ≡ path.now) }
{
    let home = path.home.copy()?;
    let name = path.name.copy()?;
    Ok(RPath { home, name })
}

fn boxed(alloc: Global, ty: RTy) -> Result<Boxed<RTy>, Memory>
    ensures { IfOk result (λ made. ty_view made ≡ ty_view ty) }
{
    Boxed::new(alloc, ty)
}

// The pointer type to a type that was copied.
fn copied_pointer(
    alloc: Global,
    _of: &RTy,
    copied: Result<Boxed<RTy>, Memory>,
) -> Result<Boxed<RTy>, Memory>
    requires { IfOk copied (λ target. ty_view target ≡ ty_view _of.now) }
    ensures { IfOk result (λ made. ty_view made ≡ tree.Pointer (ty_view _of.now)) }
{
    boxed(alloc, RTy::Pointer(copied?))
}

// The array type of elements of a type that was copied.
fn copied_array(
    alloc: Global,
    _of: &RTy,
    copied: Result<Boxed<RTy>, Memory>,
    size: u64,
) -> Result<Boxed<RTy>, Memory>
    requires { IfOk copied (λ element. ty_view element ≡ ty_view _of.now) }
    ensures { IfOk result (λ made. ty_view made ≡ tree.Array (ty_view _of.now) size) }
{
    boxed(alloc, RTy::Array(copied?, size))
}

fn copied_record(alloc: Global, path: &RPath) -> Result<Boxed<RTy>, Memory>
    ensures { IfOk result (λ made. ty_view made ≡ tree.Record path.now.home path.now.name) }
{
    let path = copy_path(path)?;
    boxed(alloc, RTy::Record(path))
}

#[tactic(auto, using(rs_tree::proofs::Opened::code_view))]
fn code(alloc: Global, params: Items<RTy>, given: Option<Boxed<RTy>>) -> Result<Boxed<RTy>, Memory>
    ensures { IfOk result (λ made. ty_view made ≡ tree.Code (tys (map ty_view params)) (option_ty (option_map ty_view given))) }
{
    Boxed::new(alloc, RTy::Code(params, given))
}

/// An equal type.
#[cycle(copy)]
pub fn copy_ty(alloc: Global, ty: &RTy) -> Result<Boxed<RTy>, Memory>
    ensures { IfOk result (λ made. ty_view made ≡ ty_view ty.now) }
{
    match ty {
        RTy::Integer(which) => boxed(alloc, RTy::Integer(*which)),
        RTy::Boolean => boxed(alloc, RTy::Boolean),
        RTy::Void => boxed(alloc, RTy::Void),
        RTy::Pointer(target) => copied_pointer(alloc, target.get(), copy_ty(alloc, target.get())),
        RTy::Array(element, size) => {
            copied_array(alloc, element.get(), copy_ty(alloc, element.get()), *size)
        }
        RTy::Code(params, given) => {
            let made = copy_tys(alloc, params.as_slice())?;
            let back = copy_given(alloc, given)?;
            code(alloc, made, back)
        }
        RTy::Record(path) => copied_record(alloc, path),
    }
}

/// Equal types, in their order.
#[cycle(copy)]
pub fn copy_tys(alloc: Global, types: &[RTy]) -> Result<Items<RTy>, Memory>
    ensures { IfOk result (λ made. map ty_view made ≡ map ty_view types.now) }
{
    let mut made = Items::new(alloc);
    for one in types {
        made.push(copy_ty(alloc, one)?.into_inner())?;
    }
    Ok(made)
}

/// An equal type of a result, if there is one.
#[cycle(copy)]
pub fn copy_given(alloc: Global, given: &Option<Boxed<RTy>>) -> Result<Option<Boxed<RTy>>, Memory>
    ensures { IfOk result (λ made. option_map ty_view made ≡ option_map ty_view given.now) }
{
    match given {
        None => Ok(None),
        Some(ty) => Ok(Some(copy_ty(alloc, ty.get())?)),
    }
}
