//! `const` added to types (ISO C99, 6.7.3).

ghost use Rattle.std.specs.Prelude.{◌≡◌, true, IfOk};
ghost use Rattle.cx_core.specs.Trees.{CTy, ty, array};
ghost use Rattle.cx_core.specs.ValidTypes.{with_const};
ghost use Rattle.cx_core.specs.Views.{view_type};
ghost use Rattle.cx_rules.specs.Types.{qualified};

use crate::parts::{array_of, requalified};
use cr_base::{Boxed, Memory};
use cx_core::{Ty, TyForm};
use std::alloc::Global;

/// The type of a member of an object of a type that is `const` or isn't: an array passes the qualifier on to its elements
/// (ISO C99, 6.5.2.3p3, 6.7.3p8). Refused only for want of memory.
pub fn with_const(alloc: Global, is_const: bool, t: &Ty) -> Result<Boxed<Ty>, Memory>
    ensures { IfOk result (λ made. view_type made ≡ with_const is_const (view_type t.now)) }
{
    if is_const {
        constant_member(alloc, t)
    } else {
        t.copy(alloc)
    }
}

fn constant_member(alloc: Global, t: &Ty) -> Result<Boxed<Ty>, Memory>
    ensures { IfOk result (λ made. view_type made ≡ with_const true (view_type t.now)) }
{
    match &t.form {
        TyForm::Array(element, length) => {
            let made = constant_member(alloc, element.get())?;
            array_of(alloc, made, *length, t.is_const)
        }
        TyForm::Void
        | TyForm::Basic(_)
        | TyForm::Enum(_)
        | TyForm::Pointer(_)
        | TyForm::Record(_)
        | TyForm::Function(_) => requalified(alloc, t, true),
    }
}

/// A type with `const` added, or as it is: an array passes the qualifier on to its elements (ISO C99, 6.7.3p8), and it does
/// nothing to a function type. Refused only for want of memory.
pub fn qualified(alloc: Global, is_const: bool, t: &Ty) -> Result<Boxed<Ty>, Memory>
    ensures { IfOk result (λ made. view_type made ≡ qualified is_const (view_type t.now)) }
{
    if is_const {
        constant(alloc, t)
    } else {
        t.copy(alloc)
    }
}

fn constant(alloc: Global, t: &Ty) -> Result<Boxed<Ty>, Memory>
    ensures { IfOk result (λ made. view_type made ≡ qualified true (view_type t.now)) }
{
    match &t.form {
        TyForm::Array(element, length) => {
            let made = constant(alloc, element.get())?;
            array_of(alloc, made, *length, t.is_const)
        }
        TyForm::Function(_) => t.copy(alloc),
        TyForm::Void
        | TyForm::Basic(_)
        | TyForm::Enum(_)
        | TyForm::Pointer(_)
        | TyForm::Record(_) => requalified(alloc, t, true),
    }
}
