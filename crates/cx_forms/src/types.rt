//! Types that operators give, and types of operands, made.

ghost use Rattle.std.specs.Prelude.{◌≡◌, false, IfOk};
ghost use Rattle.cx_core.specs.Trees.{ty, basic, pointer};
ghost use Rattle.cx_core.specs.Views.{view_type};
ghost use Rattle.cx_rules.specs.Types.{void_type};

use cr_base::{Boxed, Memory};
use cx_core::{Basic, Ty, TyForm};
use std::alloc::Global;

/// An unqualified basic type. Refused only for want of memory.
pub fn basic_ty(alloc: Global, which: Basic) -> Result<Boxed<Ty>, Memory>
    ensures { IfOk result (λ made. view_type made ≡ ty (basic which) false) }
{
    Boxed::new(alloc, Ty::basic(which))
}

/// `void`. Refused only for want of memory.
pub fn void_ty(alloc: Global) -> Result<Boxed<Ty>, Memory>
    ensures { IfOk result (λ made. view_type made ≡ void_type) }
{
    Boxed::new(
        alloc,
        Ty {
            form: TyForm::Void,
            is_const: false,
        },
    )
}

/// The pointer type to a type, which is copied. Refused only for want of memory.
pub fn pointer_to(alloc: Global, to: &Ty) -> Result<Boxed<Ty>, Memory>
    ensures { IfOk result (λ made. view_type made ≡ ty (pointer (view_type to.now)) false) }
{
    let copied = to.copy(alloc)?;
    Ty::pointer(alloc, copied, false)
}
