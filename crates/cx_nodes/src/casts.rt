//! Casts (ISO C99, 6.5.4).

ghost use Rattle.std.specs.Prelude.{◌≡◌, ◌||◌, IfOk, if◌then◌else◌};
ghost use Rattle.cx_core.specs.Trees.{expr, null, convert, unqualified};
ghost use Rattle.cx_core.specs.Views.{view_expr, view_type, view_types};
ghost use Rattle.cx_operands.specs.Views.{view_operand};
ghost use Rattle.cx_rules.specs.Meanings.{cast_meaning, makes_null};
ghost use Rattle.cx_rules.specs.Types.{is_integer, is_function_pointer};

use cr_base::{Boxed, Memory, Place};
use cx_core::{CoreExpr, Ty, Types};
use cx_forms::{convert_node, null_node};
use cx_kinds::{is_function_pointer, is_pointer};
use cx_operands::{Operand, ValueTy, is_null_constant};
use cx_operators::a_value;
use cx_values::{unqualified_copy, value_of};
use std::alloc::Global;

/// What a cast to a type means (ISO C99, 6.5.4p4). Refused only for want of memory.
pub fn cast_meaning(
    alloc: Global,
    types: &Types,
    at: Place,
    t: &Ty,
    on: Operand,
) -> Result<Operand, Memory>
    ensures { IfOk result (λ made. view_operand made ≡ cast_meaning at (view_types types.now) (view_type t.now) (view_operand on)) }
{
    let value = value_of(alloc, on)?;
    let core = cast_to(alloc, types, at, t, value)?;
    Ok(a_value(core))
}

fn cast_to(
    alloc: Global,
    types: &Types,
    at: Place,
    t: &Ty,
    value: Boxed<CoreExpr>,
) -> Result<Boxed<CoreExpr>, Memory>
    ensures { IfOk result (λ made. view_expr made ≡ expr (unqualified (view_type t.now)) at
        (if makes_null (view_types types.now) (view_type t.now) (view_expr value) then null else convert (view_expr value))) }
{
    let ty = unqualified_copy(alloc, t)?;
    if makes_null(types, t, value.get()) {
        null_node(alloc, ty, at)
    } else {
        convert_node(alloc, ty, at, value)
    }
}

// Whether a null pointer constant becomes a null pointer of another type than `void *`.
#[tactic(auto, using(crate::proofs::Opened::type_of_view))]
fn makes_null(types: &Types, t: &Ty, value: &CoreExpr) -> bool
    ensures { result ≡ makes_null (view_types types.now) (view_type t.now) (view_expr value.now) }
{
    if !is_pointer(t) {
        return false;
    }
    is_null_constant(types, value) && is_made_anew(types, t, &value.ty)
}

fn is_made_anew(types: &Types, t: &Ty, of: &Ty) -> bool
    ensures { result ≡ (is_integer (view_types types.now) (view_type of.now) || is_function_pointer (view_type t.now)) }
{
    ValueTy::Plain(of).is_integer(types) || is_function_pointer(t)
}
