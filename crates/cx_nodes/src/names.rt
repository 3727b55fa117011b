//! Names in expressions (ISO C99, 6.5.1).

ghost use Rattle.std.specs.Prelude.{◌≡◌, false, Some, option_map, IfOk};
ghost use Rattle.cx_core.specs.Trees.{ty, pointer, expr, object, code};
ghost use Rattle.cx_core.specs.Views.{view_type};
ghost use Rattle.cx_operands.specs.Views.{view_operand};
ghost use Rattle.cx_rules.specs.Meanings.{name_meaning};
ghost use Rattle.cx_rules.specs.Operands.{a_place};
ghost use Rattle.cx_rules.specs.declared.kinds.OperandKind.TheVariants.{Function};
ghost use Rattle.cx_scope.specs.Views.{view_meant};

use crate::constants::{int_meaning, no_meaning};
use cr_base::{Memory, Place};
use cx_core::Ty;
use cx_forms::{code_node, object_node, pointer_to};
use cx_operands::Operand;
use cx_operators::{a_place, of_kind};
use cx_rules::OperandKind;
use cx_scope::Meant;
use std::alloc::Global;

/// What a name in an expression means, where it is declared so: an object, a function or the value of an enumerator (ISO C99,
/// 6.5.1p2). Refused only for want of memory.
pub fn name_meaning(alloc: Global, at: Place, meant: Option<&Meant>) -> Result<Operand, Memory>
    ensures { IfOk result (λ made. view_operand made ≡ name_meaning at (option_map (λ one. view_meant one.now) meant.entry)) }
{
    match meant {
        None => no_meaning(alloc, at),
        Some(one) => declared_meaning(alloc, at, one),
    }
}

fn declared_meaning(alloc: Global, at: Place, meant: &Meant) -> Result<Operand, Memory>
    ensures { IfOk result (λ made. view_operand made ≡ name_meaning at (Some (view_meant meant.now))) }
{
    match meant {
        Meant::Object {
            object,
            ty,
            register,
            ..
        } => object_meaning(alloc, at, *object, ty, *register),
        Meant::Function { function, ty, .. } => function_meaning(alloc, at, *function, ty),
        Meant::Enumerator(value) => int_meaning(alloc, at, *value),
        Meant::TypeName(_) => no_meaning(alloc, at),
        Meant::Tag { .. } => no_meaning(alloc, at),
    }
}

fn object_meaning(
    alloc: Global,
    at: Place,
    number: u32,
    t: &Ty,
    is_register: bool,
) -> Result<Operand, Memory>
    ensures { IfOk result (λ made. view_operand made ≡ a_place is_register (expr (view_type t.now) at (object number))) }
{
    let of = t.copy(alloc)?;
    let core = object_node(alloc, of, at, number)?;
    Ok(a_place(is_register, core))
}

fn function_meaning(alloc: Global, at: Place, number: u32, t: &Ty) -> Result<Operand, Memory>
    ensures { IfOk result (λ made. view_operand made ≡ record { kind = Function; is_register = false; core = expr (ty (pointer (view_type t.now)) false) at (code number) }) }
{
    let of = pointer_to(alloc, t)?;
    let core = code_node(alloc, of, at, number)?;
    Ok(of_kind(OperandKind::Function, core))
}
