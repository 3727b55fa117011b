//! Nodes with a number that is written: arrays, members and enumerators (ISO C99, 6.7.2.1, 6.7.2.2 and 6.7.5.2).

ghost use Rattle.std.specs.Prelude.{◌≡◌, ◌<ℤ◌, pos, map, Some, IfOk, option_map};
ghost use Rattle.cx_context.specs.Checks.{Checks};
ghost use Rattle.cx_context.specs.Views.{scope_of};
ghost use Rattle.cx_core.specs.Views.{view_member, view_type, view_types};
ghost use Rattle.cx_operands.specs.Views.{view_operand};
ghost use Rattle.cx_rules.specs.Pieces.{width_written};
ghost use Rattle.cx_shapes.specs.Views.{view_step};
ghost use Rattle.cx_type_steps.specs.Steps as steps;
ghost use Rattle.cx_type_steps.specs.Written.{natural_of, member_with, value_given};

use cr_base::{Boxed, Int, Memory, Name, Stop};
use cx_context::Context;
use cx_core::{Member, Ty, Types};
use cx_operands::{Operand, operand_constant};
use cx_scope::{Declared, Meant, Members};
use cx_shapes::Step;
use cx_type_breaks::{array_rule, enumerator_rule, member_rule};

// What is written, to read.
fn operand_in(written: &Option<Operand>) -> Option<&Operand>
    ensures { option_map (λ one. view_operand one.now) result ≡ option_map view_operand written.now }
{
    match written {
        None => None,
        Some(one) => Some(one),
    }
}

// A number as it is, and 0 of what is negative.
fn natural(value: Int) -> Result<u64, Memory>
    ensures { IfOk result (λ number. number ≡ natural_of value) }
{
    if value < 0 {
        return Ok(0);
    }
    if value > 18_446_744_073_709_551_615 {
        return Err(Memory);
    }
    Ok(value as u64)
}

// The number that is written, where it is an integer constant expression.
fn number_written(types: &Types, written: Option<&Operand>) -> Result<Option<u64>, Memory>
    ensures { IfOk result (λ made. made ≡ width_written (view_types types.now) (option_map (λ one. view_operand one.now) written.entry)) }
{
    match written {
        None => Ok(None),
        Some(one) => number_of(types, one),
    }
}

#[tactic(auto, using(crate::proofs::Numbers::width_is))]
fn number_of(types: &Types, one: &Operand) -> Result<Option<u64>, Memory>
    ensures { IfOk result (λ made. made ≡ width_written (view_types types.now) (Some (view_operand one.now))) }
{
    match operand_constant(types, one) {
        None => Ok(None),
        Some(value) => Ok(Some(natural(value)?)),
    }
}

fn width_of(written: Option<u64>) -> Result<Option<u32>, Memory>
    ensures { IfOk result (λ made. made ≡ written) }
{
    match written {
        None => Ok(None),
        Some(number) => match u32::try_from(number) {
            Ok(width) => Ok(Some(width)),
            Err(_) => Err(Memory),
        },
    }
}

/// An array (ISO C99, 6.7.5.2).
pub fn array_seen(
    context: &Context,
    line: u32,
    is_plain: bool,
    written: Option<Operand>,
) -> Result<Step, Stop>
    ensures { Checks view_step result (scope_of context.now) (steps.array_seen line is_plain (option_map view_operand written) (scope_of context.now)) }
{
    let known = context.known();
    let given = operand_in(&written);
    if let Some(rule) = array_rule(known, is_plain, given) {
        return Err(context.refused(rule, line));
    }
    let length = number_written(known.types, given)?;
    Ok(Step::Array { length })
}

/// A member (ISO C99, 6.7.2.1).
pub fn member_seen(
    context: &Context,
    is_last: bool,
    before: &Members,
    line: u32,
    name: Option<Name>,
    ty: Boxed<Ty>,
    width: Option<Operand>,
) -> Result<Member, Stop>
    ensures { Checks view_member result (scope_of context.now) (steps.member_seen is_last (map view_member before.now) line name (view_type ty) (option_map view_operand width) (scope_of context.now)) }
{
    let bits = member_bits(context, is_last, before, line, &name, ty.get(), &width)?;
    Ok(Member {
        name,
        ty: ty.into_inner(),
        bits,
    })
}

// The width of a member that breaks no rule.
fn member_bits(
    context: &Context,
    is_last: bool,
    before: &Members,
    line: u32,
    name: &Option<Name>,
    ty: &Ty,
    width: &Option<Operand>,
) -> Result<Option<u32>, Stop>
    ensures { Checks (member_with name.now (view_type ty.now)) result (scope_of context.now) (steps.member_seen is_last (map view_member before.now) line name.now (view_type ty.now) (option_map view_operand width.now) (scope_of context.now)) }
{
    let known = context.known();
    let given = operand_in(width);
    if let Some(rule) = member_rule(known, is_last, name, ty, given, before) {
        return Err(context.refused(rule, line));
    }
    let number = number_written(known.types, given)?;
    let bits = width_of(number)?;
    Ok(bits)
}

// The value of an enumerator: what is written, or else one more than that of the one before.
fn value_given(types: &Types, next: Int, written: Option<&Operand>) -> Int
    ensures { result ≡ value_given (view_types types.now) next (option_map (λ one. view_operand one.now) written.entry) }
{
    match written {
        None => next,
        Some(one) => match operand_constant(types, one) {
            None => next,
            Some(value) => value,
        },
    }
}

/// An enumerator (ISO C99, 6.7.2.2).
pub fn enumerator_seen(
    context: &mut Context,
    name: &Name,
    line: u32,
    next: Int,
    written: &Option<Operand>,
) -> Result<Int, Stop>
    ensures value { Checks (λ value. value) result (scope_of context.new) (steps.enumerator_seen name.now line next (option_map view_operand written.now) (scope_of context.old)) }
    ensures bound { IfOk result (λ value. value <ℤ pos 2147483648) }
{
    let taken = context.is_taken(name);
    let known = context.known();
    let given = operand_in(written);
    let value = value_given(known.types, next, given);
    if let Some(rule) = enumerator_rule(known, taken, given, value) {
        return Err(context.refused(rule, line));
    }
    // K23 leaves no greater value.
    if value > 2_147_483_647 {
        return Err(Stop::Memory);
    }
    let name = name.copy()?;
    context.add(Declared {
        name,
        meant: Meant::Enumerator(value),
    })?;
    Ok(value)
}
