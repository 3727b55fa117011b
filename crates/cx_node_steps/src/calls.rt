//! Calls (ISO C99, 6.5.2.2): what is called with what, and when that is undefined.

ghost use Rattle.std.specs.Prelude.{◌≡◌, length, map, option_map};
ghost use Rattle.std.specs.Option.{option_copied};
ghost use Rattle.cx_access.specs.Finds.{Finds};
ghost use Rattle.cx_core.specs.Trees.{place_of, type_of};
ghost use Rattle.cx_core.specs.Typing.{function_with, outer_with};
ghost use Rattle.cx_core.specs.Views.{view_expr, view_function, view_outer, view_program};
ghost use Rattle.cx_mean.specs.Calls.{all_given, called_with, callee_numbered, counted, is_missing};
ghost use Rattle.cx_mean.specs.Marks as meaning;
ghost use Rattle.cx_node_steps.specs.Callings.{named_calling, view_called_before, view_calling};
ghost use Rattle.cx_work.specs.Views.{view_callee, view_finished, view_operand};

use crate::joins::united;
use cr_base::{Items, URule};
use cx_access::Trouble;
use cx_core::{CoreExpr, Fun, Outer, Parts};
use cx_work::{Called, Callee, Finished, Marks, Operand};
use std::alloc::Global;

// The function that a unit defines with a number.
fn function_numbered(functions: &[Fun], number: u32) -> Option<&Fun>
    ensures { option_map view_function (option_copied result) ≡ function_with number (map view_function functions.now) }
{
    for one in functions {
        if one.function == number {
            return Some(one);
        }
    }
    None
}

// The function that no unit defines with a number.
fn outer_numbered(externals: &[Outer], number: u32) -> Option<&Outer>
    ensures { option_map view_outer (option_copied result) ≡ outer_with number (map view_outer externals.now) }
{
    for one in externals {
        if one.function == number {
            return Some(one);
        }
    }
    None
}

/// The function with a number.
pub fn callee_numbered(program: &Parts, number: u32) -> Result<Callee<'_>, Trouble>
    ensures { Finds view_callee result (callee_numbered (view_program program.now) number) }
{
    match function_numbered(program.functions.as_slice(), number) {
        Some(one) => Ok(Callee::Defined(one)),
        None => match outer_numbered(program.externals.as_slice(), number) {
            Some(one) => Ok(Callee::External(one)),
            None => Err(Trouble::Memory),
        },
    }
}

// As many arguments as a defined function has parameters.
fn counted(callee: Callee<'_>, count: usize) -> Result<(), Trouble>
    ensures { Finds (λ _. view_callee callee.entry) result (counted (view_callee callee.entry) count) }
{
    match callee {
        Callee::Defined(one) => {
            if one.params.len() == count {
                return Ok(());
            }
            Err(Trouble::Undefined(URule::U13))
        }
        Callee::External(_) => Ok(()),
    }
}

fn is_missing(value: &Finished) -> bool
    ensures { result ≡ is_missing (view_finished value.now) }
{
    match value {
        Finished::Missing => true,
        Finished::Scalar(_) => false,
        Finished::Cells(_, _) => false,
        Finished::Names(_) => false,
        Finished::Designates(_) => false,
        Finished::Bits(_, _, _) => false,
    }
}

// Each argument has a value.
fn all_given(args: &[Operand<'_>]) -> Result<(), Trouble>
    ensures { Finds (λ _. map view_operand args.now) result (all_given (map view_operand args.now)) }
{
    let Some((first, others)) = args.split_first() else {
        return Ok(());
    };
    if let Err(trouble) = all_given(others) {
        return Err(trouble);
    }
    if is_missing(&first.value) {
        return Err(Trouble::Undefined(URule::U14));
    }
    Ok(())
}

/// The call of a function with its arguments, behind the accesses of all operands.
///
/// # Errors
///
/// `Undefined` by U13 where there are more or fewer arguments than parameters, or by U14 where an argument has no value.
pub fn called_with<'a>(
    node: &'a CoreExpr,
    callee: Callee<'a>,
    args: Items<Operand<'a>>,
) -> Result<Called<'a>, Trouble>
    ensures { (marks : meaning.Marks) → Finds (view_calling marks) result (called_with (type_of (view_expr node.now)) (place_of (view_expr node.now)) marks
        (map view_operand args.entry) (view_callee callee.entry)) }
{
    if let Err(trouble) = counted(callee, args.len()) {
        return Err(trouble);
    }
    if let Err(trouble) = all_given(args.as_slice()) {
        return Err(trouble);
    }
    Ok(Called {
        callee,
        place: node.place,
        ty: &node.ty,
        args,
    })
}

/// A call, and the accesses before it.
#[derive(Drop)]
pub struct Calling<'a> {
    pub called: Called<'a>,
    pub marks: Marks,
}

/// The call of the function with a number, by its name.
///
/// # Errors
///
/// `Undefined` by U1, U13 or U14.
pub fn called_by_name<'a>(
    alloc: Global,
    program: &'a Parts,
    node: &'a CoreExpr,
    number: u32,
    operands: Items<Operand<'a>>,
) -> Result<Calling<'a>, Trouble>
    ensures { Finds view_called_before result (named_calling (view_program program.now) (type_of (view_expr node.now)) (place_of (view_expr node.now)) number
        (map view_operand operands.entry)) }
{
    let mut marks = match united(alloc, operands.as_slice()) {
        Ok(marks) => marks,
        Err(trouble) => return Err(trouble),
    };
    let callee = match callee_numbered(program, number) {
        Ok(callee) => callee,
        Err(trouble) => return Err(trouble),
    };
    match called_with(node, callee, operands) {
        Ok(called) => {
            marks.end_sequence(alloc);
            Ok(Calling { called, marks })
        }
        Err(trouble) => Err(trouble),
    }
}
