//! Compound literals (ISO C99, 6.5.2.5).

ghost use Rattle.std.specs.Prelude.{◌≡◌, true, false, length, map, IfOk, OnOk};
ghost use Rattle.cr_base.specs.declared.refusal.Place.{Place as TextPlace};
ghost use Rattle.cx_context.specs.Checks.{Checks};
ghost use Rattle.cx_context.specs.Views.{scope_of};
ghost use Rattle.cx_core.specs.Views.{view_type, view_puts};
ghost use Rattle.cx_init.specs.Views.{view_filled, view_stored};
ghost use Rattle.cx_init_steps.specs.Steps as steps;
ghost use Rattle.cx_operands.specs.Views.{view_operand};
ghost use Rattle.cx_rules.specs.Pieces.{literal_meaning, with_literal};

use cr_base::{Boxed, Items, Memory, Place, Stop};
use cx_breaks::literal_rule;
use cx_context::{Context, LiteralBegun};
use cx_core::{CoreExpr, Form, Put, Ty};
use cx_forms::object_node;
use cx_init::{Filled, StoredValues, filled_object};
use cx_operands::Operand;
use cx_operators::a_place;
use std::alloc::Global;

/// A compound literal of a type begins: its object comes into being. Refused only for want of memory.
pub fn literal_begins(context: &mut Context, t: &Ty) -> Result<LiteralBegun, Memory>
    ensures scope { OnOk result (scope_of context.new ≡ with_literal (view_type t.now) (scope_of context.old)) }
    ensures literals { IfOk result (λ begun. begun.literals ≡ length (scope_of context.old).literals) }
    ensures object { IfOk result (λ begun. begun.object ≡ (scope_of context.old).next_object) }
{
    let ty = t.copy(context.alloc())?;
    let begun = context.begin_literal(ty)?;
    Ok(begun)
}

// A compound literal in a function stores its puts each time that it is reached.
fn inside_meaning(
    alloc: Global,
    at: Place,
    number: u32,
    ty: Boxed<Ty>,
    puts: Items<Put>,
) -> Result<Operand, Memory>
    ensures { IfOk result (λ made. view_operand made ≡ literal_meaning true at number (view_type ty) (view_puts puts)) }
{
    let core = Boxed::new(
        alloc,
        CoreExpr {
            ty: ty.into_inner(),
            place: at,
            form: Form::Literal(number, puts),
        },
    )?;
    Ok(a_place(false, core))
}

// Outside of functions it is an object like another.
fn outside_meaning(
    alloc: Global,
    at: Place,
    number: u32,
    ty: Boxed<Ty>,
    _puts: &Items<Put>,
) -> Result<Operand, Memory>
    ensures { IfOk result (λ made. view_operand made ≡ literal_meaning false at number (view_type ty) (view_puts _puts.now)) }
{
    let core = object_node(alloc, ty, at, number)?;
    Ok(a_place(false, core))
}

fn inside_ended(
    context: &mut Context,
    begun: LiteralBegun,
    line: u32,
    filled: Filled,
) -> Result<Operand, Stop>
    requires { (scope_of context.old).in_function ≡ true }
    ensures { Checks view_operand result (scope_of context.new) (steps.literal_ended_as begun.literals begun.object line (scope_of context.old) (view_filled filled) (scope_of context.old)) }
{
    let known = context.known();
    let t = filled.ty.get();
    if let Some(rule) = literal_rule(known, t) {
        return Err(context.refused(rule, line));
    }
    let alloc = context.alloc();
    let at = context.at_line(line);
    let own = t.copy(alloc)?;
    let made = inside_meaning(alloc, at, begun.object, own, filled.puts)?;
    context.end_literal(begun, true, filled.ty, Items::new(alloc));
    Ok(made)
}

fn outside_ended(
    context: &mut Context,
    begun: LiteralBegun,
    line: u32,
    filled: Filled,
) -> Result<Operand, Stop>
    requires { (scope_of context.old).in_function ≡ false }
    ensures { Checks view_operand result (scope_of context.new) (steps.literal_ended_as begun.literals begun.object line (scope_of context.old) (view_filled filled) (scope_of context.old)) }
{
    let known = context.known();
    let t = filled.ty.get();
    if let Some(rule) = literal_rule(known, t) {
        return Err(context.refused(rule, line));
    }
    let alloc = context.alloc();
    let at = context.at_line(line);
    let own = t.copy(alloc)?;
    let made = outside_meaning(alloc, at, begun.object, own, &filled.puts)?;
    context.end_literal(begun, false, filled.ty, filled.puts);
    Ok(made)
}

/// The list of a compound literal has ended.
pub fn literal_ended(
    context: &mut Context,
    begun: LiteralBegun,
    line: u32,
    ty: Boxed<Ty>,
    stored: StoredValues,
) -> Result<Operand, Stop>
    ensures { Checks view_operand result (scope_of context.new) (steps.literal_ended begun.literals begun.object line (view_type ty) (map view_stored stored) (scope_of context.old)) }
{
    let filled = filled_object(context.alloc(), context.known(), ty, stored)?;
    if context.is_inside() {
        inside_ended(context, begun, line, filled)
    } else {
        outside_ended(context, begun, line, filled)
    }
}
