//! Lists of members that have ended (ISO C99, 6.7.2.1).

ghost use Rattle.std.specs.Prelude.{◌≡◌, ℕ, false, IfOk, OnOk, map, option_map};
ghost use Rattle.cx_breaks.specs.Placed.{placed};
ghost use Rattle.cx_context.specs.Checks.{Checks};
ghost use Rattle.cx_context.specs.Views.{scope_of};
ghost use Rattle.cx_core.specs.Trees.{ty, record_type};
ghost use Rattle.cx_core.specs.Views.{view_member, view_record};
ghost use Rattle.cx_rules.specs.Nodes.{record_node};
ghost use Rattle.cx_rules.specs.Rules.{rule_at};
ghost use Rattle.cx_rules.specs.Scope.{with_completed};
ghost use Rattle.cx_rules.specs.Shapes.{with_type};
ghost use Rattle.cx_scope.specs.Views.{view_tag};
ghost use Rattle.cx_shapes.specs.Views.{view_specs};
ghost use Rattle.cx_type_steps.specs.Steps as steps;

use crate::types::add_record;
use cr_base::{Items, Memory, Name, Rule, Stop};
use cx_context::{Begun, Context};
use cx_core::{Member, RecordTy};
use cx_shapes::Specs;
use cx_type_breaks::record_rule;

/// A list of members has ended (ISO C99, 6.7.2.1).
pub fn record_ended(
    context: &mut Context,
    begun: Begun,
    specs: &mut Specs,
    is_union: bool,
    name: &Option<Name>,
    line: u32,
    members: Items<Member>,
) -> Result<(), Stop>
    ensures { Checks (λ _. view_specs specs.new) result (scope_of context.new) (steps.record_ended (view_specs specs.old) is_union name.now line (map view_member members) (scope_of context.old) (option_map view_tag begun.found) begun.number (scope_of context.old)) }
{
    let tag = copy_name(name)?;
    let one = RecordTy {
        number: begun.number,
        tag,
        is_union,
        members,
    };
    record_completed(context, begun, specs, line, one)
}

fn copy_name(name: &Option<Name>) -> Result<Option<Name>, Memory>
    ensures { IfOk result (λ copy. copy ≡ name.now) }
{
    match name {
        None => Ok(None),
        Some(name) => Ok(Some(name.copy()?)),
    }
}

fn record_completed(
    context: &mut Context,
    begun: Begun,
    specs: &mut Specs,
    line: u32,
    one: RecordTy,
) -> Result<(), Stop>
    ensures { Checks (λ _. view_specs specs.new) result (scope_of context.new) (steps.record_ended (view_specs specs.old) one.is_union one.tag line (map view_member one.members) (scope_of context.old) (option_map view_tag begun.found) one.number (scope_of context.old)) }
{
    let found = rule_of(context, begun, &one)?;
    if let Some(rule) = found {
        return Err(context.refused(rule, line));
    }
    record_added(context, specs, one)?;
    Ok(())
}

// The rule that a list of members breaks.
fn rule_of(context: &Context, begun: Begun, one: &RecordTy) -> Result<Option<Rule>, Memory>
    ensures { IfOk result (λ found. (line : ℕ) → found ≡ rule_at (placed (scope_of context.now).types (scope_of context.now) line (record_node one.now.is_union (option_map view_tag begun.found) one.now.number (map view_member one.now.members)))) }
{
    let too_large = context.is_record_too_large(one)?;
    let known = context.known();
    let members = one.members.as_slice();
    Ok(record_rule(
        known.types,
        one.is_union,
        begun.found,
        one.number,
        members,
        too_large,
    ))
}

// The record is completed, and is one more type among specifiers.
fn record_added(context: &mut Context, specs: &mut Specs, one: RecordTy) -> Result<(), Memory>
    ensures specs { OnOk result (view_specs specs.new ≡ with_type (ty (record_type one.number) false) (view_specs specs.old)) }
    ensures scope { OnOk result (scope_of context.new ≡ with_completed one.number (view_record one) (scope_of context.old)) }
{
    add_record(context.alloc(), specs, one.number)?;
    context.end_record(one)?;
    Ok(())
}
