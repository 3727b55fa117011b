//! Tentative definitions that are left at the end of a unit (ISO C99, 6.9.2p2, p3).

ghost use Rattle.std.specs.Prelude.{◌≡◌, map};
ghost use Rattle.cx_context.specs.Checks.{Checks};
ghost use Rattle.cx_context.specs.Views.{scope_of};
ghost use Rattle.cx_core.specs.Views.{view_unit};
ghost use Rattle.cx_decl_steps.specs.Steps as steps;
ghost use Rattle.cx_rules.specs.UnitWalk as unit;
ghost use Rattle.cx_scope.specs.Views.{view_scope, view_thing};
ghost use Rattle.cx_unit_ends.specs.Refused as first;

use crate::types::is_left;
use crate::unit::unit_of;
use cr_base::{Refusal, Stop};
use cx_context::Context;
use cx_core::CoreUnit;
use cx_scope::Thing;
use cx_stmt_breaks::tentative_rule;

fn tentative_line(one: &Thing) -> u32
    ensures { result ≡ unit.tentative_line (view_thing one.now) }
{
    match one.tentative {
        None => 0,
        Some(line) => line,
    }
}

/// Why a tentative definition is refused at the end of its unit.
fn refused(context: &Context, one: &Thing) -> Option<Refusal>
    ensures { result ≡ first.refused (scope_of context.now) (view_thing one.now) }
{
    let known = context.known();
    if let Some(rule) = tentative_rule(known, &one.ty) {
        return Some(Refusal {
            rule,
            unit: context.scope.unit(),
            line: tentative_line(one),
        });
    }
    None
}

fn refused_if_left(context: &Context, one: &Thing) -> Option<Refusal>
    ensures { result ≡ first.refused_if_left (scope_of context.now) (view_thing one.now) }
{
    if is_left(one) {
        return refused(context, one);
    }
    None
}

fn earlier(one: Option<Refusal>, other: Option<Refusal>) -> Option<Refusal>
    ensures { result ≡ first.earlier one other }
{
    match one {
        None => other,
        Some(one) => match other {
            None => Some(one),
            Some(other) => {
                if one.line <= other.line {
                    Some(one)
                } else {
                    Some(other)
                }
            }
        },
    }
}

/// The first in the text that is refused.
#[tactic(auto, using(crate::proofs::FirstRefused::earlier_none, crate::proofs::FirstRefused::earlier_three))]
fn first_refused(context: &Context, things: &[Thing]) -> Option<Refusal>
    ensures { result ≡ first.first_refused (scope_of context.now) (map view_thing things.now) }
{
    let mut earliest = None;
    for one in things {
        earliest = earlier(earliest, refused_if_left(context, one));
    }
    earliest
}

#[tactic(auto, using(crate::proofs::FirstRefused::tentatives_fine, crate::proofs::FirstRefused::tentatives_refused))]
fn tentatives_seen(context: &Context, things: &[Thing]) -> Result<(), Stop>
    ensures { Checks (λ (_ : Unit {0}). tt) result (scope_of context.now) (steps.tentatives_seen (unit.tentative_things (map view_thing things.now)) (scope_of context.now)) }
{
    match first_refused(context, things) {
        None => Ok(()),
        Some(refusal) => Err(Stop::Refused(refusal)),
    }
}

/// A unit has ended: its tentative definitions, and the typed unit (ISO C99, 6.9.2). The place is used up.
pub fn unit_ended(context: Context) -> Result<CoreUnit, Stop>
    ensures { Checks view_unit result (scope_of context) (steps.unit_ends (scope_of context)) }
{
    match tentatives_seen(&context, context.scope.things.as_slice()) {
        Err(stop) => Err(stop),
        Ok(()) => Ok(unit_of(context.scope)?),
    }
}
