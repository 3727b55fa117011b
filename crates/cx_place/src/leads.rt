//! Where entries stand, by their designators (ISO C99, 6.7.8p6, p7, p17, p18).

ghost use Rattle.std.specs.Prelude.{◌≡◌, ◌++◌, [], ◌∷◌, option_map, IfOk, OnOk};
ghost use Rattle.cx_init.specs.Views.{view_target};
ghost use Rattle.cx_kinds.specs.Known.{IsKnown, types_in};
ghost use Rattle.cx_parts.specs.Views.{view_at};
ghost use Rattle.cx_place.specs.Placing.{at_entry, entry_led, leads, led_to, step_at, step_led, rule_of_part, with_rule};
ghost use Rattle.cx_place.specs.Views.{view_placing};

use crate::given::To;
use crate::placing::Placing;
use crate::rules::rule_of_part;
use cr_base::{Items, Memory, Rule};
use cx_init::{Target, next_at, whole_at};
use cx_kinds::Known;
use cx_parts::{At, element_at, member_at};
use std::alloc::Global;

// Where one designator leads.
fn step_at(alloc: Global, known: Known, at: Option<&At>, to: &To) -> Result<Option<At>, Memory>
    requires { IsKnown known }
    ensures { IfOk result (λ made. option_map view_at made ≡ step_at (types_in known.entry) (option_map (λ one. view_at one.now) at.entry) to.now) }
{
    match to {
        To::Index(index) => element_at(alloc, known, at, Some(*index)),
        To::Field(name) => member_at(alloc, known, at, name.bytes()),
    }
}

// One more designator is followed.
fn step_led(
    alloc: Global,
    known: Known,
    at: Option<&At>,
    to: &To,
    rules: &mut Items<Option<Rule>>,
) -> Result<Option<At>, Memory>
    requires { IsKnown known }
    ensures { IfOk result (λ made. record { at = option_map view_at made; rules = rules.new }
        ≡ step_led (types_in known.entry) (record { at = option_map (λ one. view_at one.now) at.entry; rules = rules.old }) to.now) }
{
    let found = step_at(alloc, known, at, to)?;
    rules.push(rule_of_part(found.is_some(), true))?;
    Ok(found)
}

// All of these designators are followed.
fn leads(
    alloc: Global,
    known: Known,
    list: &[To],
    from: Option<At>,
    rules: &mut Items<Option<Rule>>,
) -> Result<Option<At>, Memory>
    requires { IsKnown known }
    ensures { IfOk result (λ made. record { at = option_map view_at made; rules = rules.new }
        ≡ leads (types_in known.entry) list.now (record { at = option_map view_at from; rules = rules.old })) }
{
    let mut at = from;
    for to in list {
        at = step_led(alloc, known, at.as_ref(), to, rules)?;
    }
    Ok(at)
}

/// Where an entry stands: where its designators lead, or else behind the entry before. Refused only for want of memory.
pub(crate) fn entry_led(
    alloc: Global,
    known: Known,
    target: &Target,
    list: &[To],
    placing: &mut Placing,
) -> Result<Option<At>, Memory>
    requires { IsKnown known }
    ensures at { IfOk result (λ made. option_map view_at made ≡ (entry_led (types_in known.entry) (view_target target.now) (view_placing placing.old) list.now).at) }
    ensures placing { OnOk result (view_placing placing.new ≡ at_entry (view_placing placing.old) (entry_led (types_in known.entry) (view_target target.now) (view_placing placing.old) list.now)) }
{
    if list.is_empty() {
        return next_at(alloc, &placing.filling);
    }
    let whole = whole_at(alloc, target)?;
    leads(alloc, known, list, whole, &mut placing.rules)
}
