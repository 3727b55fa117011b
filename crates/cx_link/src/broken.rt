//! The first rule that units break together.

ghost use Rattle.std.specs.Prelude.{◌≡◌, map, IfOk, nat_lt, length, is_some};
ghost use Rattle.std.specs.List.{list_any};
ghost use Rattle.cx_core.specs.Linked.{is_main};
ghost use Rattle.cx_core.specs.Views.{view_function, view_unit};
ghost use Rattle.cx_link.specs.Mains.{has_main};
ghost use Rattle.cx_links.specs.Program.{linked};
ghost use Rattle.cx_links.specs.Rules.{broken_links, main_missing, nowhere};

use crate::chain::is_external;
use crate::joined::{all_mentions, all_types};
use crate::rules::first_broken;
use cr_base::{Memory, Refusal, Rule};
use cx_core::{CoreUnit, Fun};
use std::alloc::Global;

/// The most units of a program.
pub const MOST_UNITS: usize = 64;

// That no unit and no line breaks a rule, but all together.
fn nowhere(rule: Rule) -> Refusal
    ensures { result ≡ nowhere rule }
{
    Refusal {
        rule,
        unit: 0,
        line: 0,
    }
}

fn is_main(one: &Fun) -> bool
    ensures { result ≡ is_main (view_function one.now) }
{
    one.name.bytes() == b"main".as_slice() && is_external(one.linkage)
}

fn defines_main(functions: &[Fun]) -> bool
    ensures { result ≡ list_any is_main (map view_function functions.now) }
{
    for one in functions {
        if is_main(one) {
            return true;
        }
    }
    false
}

fn has_main(units: &[CoreUnit]) -> bool
    ensures { result ≡ has_main (map view_unit units.now) }
{
    for one in units {
        if defines_main(one.functions.as_slice()) {
            return true;
        }
    }
    false
}

/// The first rule that typed units break together, in text order (ISO C99, 5.1.2.2.1, 6.2.2p2, 6.2.7p2, 6.9p5): M2 for more than 64 of
/// them, then L1 to L5 at their mentions, then L3 where none defines `main`; none where they are a program. Refused only for want of
/// memory.
#[tactic(auto, unfolding(cx_links::specs::Rules::broken_links))]
pub fn broken_links(alloc: Global, units: &[CoreUnit]) -> Result<Option<Refusal>, Memory>
    ensures { IfOk result (λ found. found ≡ broken_links (map view_unit units.now)) }
{
    if units.len() > MOST_UNITS {
        return Ok(Some(nowhere(Rule::M2)));
    }
    let types = all_types(alloc, units)?;
    let all = all_mentions(alloc, units)?;
    let found = first_broken(alloc, &types, all.as_slice())?;
    Ok(found.or(main_missing(units)))
}

fn main_missing(units: &[CoreUnit]) -> Option<Refusal>
    ensures { result ≡ main_missing (linked (map view_unit units.now)) }
{
    if has_main(units) {
        None
    } else {
        Some(nowhere(Rule::L3))
    }
}
