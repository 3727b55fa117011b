//! The flow of linear code.

ghost use Rattle.std.specs.Prelude.{◌≡◌, map, IfOk};
ghost use Rattle.build_flow_instrs.specs.Views.{instr_view};
ghost use Rattle.build_flow_reached.specs.Codes.{AllDiffer, flow_of_code, placed_in};
ghost use Rattle.build_flow_reached.specs.Numbers.{counted_from, numbers_from};
ghost use Rattle.build_flow_reached.specs.Reached.{reached_by};
ghost use Rattle.flow.specs.Views.{flow_view};

use crate::behind::nodes_of;
use crate::index::PlaceIndex;
use crate::numbers::{Numbers, Places};
use crate::table::Table;
use crate::walk::reached;
use build_flow_instrs::Instr;
use cr_base::{Items, Memory};
use flow::Flow;
use std::alloc::Global;

// The numbers of the places that are reached.
fn numbers_of(alloc: Global, index: &PlaceIndex, code: &[Instr]) -> Result<Numbers, Memory>
    ensures numbers { IfOk result (λ made. made.numbers ≡ numbers_from 0 (reached_by index.now (map instr_view code.now))) }
    ensures count { IfOk result (λ made. made.count ≡ counted_from 0 (reached_by index.now (map instr_view code.now))) }
{
    let table = Table::of(alloc, index, code)?;
    let seen = reached(alloc, index, &table)?;
    Numbers::of(alloc, seen.as_slice())
}

/// The flow of linear code whose places differ: a node for each of its places that is reached from the beginning of the body, in the order of the text. The first one is entered.
///
/// # Errors
///
/// `Memory`: the allocator gave no memory, as which more marks than a number of 32 bits tells count, too.
pub fn flow_of_code(alloc: Global, code: Items<Instr>) -> Result<Flow, Memory>
    requires { AllDiffer (placed_in (map instr_view code)) }
    ensures { IfOk result (λ made. flow_view made ≡ flow_of_code (map instr_view code)) }
{
    let index = PlaceIndex::of(alloc, code.as_slice())?;
    let numbers = numbers_of(alloc, &index, code.as_slice())?;
    let places = Places {
        index: &index,
        numbers: &numbers,
    };
    let nodes = nodes_of(alloc, &places, code)?;
    Ok(Flow { nodes, entry: 0 })
}
