//! The program of units.

ghost use Rattle.std.specs.Prelude.{◌≡◌, map, None, IfOk, IfErr};
ghost use Rattle.cx_core.specs.Views.{view_program, view_unit};
ghost use Rattle.cx_links.specs.Program.{linked};
ghost use Rattle.cx_links.specs.Rules.{broken_links};
ghost use Rattle.cx_linked.specs.Linking.{IsLinking, units_in};
ghost use Rattle.cx_linked.specs.Program.{AreChecked, AreUnbroken, StopsLinking};

use crate::parts::Linking;
use cr_base::{Items, Memory, Stop};
use cx_core::{CoreUnit, Parts, Program};
use cx_link::{all_types, broken_links};
use std::alloc::Global;

// The parts of the program of units that were looked through.
fn parts_with(alloc: Global, units: &[CoreUnit], linking: &Linking<'_>) -> Result<Parts, Memory>
    requires known { IsLinking linking.now }
    requires units { units_in linking.now ≡ map view_unit units.now }
    ensures { IfOk result (λ parts. view_program parts ≡ linked (map view_unit units.now)) }
{
    let types = all_types(alloc, units)?;
    let orders = linking.orders(alloc)?;
    let mut parts = Parts {
        types,
        objects: Items::new(alloc),
        functions: Items::new(alloc),
        externals: Items::new(alloc),
        orders,
    };
    linking.add_things(alloc, &mut parts)?;
    Ok(parts)
}

// The parts of the program of typed units. Refused for want of memory, and where a number needs more than 32 bits.
fn parts_of(alloc: Global, units: &[CoreUnit]) -> Result<Parts, Memory>
    ensures linked { IfOk result (λ parts. view_program parts ≡ linked (map view_unit units.now)) }
{
    let linking = Linking::of(alloc, units)?;
    parts_with(alloc, units, &linking)
}

/// The program of units that break no rule, neither each by itself nor together (ISO C99, 5.1.1.1, 6.2.2p2): their types and things, one
/// unit behind another, where all that has external linkage and one name is one thing. It is typed and linked.
///
/// # Errors
///
/// `Memory` for want of memory, and where a number needs more than 32 bits.
pub fn program_of(alloc: Global, units: &[CoreUnit]) -> Result<Program, Memory>
    requires unbroken { AreUnbroken (map view_unit units.now) }
    ensures linked { IfOk result (λ program. view_program program ≡ linked (map view_unit units.now)) }
{
    let parts = parts_of(alloc, units)?;
    Ok(Program::new(
        parts.types,
        parts.objects,
        parts.functions,
        parts.externals,
        parts.orders,
    ))
}

/// The program of units each of which breaks no rule by itself (ISO C99, 5.1.2.2.1, 6.2.2p2, 6.2.7p2, 6.9p5).
///
/// # Errors
///
/// `Refused` with the first rule that they break together; `Memory` for want of memory.
pub fn link(alloc: Global, units: &[CoreUnit]) -> Result<Program, Stop>
    requires checked { AreChecked (map view_unit units.now) }
    ensures unbroken { IfOk result (λ program. broken_links (map view_unit units.now) ≡ None) }
    ensures linked { IfOk result (λ program. view_program program ≡ linked (map view_unit units.now)) }
    ensures refused { IfErr result (λ why. StopsLinking (map view_unit units.now) why) }
{
    match broken_links(alloc, units)? {
        Some(refusal) => Err(Stop::Refused(refusal)),
        None => Ok(program_of(alloc, units)?),
    }
}
