//! The accesses of operands together (ISO C99, 6.5p2).

ghost use Rattle.std.specs.Prelude.{◌≡◌, [], ◌∷◌, map, IfOk};
ghost use Rattle.cx_access.specs.Finds.{Finds};
ghost use Rattle.cx_mean.specs.Operands.{united, united_operands};
ghost use Rattle.cx_node_steps.specs.Unites.{united_with};
ghost use Rattle.cx_work.specs.Views.{view_operand};

use cr_base::{Items, Memory, URule};
use cx_access::Trouble;
use cx_work::{Marks, Operand, Range, conflict};
use std::alloc::Global;

/// Adds the accesses of a second operand to those of the first.
///
/// # Errors
///
/// `Undefined(U1)` where two of them conflict.
#[tactic(auto, using(crate::proofs::Single::united_two))]
pub fn unite(first: &mut Marks, second: Marks) -> Result<(), Trouble>
    ensures { Finds (λ _. first.new) result (united (first.old ∷ second ∷ [])) }
{
    if conflict(first, &second) {
        return Err(Trouble::Undefined(URule::U1));
    }
    match first.join(second) {
        Ok(()) => Ok(()),
        Err(_) => Err(Trouble::Memory),
    }
}

fn copied(alloc: Global, ranges: &[Range]) -> Result<Items<Range>, Memory>
    ensures { IfOk result (λ made. made ≡ ranges.now) }
{
    Items::from_slice(alloc, ranges)
}

fn copy_of(alloc: Global, marks: &Marks) -> Result<Marks, Memory>
    ensures { IfOk result (λ made. made ≡ marks.now) }
{
    let reads = copied(alloc, marks.reads.as_slice())?;
    let writes = copied(alloc, marks.writes.as_slice())?;
    let still = copied(alloc, marks.still.as_slice())?;
    Ok(Marks {
        reads,
        writes,
        still,
    })
}

// The accesses of one operand with those of the others.
fn with_first(alloc: Global, first: &Marks, rest: Marks) -> Result<Marks, Trouble>
    ensures { Finds (λ all. all) result (united_with first.now rest) }
{
    if conflict(first, &rest) {
        return Err(Trouble::Undefined(URule::U1));
    }
    let mut all = match copy_of(alloc, first) {
        Ok(all) => all,
        Err(_) => return Err(Trouble::Memory),
    };
    match all.join(rest) {
        Ok(()) => Ok(all),
        Err(_) => Err(Trouble::Memory),
    }
}

/// The accesses of unsequenced operands together.
///
/// # Errors
///
/// `Undefined(U1)` where two of them conflict.
pub fn united(alloc: Global, operands: &[Operand<'_>]) -> Result<Marks, Trouble>
    ensures { Finds (λ all. all) result (united_operands (map view_operand operands.now)) }
{
    match operands.split_first() {
        Some((first, others)) => match united(alloc, others) {
            Ok(rest) => with_first(alloc, &first.marks, rest),
            Err(trouble) => Err(trouble),
        },
        None => Ok(Marks::new(alloc)),
    }
}
