ghost use Rattle.std.specs.Prelude.{◌≡◌, IfOk};
ghost use Rattle.rs_exec.specs.Ends.{IsOutcome, steps_told};
ghost use Rattle.rs_machine.specs.Does.{stopped_by};

use cr_base::{Items, Memory, Name};
use rs_machine::Halt;
use rs_mean::Cause;
use std::alloc::Global;

/// How a run of a crate came out.
#[derive(Drop)]
pub enum ROutcome {
    /// The program ended with this status.
    Ended(i32),
    /// Its next step has no meaning in Rust.
    Wrong(Cause),
    /// A unit of the budget was asked for after all were taken.
    StepsUsed,
    /// An object goes past the store's limit: the bytes that it needs, and those that are left.
    StoreFull { need: u64, left: u64 },
    /// The host doesn't take a call of the function with this symbol.
    HostRefused(Name),
    /// The outside failed at a call.
    HostFault,
}

/// A run of a crate.
#[derive(Drop)]
pub struct RRun {
    pub outcome: ROutcome,
    /// The answers that the run took, in order: of each call of a function whose effect isn't known what
    /// the host answered, and of each allocation 0 where the store refused the block and 1 otherwise.
    pub trail: Items<i64>,
    /// How many units of the budget it took; where the host stopped it at a call, before that call.
    pub steps: u64,
}

fn refused(alloc: Global, name: &[u8]) -> Result<ROutcome, Memory>
    ensures { IfOk result (λ outcome. outcome ≡ ROutcome.HostRefused name.now) }
{
    let name = Vec::from_slice(alloc, name)?;
    Ok(ROutcome::HostRefused(Name::of(name)))
}

/// The units that are told of so many that were taken.
pub(crate) fn steps_told(outcome: &ROutcome, taken: u64) -> u64
    ensures { result ≡ steps_told outcome.now taken }
{
    match outcome {
        ROutcome::Ended(_)
        | ROutcome::Wrong(_)
        | ROutcome::StepsUsed
        | ROutcome::StoreFull { .. } => taken,
        ROutcome::HostRefused(_) | ROutcome::HostFault => taken.saturating_sub(1),
    }
}

/// Why a run went no further, as its outcome; want of memory has none.
pub(crate) fn outcome_of(alloc: Global, halt: Halt<'_>) -> Result<ROutcome, Memory>
    ensures { IfOk result (λ outcome. IsOutcome (stopped_by halt.entry) outcome) }
{
    match halt {
        Halt::Ended(status) => Ok(ROutcome::Ended(status)),
        Halt::Wrong(why) => Ok(ROutcome::Wrong(why)),
        Halt::Units => Ok(ROutcome::StepsUsed),
        Halt::Full { need, left } => Ok(ROutcome::StoreFull { need, left }),
        Halt::Refused(name) => refused(alloc, name),
        Halt::Failed => Ok(ROutcome::HostFault),
        Halt::Memory => Err(Memory),
    }
}
