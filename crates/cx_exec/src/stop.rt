ghost use Rattle.std.specs.Prelude.{◌≡◌, IfOk};
ghost use Rattle.cx_exec.specs.Steps.{IsOutcome};

use crate::outcome::COutcome;
use cr_base::{Memory, Name};
use cx_machine::Stop;
use cx_outside::Lack;
use std::alloc::Global;

fn refused(alloc: Global, name: &[u8]) -> Result<COutcome, Memory>
    ensures { IfOk result (λ outcome. outcome ≡ COutcome.HostRefused name.now) }
{
    let name = Vec::from_slice(alloc, name)?;
    Ok(COutcome::HostRefused(Name::of(name)))
}

fn lacking(alloc: Global, lack: Lack<'_>) -> Result<COutcome, Memory>
    ensures { IfOk result (λ outcome. IsOutcome (Stop.Lacks lack.entry) outcome) }
{
    match lack {
        Lack::Full { need, left } => Ok(COutcome::StoreFull { need, left }),
        Lack::Refused(name) => refused(alloc, name),
        Lack::Failed => Ok(COutcome::HostFault),
        Lack::Memory => Err(Memory),
    }
}

/// Why a run went no further, as its outcome; want of memory has none.
pub(crate) fn outcome_of(alloc: Global, stop: Stop<'_>) -> Result<COutcome, Memory>
    ensures { IfOk result (λ outcome. IsOutcome stop.entry outcome) }
{
    match stop {
        Stop::Ended(status) => Ok(COutcome::Ended(status)),
        Stop::Undefined(rule, place) => Ok(COutcome::Undefined {
            rule,
            unit: place.unit,
            line: place.line,
        }),
        Stop::Lacks(lack) => lacking(alloc, lack),
    }
}
