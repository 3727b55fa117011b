//! The run of units.

ghost use Rattle.std.specs.Prelude.{◌≡◌, ℕ, List, ◌<◌, ◌≤◌, false, length, All, IfOk, IfErr, OnErr};
ghost use Rattle.c_job.specs.Ends.{MayEnd, is_wrong};
ghost use Rattle.c_job.specs.Meaning.{AreRun, IsProgramOf, MayWant, UnlessMemory, program_meaning};
ghost use Rattle.cx_core.specs.Views.{view_program};
ghost use Rattle.cx_units.specs.Sources.{AreOf, IsGot, StopsUnits};
ghost use Rattle.run_ends.specs.Runs.{HasFailed, IsRun, IsWanting};

use crate::end::end_of;
use cr_base::{Memory, Stop};
use cx_core::Program;
use cx_exec::run_c;
use cx_linked::program_of;
use cx_units::{Source, check_units};
use ext_calls::Host;
use mem_bytes::ListStore;
use run_ends::End;
use std::alloc::Global;

/// Runs a program over a store without limit, with the answers of a host, for `steps` steps at most, at most 1,000,000,000, under an
/// order of evaluation (ISO C99, 5.1.2.3).
///
/// # Errors
///
/// `Memory` for want of memory: the host was asked for what the run asks within some of the steps.
pub fn run_program<H: Host>(
    alloc: Global,
    program: &Program,
    order: &[u32],
    steps: u64,
    host: &mut H,
) -> Result<End, Memory>
    requires steps { steps ≤ 1000000000 }
    ensures run { IfOk result (IsRun (program_meaning (view_program program.now) order.now steps)
        (H.state host.old) (H.state host.new)) }
    ensures right { IfOk result (λ end. is_wrong end ≡ false) }
    ensures failed { IfOk result (HasFailed (H.state host.old) (H.state host.new)) }
    ensures wanting { OnErr result (IsWanting (program_meaning (view_program program.now) order.now) steps (H.state host.old) (H.state host.new)) }
{
    let mut store = ListStore::new(alloc);
    match run_c(alloc, program, order, steps, &mut store, host) {
        Ok(run) => Ok(end_of(run.outcome)),
        Err(Memory) => Err(Memory),
    }
}

/// The program of the units of which this was got, which break no rule (ISO C99, 5.1.1.1 to 6.9): it is typed and linked.
///
/// # Errors
///
/// `Refused` with the first rule of the profile that the units break; `Memory` for want of memory.
pub fn checked_program(alloc: Global, sources: &[Source]) -> Result<Program, Stop>
    requires some { 0 < length sources.now }
    ensures program { IfOk result (λ program. (units : List (List ℕ)) → AreOf sources.now units → IsProgramOf units (view_program program)) }
    ensures got { IfOk result (λ program. All IsGot sources.now) }
    ensures refused { IfErr result (StopsUnits sources.now) }
{
    let units = check_units(alloc, sources)?;
    Ok(program_of(alloc, units.as_slice())?)
}

/// Runs the units of which this was got: checks them, links their program, and runs it over a store without limit, with the answers of
/// a host, for `steps` steps at most, at most 1,000,000,000, under an order of evaluation (ISO C99, 5.1.1.1 to 6.9).
///
/// # Errors
///
/// `Refused` with the first rule of the profile that the units break; then no call was made. `Memory` for want of
/// memory: no run had begun and no call was made, or the host was asked for what the run asks within some of the steps.
pub fn run_units<H: Host>(
    alloc: Global,
    sources: &[Source],
    order: &[u32],
    steps: u64,
    host: &mut H,
) -> Result<End, Stop>
    requires some { 0 < length sources.now }
    requires steps { steps ≤ 1000000000 }
    ensures run { IfOk result (λ end. (units : List (List ℕ)) → AreOf sources.now units
        → AreRun units order.now steps (H.state host.old) (H.state host.new) end) }
    ensures right { IfOk result (MayEnd (length sources.now)) }
    ensures failed { IfOk result (HasFailed (H.state host.old) (H.state host.new)) }
    ensures refused { IfErr result (StopsUnits sources.now) }
    ensures uncalled { IfErr result (λ why. UnlessMemory why (H.state host.new ≡ H.state host.old)) }
    ensures wanting { IfErr result (λ why. MayWant sources.now order.now steps why (H.state host.old) (H.state host.new)) }
{
    let program = checked_program(alloc, sources)?;
    Ok(run_program(alloc, &program, order, steps, host)?)
}
