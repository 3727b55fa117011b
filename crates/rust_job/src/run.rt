//! The run of a crate.

ghost use Rattle.std.specs.Prelude.{◌≡◌, ◌≤◌, ◌<◌, true, false, length, map, Some, IfOk, IfErr, OnErr};
ghost use Rattle.rs_mean.specs.Typing.{first_ill, well_typed};
ghost use Rattle.rs_text.specs.Reads.{ReadsAs};
ghost use Rattle.rs_text.specs.Valid.{valid_crate};
ghost use Rattle.rs_tree.specs.Views.{crate_view, module_view};
ghost use Rattle.run_ends.specs.Runs.{HasFailed, IsRun, IsWanting};
ghost use Rattle.run_ends.specs.Told.{name_at};
ghost use Rattle.rs_types.specs.Checked.{place};
ghost use Rattle.rust_job.specs.Ends.{MayEnd, is_undefined};
ghost use Rattle.rust_job.specs.Meaning.{AreRun, IsIllTypedBy, MayWant, StopsFiles, UnlessMemory, meaning_of};

use crate::end::end_of;
use crate::fault::CrateFault;
use cr_base::{Memory, Name};
use ext_calls::Host;
use mem_bytes::ListStore;
use rs_exec::run_rust;
use rs_parse::{ReadFault, read_crate};
use rs_tree::{Crate, Files, Module};
use rs_types::{TypeFault, check_crate};
use run_ends::End;
use std::alloc::Global;

/// Runs a crate that is valid and well typed over a store without limit, with the answers of a host, within a budget of `units` units, at
/// most 1,000,000,000.
///
/// # Errors
///
/// `Memory` for want of memory: the host was asked for what the run asks within some of the units.
pub fn run_whole<H: Host>(
    alloc: Global,
    whole: &Crate,
    units: u64,
    host: &mut H,
) -> Result<End, Memory>
    requires valid { valid_crate (crate_view whole.now) ≡ true }
    requires typed { well_typed (crate_view whole.now) ≡ true }
    requires units { units ≤ 1000000000 }
    ensures run { IfOk result (IsRun (meaning_of (crate_view whole.now) units) (H.state host.old) (H.state host.new)) }
    ensures right { IfOk result (λ end. is_undefined end ≡ false) }
    ensures failed { IfOk result (HasFailed (H.state host.old) (H.state host.new)) }
    ensures wanting { OnErr result (IsWanting (meaning_of (crate_view whole.now)) units (H.state host.old) (H.state host.new)) }
{
    let mut store = ListStore::new(alloc);
    match run_rust(alloc, whole, units, &mut store, host) {
        Ok(run) => Ok(end_of(run.outcome)),
        Err(Memory) => Err(Memory),
    }
}

// The name of the module with a number. Refused only for want of memory.
fn name_of(modules: &[Module], number: u32) -> Result<Name, Memory>
    requires { number < length modules.now }
    ensures { IfOk result (λ name. name ≡ name_at (map (λ unit. unit.name) (map module_view modules.now)) number) }
{
    modules[number as usize].name.copy()
}

// Why a crate isn't well typed, with the name of the module.
fn ill_typed(whole: &Crate, unit: u32, item: u32) -> CrateFault
    requires { first_ill (crate_view whole.now) ≡ Some (place unit item) }
    ensures { IsIllTypedBy (crate_view whole.now) result }
{
    match name_of(whole.modules.as_slice(), unit) {
        Ok(module) => CrateFault::IllTyped { module, item },
        Err(Memory) => CrateFault::Memory,
    }
}

// Whether a valid crate is well typed.
fn checked(whole: &Crate) -> Result<(), CrateFault>
    requires { valid_crate (crate_view whole.now) ≡ true }
    ensures typed { IfOk result (λ _. well_typed (crate_view whole.now) ≡ true) }
    ensures ill { IfErr result (IsIllTypedBy (crate_view whole.now)) }
{
    match check_crate(whole) {
        Ok(()) => Ok(()),
        Err(TypeFault::IllTyped { module, item }) => Err(ill_typed(whole, module, item)),
        Err(TypeFault::Memory) => Err(CrateFault::Memory),
    }
}

// The crate that files read as.
fn read(alloc: Global, files: &Files) -> Result<Crate, CrateFault>
    ensures read { IfOk result (λ whole. ReadsAs files.now.list (crate_view whole)) }
    ensures stops { IfErr result (StopsFiles files.now.list) }
{
    match read_crate(alloc, files) {
        Ok(whole) => Ok(whole),
        Err(ReadFault::NotRust { file, line }) => Err(CrateFault::NotRust { file, line }),
        Err(ReadFault::Memory) => Err(CrateFault::Memory),
    }
}

/// Runs the crate that files read as, in whatever order these are, over a store without limit, with the answers of a host, within a budget of
/// `units` units, at most 1,000,000,000.
///
/// # Errors
///
/// `NotRust` where no crate is read from the files, and `IllTyped` where it isn't well typed; then no call was made. `Memory` for want of
/// memory: no run had begun and no call was made, or the host was asked for what the run asks within some of the units.
pub fn run_files<H: Host>(
    alloc: Global,
    files: &Files,
    units: u64,
    host: &mut H,
) -> Result<End, CrateFault>
    requires units { units ≤ 1000000000 }
    ensures run { IfOk result (AreRun files.now.list units (H.state host.old) (H.state host.new)) }
    ensures right { IfOk result MayEnd }
    ensures failed { IfOk result (HasFailed (H.state host.old) (H.state host.new)) }
    ensures stops { IfErr result (StopsFiles files.now.list) }
    ensures uncalled { IfErr result (λ why. UnlessMemory why (H.state host.new ≡ H.state host.old)) }
    ensures wanting { IfErr result (λ why. MayWant files.now.list units why (H.state host.old) (H.state host.new)) }
{
    let whole = read(alloc, files)?;
    checked(&whole)?;
    Ok(run_whole(alloc, &whole, units, host)?)
}
