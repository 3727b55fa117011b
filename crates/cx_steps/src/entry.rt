//! The call of `main` (ISO C99, 5.1.2.2.1).

ghost use Rattle.std.specs.Prelude.{◌≡◌, [], IfOk, map, option_map};
ghost use Rattle.std.specs.Option.{option_copied};
ghost use Rattle.cx_access.specs.Views.{view_setting};
ghost use Rattle.cx_core.specs.Linked.{main_of};
ghost use Rattle.cx_core.specs.Views.{view_function};
ghost use Rattle.cx_machine.specs.Machines.{IsAt};
ghost use Rattle.cx_mean.specs.State.{main_called, taking};
ghost use Rattle.cx_steps.specs.Mains.{main_among};

use cr_base::{Items, Memory};
use cx_access::Setting;
use cx_core::Fun;
use cx_machine::{Machine, is_main, site_of, takes_params};
use std::alloc::Global;

// The first function that is `main`.
fn main_among(functions: &[Fun]) -> Option<&Fun>
    ensures { option_map view_function (option_copied result) ≡ main_among (map view_function functions.now) }
{
    for one in functions {
        if is_main(one) {
            return Some(one);
        }
    }
    None
}

// A function is called with no arguments, and nothing waits for it.
fn begins_with<'a>(alloc: Global, machine: &mut Machine<'a>, fun: &'a Fun)
    ensures { IsAt machine.old machine.new (taking (view_function fun.now) fun.now.params [] []) }
{
    machine.site = site_of(alloc, fun);
    machine.args = Items::new(alloc);
    takes_params(machine, fun, fun.params.as_slice());
}

/// `main` is called; a linked program has one.
///
/// # Errors
///
/// `Memory` for want of memory.
pub(crate) fn calls_main<'a>(
    alloc: Global,
    machine: &mut Machine<'a>,
    setting: &Setting<'a>,
) -> Result<(), Memory>
    ensures { IfOk result (λ _. IsAt machine.old machine.new (main_called (main_of (view_setting setting.now).program))) }
{
    match main_among(setting.program.functions.as_slice()) {
        Some(fun) => {
            begins_with(alloc, machine, fun);
            Ok(())
        }
        None => Err(Memory),
    }
}
