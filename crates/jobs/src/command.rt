//! The command line as `clap` reads it.

ghost use Rattle.std.specs.Prelude.{◌≡◌, false, IfOk};
ghost use Rattle.clap.specs.Simple.{app_of, shape_of};
ghost use Rattle.clap.specs.Walk.{rule_of};
ghost use Rattle.clap.specs.declared.builder.command.Command.TheViews.{out-Command};
ghost use Rattle.jobs.specs.Command.{command, output_rule, files_rule, directory_rule, steps_rule, order_rule, transpile_shape, run_c_shape, run_rust_shape};

use clap::{Arg, ArgAction, Command};
use cr_base::Memory;
use std::alloc::Global;

/// `-o DIR`: where the crate is put.
pub(crate) const OUTPUT: &str = "output";

/// `FILE..`: the units.
pub(crate) const FILES: &str = "files";

/// `DIR`: where the crate is.
pub(crate) const DIRECTORY: &str = "directory";

/// `--steps N`: the most steps or units of a run.
pub(crate) const STEPS: &str = "steps";

/// `--order LIST`: an order of evaluation.
pub(crate) const ORDER: &str = "order";

fn output<'a>(alloc: Global) -> Arg<'a>
    ensures rule { rule_of result ≡ output_rule }
    ensures local { result.global ≡ false }
{
    Arg::new(alloc, OUTPUT).short('o').required(true)
}

fn files<'a>(alloc: Global) -> Arg<'a>
    ensures rule { rule_of result ≡ files_rule }
    ensures local { result.global ≡ false }
{
    Arg::new(alloc, FILES)
        .required(true)
        .action(ArgAction::Append)
}

fn directory<'a>(alloc: Global) -> Arg<'a>
    ensures rule { rule_of result ≡ directory_rule }
    ensures local { result.global ≡ false }
{
    Arg::new(alloc, DIRECTORY).required(true)
}

fn steps<'a>(alloc: Global) -> Arg<'a>
    ensures rule { rule_of result ≡ steps_rule }
    ensures local { result.global ≡ false }
{
    Arg::new(alloc, STEPS).long(STEPS)
}

fn order<'a>(alloc: Global) -> Arg<'a>
    ensures rule { rule_of result ≡ order_rule }
    ensures local { result.global ≡ false }
{
    Arg::new(alloc, ORDER).long(ORDER)
}

fn transpile<'a>(alloc: Global) -> Result<Command<'a>, Memory>
    ensures shape { IfOk result (λ made. shape_of made ≡ transpile_shape) }
    ensures local { IfOk result (λ made. (out-Command made).has_globals ≡ false) }
{
    let made = Command::new(alloc, "transpile")
        .arg(output(alloc))?
        .arg(files(alloc))?;
    Ok(made)
}

fn run_c<'a>(alloc: Global) -> Result<Command<'a>, Memory>
    ensures shape { IfOk result (λ made. shape_of made ≡ run_c_shape) }
    ensures local { IfOk result (λ made. (out-Command made).has_globals ≡ false) }
{
    let made = Command::new(alloc, "run-c")
        .arg(steps(alloc))?
        .arg(order(alloc))?
        .arg(files(alloc))?;
    Ok(made)
}

fn run_rust<'a>(alloc: Global) -> Result<Command<'a>, Memory>
    ensures shape { IfOk result (λ made. shape_of made ≡ run_rust_shape) }
    ensures local { IfOk result (λ made. (out-Command made).has_globals ≡ false) }
{
    let made = Command::new(alloc, "run-rust")
        .arg(steps(alloc))?
        .arg(directory(alloc))?;
    Ok(made)
}

/// The command of all jobs. Refused only for want of memory.
pub(crate) fn command<'a>(alloc: Global) -> Result<Command<'a>, Memory>
    ensures { IfOk result (λ made. app_of made ≡ command) }
{
    let made = Command::new(alloc, "c2rs")
        .no_binary_name(true)
        .subcommand(transpile(alloc)?)?
        .subcommand(run_c(alloc)?)?
        .subcommand(run_rust(alloc)?)?;
    Ok(made)
}
