//! The outside of a run, as a row gives it.

ghost use Rattle.std.specs.Prelude.{◌≡◌};

use crate::answer::Answer;
use crate::asked::Asked;
use cr_base::Name;
use ext_calls::{Arg, Call, Host, HostFault, Made, ScriptHost};
use std::alloc::Global;

/// A host whose answers and failures are given beforehand, and that doesn't take the functions with one name.
#[derive(Drop)]
pub(crate) struct RowHost {
    script: ScriptHost,
    without: Name,
}

impl Host for RowHost {
    ghost use Rattle.std.specs.Prelude.{Some, not};
    ghost use Rattle.std.specs.Str.{bytes_eq};

    ghost state = { λ host. record {
      made = Some host.script.told.made;
      left = Some host.script.told.left;
      takes = λ call. not (bytes_eq call.name host.without);
      faults = host.script.faults;
    } };

    fn answer(&mut self, call: &Call) -> Result<i64, HostFault> {
        if call.name.bytes() == self.without.bytes() {
            return Err(HostFault::Refused);
        }
        self.script.answer(call)
    }
}

impl RowHost {
    /// The host that a row asks for: no function has the empty name.
    pub(crate) fn asked(alloc: Global, asked: &mut Asked) -> RowHost {
        let (without, script) = without(asked.rest());
        asked.begin(without);
        let without = Name::of(asked.bytes(alloc));
        let (answers, fails) = script.split_once("/").unwrap_or((script, ""));
        asked.begin(answers);
        let answers = asked.numbers(alloc);
        asked.begin(fails);
        RowHost {
            script: ScriptHost::new(answers, asked.numbers(alloc)),
            without,
        }
    }

    /// Writes the calls that were made.
    pub(crate) fn write_made(&self, out: &mut Answer) {
        for made in self.script.made() {
            write_made(made, out);
        }
    }
}

// The name of the functions that a host doesn't take, and its script.
fn without(text: &str) -> (&str, &str) {
    match text.strip_prefix("without ") {
        Some(rest) => rest.split_once(' ').unwrap_or((rest, "")),
        None => ("", text),
    }
}

fn write_made(made: &Made, out: &mut Answer) {
    out.text(" | ");
    out.bytes(made.call.name.bytes());
    for arg in made.call.args.as_slice() {
        out.text(" ");
        write_arg(arg, out);
    }
    out.text(" = ");
    out.value(made.answer);
}

fn write_arg(arg: &Arg, out: &mut Answer) {
    match arg {
        Arg::Whole { value, .. } => out.value(*value),
        Arg::Text(text) => {
            out.text("\"");
            out.bytes(text.bytes());
            out.text("\"");
        }
    }
}
