//! The host of a job, as a row gives it.

ghost use Rattle.std.specs.Prelude.{◌≡◌};

use cr_base::Name;
use ext_calls::{Call, Host, HostFault, ScriptHost};
use row_words::{Answer, Asked, write_made};
use std::alloc::Global;

// The most calls that are written one by one.
const MOST_WRITTEN: usize = 10;

/// A host whose answers and failures are given beforehand, and that doesn't take the functions with one name.
#[derive(Drop)]
pub(crate) struct RowHost {
    script: ScriptHost,
    without: Name,
}

impl Host for RowHost {
    ghost use Rattle.std.specs.Prelude.{Some, not};
    ghost use Rattle.std.specs.Str.{bytes_eq};

    ghost state = { λ host. record {
      made = Some host.script.told.made;
      left = Some host.script.told.left;
      takes = λ call. not (bytes_eq call.name host.without);
      faults = host.script.faults;
    } };

    fn answer(&mut self, call: &Call) -> Result<i64, HostFault> {
        if call.name.bytes() == self.without.bytes() {
            return Err(HostFault::Refused);
        }
        self.script.answer(call)
    }
}

impl RowHost {
    /// A host that answers 0 to each call.
    pub(crate) fn zeros(alloc: Global) -> RowHost {
        RowHost {
            script: ScriptHost::new(Vec::new(alloc), Vec::new(alloc)),
            without: Name::of(Vec::new(alloc)),
        }
    }

    /// The host that is asked: `ANSWERS` or `ANSWERS / FAILS` as in `host`, behind `without NAME` where it doesn't take the functions
    /// with this name; no function has the empty name.
    pub(crate) fn asked(alloc: Global, asked: &mut Asked) -> RowHost {
        let (without, script) = without(asked.rest());
        asked.begin(without);
        let without = Name::of(asked.bytes(alloc));
        let (answers, fails) = script.split_once("/").unwrap_or((script, ""));
        asked.begin(answers);
        let answers = asked.numbers(alloc);
        asked.begin(fails);
        RowHost {
            script: ScriptHost::new(answers, asked.numbers(alloc)),
            without,
        }
    }

    /// How many calls were made.
    pub(crate) fn count(&self) -> usize {
        self.script.made().len()
    }

    /// Writes the calls that were made behind so many, or how many they are where they are more than ten.
    pub(crate) fn write_made(&self, before: usize, out: &mut Answer) {
        let count = self.count().saturating_sub(before);
        if MOST_WRITTEN < count {
            out.separate();
            out.value(count);
            out.text(" calls");
            return;
        }
        for made in self.script.made().iter().skip(before) {
            write_made(made, out);
        }
    }
}

// The name of the functions that a host doesn't take, and its script.
fn without(text: &str) -> (&str, &str) {
    match text.strip_prefix("without ") {
        Some(rest) => rest.split_once(' ').unwrap_or((rest, "")),
        None => ("", text),
    }
}
