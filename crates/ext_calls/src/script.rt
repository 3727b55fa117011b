ghost use Rattle.std.specs.Prelude.{◌≡◌, ◌≢◌, ◌≤◌, ◌↔◌, [], Contains, IfOk, IsErrOf};
ghost use Rattle.ext_calls.specs.Host.{told_state};
ghost use Rattle.ext_calls.specs.Script.{AnswersNext, FailsNext};

use crate::call::{Call, Made};
use crate::fault::HostFault;
use crate::host::Host;
use crate::sure::SureHost;
use std::marker::Model;

/// A host that gives the answers of a list in order, as `SureHost` does, but fails at some of its
/// calls. It takes every call. The calls that are answered or fail are numbered from 0 (a number
/// stands still at the last value of a `u64`); a call that finds no memory has no number. Contracts
/// see the calls made, the answers to come, the numbers of the calls that fail, the number of the
/// next call and the count of failures.
#[derive(Debug, Drop)]
pub struct ScriptHost {
    sure: SureHost,
    fails: Vec<u64>,
    number: u64,
    faults: u64,
}

impl Model for ScriptHost {
    ghost use Rattle.ext_calls.specs.Script.{Script};

    ghost Value = { Script };

    ghost view = { λ host. record {
      told = host.sure;
      fails = host.fails.items;
      number = host.number;
      faults = host.faults;
    } };
}

impl ScriptHost {
    /// A host with these answers to come, that fails at the calls with these numbers, in any order.
    /// It keeps the calls made with the allocator of the answers.
    pub fn new(answers: Vec<i64>, fails: Vec<u64>) -> ScriptHost
        ensures holds { result ≡ record {
          told = record { made = []; left = answers.items };
          fails = fails.items;
          number = 0;
          faults = 0;
        } }
        ensures state { ⟦<ScriptHost as Host>⟧.state result ≡ told_state [] answers.items 0 }
    {
        ScriptHost {
            sure: SureHost::new(answers),
            fails,
            number: 0,
            faults: 0,
        }
    }

    /// The calls made, each with its answer, in order.
    pub fn made(&self) -> &[Made]
        ensures { result.now ≡ self.now.told.made }
    {
        self.sure.made()
    }

    /// The answers to come, in order.
    pub fn left(&self) -> &[i64]
        ensures { result.now ≡ self.now.told.left }
    {
        self.sure.left()
    }

    /// How many calls have failed; it stands still at the last value of a `u64`.
    pub fn faults(&self) -> u64
        ensures { result ≡ self.now.faults }
    {
        self.faults
    }
}

impl Host for ScriptHost {
    ghost use Rattle.ext_calls.specs.Host.{told_state};

    ghost state = { λ host. told_state host.told.made host.told.left host.faults };

    fn answer(&mut self, call: &Call) -> Result<i64, HostFault>
        ensures ok { IfOk result (λ answer. AnswersNext call.now answer self.old self.new) }
        ensures listed { IsErrOf result HostFault.Failed ↔ Contains self.old.fails self.old.number }
        ensures failed { IsErrOf result HostFault.Failed → FailsNext self.old self.new }
        ensures later { self.old.faults ≤ self.new.faults }
        ensures never_refused { result ≢ Err HostFault.Refused }
        ensures memory { IsErrOf result HostFault.Memory → self.new ≡ self.old }
    {
        if self.fails.contains(&self.number) {
            self.number = self.number.saturating_add(1);
            self.faults = self.faults.saturating_add(1);
            return Err(HostFault::Failed);
        }
        let answer = self.sure.answer(call)?;
        self.number = self.number.saturating_add(1);
        Ok(answer)
    }
}
