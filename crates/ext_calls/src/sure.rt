ghost use Rattle.std.specs.Prelude.{◌≡◌, ◌≢◌, [], IfOk, OnErr};
ghost use Rattle.ext_calls.specs.Host.{told_state};
ghost use Rattle.ext_calls.specs.Script.{AnswersCall};

use crate::answers::Answers;
use crate::call::{Call, Made};
use crate::fault::HostFault;
use crate::host::Host;
use cr_base::Items;
use std::alloc::Global;
use std::marker::Model;

/// A host that never fails. It takes every call and gives the answers of a list in order, and 0 past
/// their end. Contracts see the calls made and the answers to come.
#[derive(Debug, Drop)]
pub struct SureHost {
    alloc: Global,
    answers: Answers,
    calls: Items<Made>,
}

impl Model for SureHost {
    ghost use Rattle.ext_calls.specs.Script.{Told};

    ghost Value = { Told };

    ghost view = { λ host. record { made = host.calls; left = host.answers } };
}

impl SureHost {
    /// A host with these answers to come. It keeps the calls made with the allocator of the answers.
    pub fn new(answers: Vec<i64>) -> SureHost
        ensures holds { result ≡ record { made = []; left = answers.items } }
        ensures state { ⟦<SureHost as Host>⟧.state result ≡ told_state [] answers.items 0 }
    {
        let alloc = *answers.allocator();
        SureHost {
            alloc,
            answers: Answers::of(answers),
            calls: Items::new(alloc),
        }
    }

    /// The calls made, each with its answer, in order.
    pub fn made(&self) -> &[Made]
        ensures { result.now ≡ self.now.made }
    {
        self.calls.as_slice()
    }

    /// The answers to come, in order.
    pub fn left(&self) -> &[i64]
        ensures { result.now ≡ self.now.left }
    {
        self.answers.as_slice()
    }
}

impl Host for SureHost {
    ghost use Rattle.ext_calls.specs.Host.{told_state};

    ghost state = { λ host. told_state host.made host.left 0 };

    fn answer(&mut self, call: &Call) -> Result<i64, HostFault> {
        let answer = self.answers.first();
        let call = call.copy(self.alloc)?;
        self.calls.push(Made { call, answer })?;
        self.answers.skip_first();
        Ok(answer)
    }
}

/// The answer of a host that never fails: only memory may be wanting, and then nothing changed.
pub fn answer_surely(host: &mut SureHost, call: &Call) -> Result<i64, HostFault>
    ensures never_failed { result ≢ Err HostFault.Failed }
    ensures never_refused { result ≢ Err HostFault.Refused }
    ensures ok { IfOk result (λ answer. AnswersCall call.now answer host.old host.new) }
    ensures err { OnErr result (host.new ≡ host.old) }
{
    host.answer(call)
}
