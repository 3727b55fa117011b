ghost use Rattle.std.specs.Prelude.{◌≡◌, ◌≤◌, false, IfOk, OnOk, OnErr};
ghost use Rattle.cr_base.specs.Count.{Rose};
ghost use Rattle.ext_calls.specs.Host.{AddsCall, IsGiven, UsesAnswer, KeepsAnswers, IsDeclined};

use crate::call::Call;
use crate::fault::HostFault;

/// The outside: what answers the calls of a run. It reads the call, and neither reads nor writes
/// anything else of the program.
pub trait Host {
    ghost use Rattle.ext_calls.specs.Host.{HostState};

    // What is known of the host: the calls made and the answers to come, where it tells them, which
    // calls it takes, and how many have failed.
    ghost state: { Self → HostState };

    /// Answers a call. The answer is any `i64`; a run converts it to the result type of the called
    /// function.
    ///
    /// # Errors
    ///
    /// `Failed` where the outside failed, which the host counts; `Refused` for a call that the host
    /// doesn't take, and then nothing changed; `Memory` for want of memory. After an error the calls
    /// made and the answers to come are as they were.
    fn answer(&mut self, call: &Call) -> Result<i64, HostFault>
        ensures made { IfOk result (λ answer.
            AddsCall call.now answer (state self.old) (state self.new)) }
        ensures given { IfOk result (λ answer. IsGiven answer (state self.old)) }
        ensures used { OnOk result (UsesAnswer (state self.old) (state self.new)) }
        ensures kept { OnErr result (KeepsAnswers (state self.old) (state self.new)) }

        ensures takes { (state self.new).takes ≡ (state self.old).takes }
        ensures later { (state self.old).faults ≤ (state self.new).faults }
        ensures still { OnOk result ((state self.new).faults ≡ (state self.old).faults) }

        // The causes of the errors; want of memory has none.
        ensures failed { result ≡ Err HostFault.Failed
            → Rose (state self.old).faults (state self.new).faults }
        ensures refused { result ≡ Err HostFault.Refused
            → (state self.old).takes call.now ≡ false }

        // A call that the host doesn't take.
        ensures declined { (state self.old).takes call.now ≡ false → IsDeclined result }
        ensures untouched { (state self.old).takes call.now ≡ false
            → state self.new ≡ state self.old };
}
