ghost use Rattle.std.specs.Prelude.{◌≡◌};
ghost use Rattle.ext_calls.specs.declared.fault.HostFault.TheVariants.{Memory as WantOfMemory};

use cr_base::Memory;
use thiserror::Error;

/// Why a host gives no answer to a call.
#[derive(Clone, Copy, Debug, PartialEq, Eq, Error)]
pub enum HostFault {
    /// The outside failed, as a stream that can't be written. The host counts each failure.
    #[error("the outside failed")]
    Failed,
    /// The host doesn't take this call: it doesn't know the name, or the arguments don't fit.
    #[error("the call is refused")]
    Refused,
    /// Want of memory. No contract says when it comes.
    #[error("out of memory")]
    Memory,
}

impl From<Memory> for HostFault {
    ghost from_gives = { λ _ fault. fault ≡ WantOfMemory };

    fn from(_memory: Memory) -> HostFault {
        HostFault::Memory
    }
}
