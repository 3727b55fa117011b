ghost use Rattle.std.specs.Prelude.{◌≡◌, ◌≤◌, Some};
ghost use Rattle.cr_base.specs.Count.{Rose};
ghost use Rattle.shelf.specs.Shelf.{OnFailed, UnlessFailed};

use crate::called::Called;
use crate::fault::ShelfFault;

// How many calls of a shelf have failed, and the last of these.
#[derive(Debug, Drop)]
pub(crate) struct FaultLog {
    pub count: u64,
    pub last: Option<Called>,
}

impl FaultLog {
    // No call has failed yet.
    pub fn new() -> FaultLog
        ensures { result ≡ record { count = 0; last = None } }
    {
        FaultLog {
            count: 0,
            last: None,
        }
    }

    // Hands on the outcome of a call, and keeps the call if it failed.
    pub fn settle<T>(
        &mut self,
        called: Called,
        outcome: Result<T, ShelfFault>,
    ) -> Result<T, ShelfFault>
        ensures same { result ≡ outcome }
        ensures later { self.old.count ≤ self.new.count }
        ensures still { UnlessFailed result (self.new.count ≡ self.old.count) }
        ensures rose { OnFailed result (Rose self.old.count self.new.count) }
        ensures named { OnFailed result (self.new.last ≡ Some called) }
        ensures kept { UnlessFailed result (self.new.last ≡ self.old.last) }
    {
        if let Err(ShelfFault::Failed) = &outcome {
            self.count = self.count.saturating_add(1);
            self.last = Some(called);
        }
        outcome
    }
}
