ghost use Rattle.std.specs.Prelude.{◌≡◌, ◌≤◌, [], None, IfOk, OnOk, OnErr};
ghost use Rattle.std.specs.Io.KnownBytes.{Keeps};
ghost use Rattle.cr_base.specs.Count.{Rose};
ghost use Rattle.shelf.specs.Source.{IsFirst, behind_first};
ghost use Rattle.shelf.specs.StdSource.{state_of, to_come, GivesFirst};

use crate::ahead::Ahead;
use crate::fault::Failed;
use crate::source::Source;
use std::io::Read;
use std::marker::Model;

/// A source over a reader, as standard input. It tells nothing of what is to come.
///
/// It reads up to 4,096 bytes at a time from the reader, and gives them one by one. Only where none of
/// them is left it reads again; so behind the end of what is typed at a terminal, a later call may find
/// more. A read that the system interrupts is tried again, a bounded number of times. A read that fails
/// is a failed call, which loses no byte. Contracts see the reader, the bytes that were read and not
/// given yet, and how many calls failed.
#[derive(Drop)]
pub struct StdSource<R> {
    reader: R,
    ahead: Ahead,
    faults: u64,
}

impl<R> Model for StdSource<R> {
    ghost use Rattle.shelf.specs.StdSource.{StdSourceView};

    ghost Value = { StdSourceView R };

    ghost view = { λ source. record {
      reader = source.reader;
      ahead = source.ahead;
      faults = source.faults;
    } };
}

impl<R: Read> StdSource<R> {
    /// A source over this reader.
    pub fn new(reader: R) -> StdSource<R>
        ensures view { result ≡ record { reader = reader; ahead = []; faults = 0 } }
        ensures state { ⟦<StdSource<R> as Source>⟧.state result
            ≡ record { rest = None; faults = 0 } }
    {
        StdSource {
            reader,
            ahead: Ahead::new(),
            faults: 0,
        }
    }
}

impl<R: Read> Source for StdSource<R> {
    ghost state = { state_of };

    fn read(&mut self) -> Result<Option<u8>, Failed>
        ensures first { IfOk result (λ next. IsFirst next (state_of self.old).rest) }
        ensures taken { OnOk result
            ((state_of self.new).rest ≡ behind_first (state_of self.old).rest) }
        ensures kept { OnErr result ((state_of self.new).rest ≡ (state_of self.old).rest) }
        ensures later { (state_of self.old).faults ≤ (state_of self.new).faults }
        ensures still { OnOk result ((state_of self.new).faults ≡ (state_of self.old).faults) }
        ensures cause { OnErr result (Rose (state_of self.old).faults (state_of self.new).faults) }

        // What is given and what is left, where the reader says what it has left.
        ensures gives { IfOk result (λ next. GivesFirst next
            (to_come R.remaining self.old) (to_come R.remaining self.new)) }
        ensures unread { OnErr result
            (Keeps (to_come R.remaining self.old) (to_come R.remaining self.new)) }
    {
        if let Some(byte) = self.ahead.take_first() {
            return Ok(Some(byte));
        }
        if self.ahead.refill(&mut self.reader).is_err() {
            self.faults = self.faults.saturating_add(1);
            return Err(Failed);
        }
        Ok(self.ahead.take_first())
    }
}
