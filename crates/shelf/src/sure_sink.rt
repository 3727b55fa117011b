ghost use Rattle.std.specs.Prelude.{◌≡◌, ◌<◌, ◌≤◌, [], Some, length, take, option_copied, IfOk, OnOk, OnErr, IsOk};
ghost use Rattle.cr_base.specs.Count.{Rose};
ghost use Rattle.shelf.specs.Sink.{Appended};
ghost use Rattle.shelf.specs.SureSink.{state_of};

use crate::fault::Failed;
use crate::sink::Sink;
use crate::written::Written;
use std::alloc::Global;
use std::marker::Model;

/// A sink over memory that never fails.
///
/// It keeps a copy of the bytes, and tells them; where it finds no memory for the copy it takes the
/// bytes without keeping them, and from then on tells none. Contracts see it as the copy, or as
/// None.
#[derive(Debug, Drop)]
pub struct SureSink {
    written: Written,
}

impl Model for SureSink {
    ghost use Rattle.std.specs.Prelude.{ℕ, List, Option};

    ghost Value = { Option (List ℕ) };

    ghost view = { λ sink. sink.written };
}

impl SureSink {
    /// A sink that has taken nothing yet.
    pub fn new(alloc: Global) -> SureSink
        ensures view { result ≡ Some [] }
        ensures state { ⟦<SureSink as Sink>⟧.state result
            ≡ record { written = Some []; faults = 0 } }
    {
        SureSink {
            written: Written::new(alloc),
        }
    }

    /// The bytes taken, to read; None where there was no memory for a copy.
    pub fn written(&self) -> Option<&[u8]>
        ensures { option_copied result ≡ (⟦<SureSink as Sink>⟧.state self.now).written }
    {
        self.written.bytes()
    }
}

impl Sink for SureSink {
    ghost state = { state_of };

    fn write(&mut self, piece: &[u8]) -> Result<usize, Failed>
        ensures taken { IfOk result (λ count. Appended (take count piece.now)
            (state_of self.old).written (state_of self.new).written) }
        ensures within { IfOk result (λ count. count ≤ length piece.now) }
        ensures moves { IfOk result (λ count. 0 < length piece.now → 0 < count) }
        ensures kept { OnErr result ((state_of self.new).written ≡ (state_of self.old).written) }
        ensures later { (state_of self.old).faults ≤ (state_of self.new).faults }
        ensures still { OnOk result ((state_of self.new).faults ≡ (state_of self.old).faults) }
        ensures cause { OnErr result (Rose (state_of self.old).faults (state_of self.new).faults) }
        ensures sure { IsOk result }
    {
        self.written.append(piece);
        Ok(piece.len())
    }
}
