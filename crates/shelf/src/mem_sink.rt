ghost use Rattle.std.specs.Prelude.{◌≡◌, ◌⊎◌, ◌+◌, ◌-◌, ◌^◌, ◌<◌, ◌≤◌, min, [], Some, length, take, option_copied, IfOk, OnOk, OnErr, Contains};
ghost use Rattle.cr_base.specs.Count.{Rose};
ghost use Rattle.shelf.specs.MemSink.{state_of};
ghost use Rattle.shelf.specs.Sink.{Appended};

use crate::fault::Failed;
use crate::sink::Sink;
use crate::written::Written;
use std::marker::Model;

/// A sink over memory, of which chosen calls fail and which takes a limited number of bytes a call.
///
/// It keeps a copy of the bytes, and tells them; where it finds no memory for the copy it takes the
/// bytes without keeping them, and from then on tells none. Contracts see the copy, the numbers of
/// the calls that fail, how many bytes a call takes at most, and how many calls were made and
/// failed.
#[derive(Debug, Drop)]
pub struct MemSink {
    written: Written,
    fails: Vec<u64>,
    most: usize,
    calls: u64,
    faults: u64,
}

impl Model for MemSink {
    ghost use Rattle.shelf.specs.MemSink.{MemSinkView};

    ghost Value = { MemSinkView };

    ghost view = { λ sink. record {
      written = sink.written;
      fails = sink.fails.items;
      most = sink.most;
      calls = sink.calls;
      faults = sink.faults;
    } };
}

impl MemSink {
    /// A sink that has taken nothing yet, of which the calls with these numbers fail, from 0 on,
    /// and which takes at most `most` bytes a call. With a `most` of 0 each call with a piece that
    /// isn't empty fails.
    pub fn new(fails: Vec<u64>, most: usize) -> MemSink
        ensures view { result ≡ record {
          written = Some [];
          fails = fails.items;
          most = most;
          calls = 0;
          faults = 0;
        } }
        ensures state { ⟦<MemSink as Sink>⟧.state result
            ≡ record { written = Some []; faults = 0 } }
    {
        MemSink {
            written: Written::new(*fails.allocator()),
            fails,
            most,
            calls: 0,
            faults: 0,
        }
    }

    /// The bytes taken, to read; None where there was no memory for a copy.
    pub fn written(&self) -> Option<&[u8]>
        ensures { option_copied result ≡ (⟦<MemSink as Sink>⟧.state self.now).written }
    {
        self.written.bytes()
    }
}

impl Sink for MemSink {
    ghost state = { state_of };

    fn write(&mut self, piece: &[u8]) -> Result<usize, Failed>
        ensures taken { IfOk result (λ count. Appended (take count piece.now)
            (state_of self.old).written (state_of self.new).written) }
        ensures within { IfOk result (λ count. count ≤ length piece.now) }
        ensures moves { IfOk result (λ count. 0 < length piece.now → 0 < count) }
        ensures kept { OnErr result ((state_of self.new).written ≡ (state_of self.old).written) }
        ensures later { (state_of self.old).faults ≤ (state_of self.new).faults }
        ensures still { OnOk result ((state_of self.new).faults ≡ (state_of self.old).faults) }
        ensures cause { OnErr result (Rose (state_of self.old).faults (state_of self.new).faults) }

        // How many bytes a call takes, which calls fail, and how they are numbered.
        ensures most { IfOk result (λ count. count ≡ min (length piece.now) self.old.most) }
        ensures listed { OnOk result (¬ Contains self.old.fails self.old.calls) }
        ensures failed { OnErr result (Contains self.old.fails self.old.calls
            ⊎ ((self.old.most ≡ 0) × (0 < length piece.now))) }
        ensures numbered { self.new.calls ≡ min (self.old.calls + 1) (2 ^ 64 - 1) }
        ensures fixed { (self.new.fails ≡ self.old.fails) × (self.new.most ≡ self.old.most) }
    {
        let call = self.calls;
        self.calls = call.saturating_add(1);
        let count = piece.len().min(self.most);
        if self.fails.contains(&call) {
            return Err(self.fault());
        }
        if count == 0 && !piece.is_empty() {
            return Err(self.fault());
        }
        self.written.append(&piece[..count]);
        Ok(count)
    }
}

impl MemSink {
    // Counts a fault.
    fn fault(&mut self) -> Failed
        ensures rose { Rose self.old.faults self.new.faults }
        ensures later { self.old.faults ≤ self.new.faults }
        ensures rest { self.new ≡ record self.old { faults = self.new.faults } }
    {
        self.faults = self.faults.saturating_add(1);
        Failed
    }
}
