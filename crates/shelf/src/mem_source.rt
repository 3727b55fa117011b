ghost use Rattle.std.specs.Prelude.{◌≡◌, ◌↔◌, ◌+◌, ◌-◌, ◌^◌, ◌≤◌, min, Some, IfOk, OnOk, OnErr, IsErr, Contains};
ghost use Rattle.cr_base.specs.Count.{Rose};
ghost use Rattle.shelf.specs.MemSource.{state_of};
ghost use Rattle.shelf.specs.Source.{IsFirst, behind_first};

use crate::coming::Coming;
use crate::fault::Failed;
use crate::source::Source;
use std::marker::Model;

/// A source over memory, of which chosen calls fail. It tells what is to come.
///
/// Contracts see the bytes still to come, the numbers of the calls that fail, and how many calls were
/// made and failed.
#[derive(Debug, Drop)]
pub struct MemSource {
    coming: Coming,
    fails: Vec<u64>,
    calls: u64,
    faults: u64,
}

impl Model for MemSource {
    ghost use Rattle.shelf.specs.MemSource.{MemSourceView};

    ghost Value = { MemSourceView };

    ghost view = { λ source. record {
      rest = source.coming;
      fails = source.fails.items;
      calls = source.calls;
      faults = source.faults;
    } };
}

impl MemSource {
    /// A source that has these bytes to give, of which the calls with these numbers fail, from 0 on.
    pub fn new(bytes: Vec<u8>, fails: Vec<u64>) -> MemSource
        ensures view { result ≡ record {
          rest = bytes.items;
          fails = fails.items;
          calls = 0;
          faults = 0;
        } }
        ensures state { ⟦<MemSource as Source>⟧.state result
            ≡ record { rest = Some bytes.items; faults = 0 } }
    {
        MemSource {
            coming: Coming::of(bytes),
            fails,
            calls: 0,
            faults: 0,
        }
    }
}

impl Source for MemSource {
    ghost state = { state_of };

    fn read(&mut self) -> Result<Option<u8>, Failed>
        ensures first { IfOk result (λ next. IsFirst next (state_of self.old).rest) }
        ensures taken { OnOk result
            ((state_of self.new).rest ≡ behind_first (state_of self.old).rest) }
        ensures kept { OnErr result ((state_of self.new).rest ≡ (state_of self.old).rest) }
        ensures later { (state_of self.old).faults ≤ (state_of self.new).faults }
        ensures still { OnOk result ((state_of self.new).faults ≡ (state_of self.old).faults) }
        ensures cause { OnErr result (Rose (state_of self.old).faults (state_of self.new).faults) }

        // Which calls fail, and how they are numbered.
        ensures listed { IsErr result ↔ Contains self.old.fails self.old.calls }
        ensures numbered { self.new.calls ≡ min (self.old.calls + 1) (2 ^ 64 - 1) }
        ensures fails { self.new.fails ≡ self.old.fails }
    {
        let call = self.calls;
        self.calls = call.saturating_add(1);
        if self.fails.contains(&call) {
            self.faults = self.faults.saturating_add(1);
            return Err(Failed);
        }
        Ok(self.coming.take_first())
    }
}
