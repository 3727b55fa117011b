ghost use Rattle.std.specs.Prelude.{◌≡◌, ◌≤◌, Some, IfOk, OnOk, OnErr, IsOk};
ghost use Rattle.cr_base.specs.Count.{Rose};
ghost use Rattle.shelf.specs.Source.{IsFirst, behind_first};
ghost use Rattle.shelf.specs.SureSource.{state_of};

use crate::coming::Coming;
use crate::fault::Failed;
use crate::source::Source;
use std::marker::Model;

/// A source over memory that never fails. It tells what is to come. Contracts see these bytes.
#[derive(Debug, Drop)]
pub struct SureSource {
    coming: Coming,
}

impl Model for SureSource {
    ghost use Rattle.std.specs.Prelude.{ℕ, List};

    ghost Value = { List ℕ };

    ghost view = { λ source. source.coming };
}

impl SureSource {
    /// A source that has these bytes to give.
    pub fn new(bytes: Vec<u8>) -> SureSource
        ensures view { result ≡ bytes.items }
        ensures state { ⟦<SureSource as Source>⟧.state result
            ≡ record { rest = Some bytes.items; faults = 0 } }
    {
        SureSource {
            coming: Coming::of(bytes),
        }
    }
}

impl Source for SureSource {
    ghost state = { state_of };

    fn read(&mut self) -> Result<Option<u8>, Failed>
        ensures first { IfOk result (λ next. IsFirst next (state_of self.old).rest) }
        ensures taken { OnOk result
            ((state_of self.new).rest ≡ behind_first (state_of self.old).rest) }
        ensures kept { OnErr result ((state_of self.new).rest ≡ (state_of self.old).rest) }
        ensures later { (state_of self.old).faults ≤ (state_of self.new).faults }
        ensures still { OnOk result ((state_of self.new).faults ≡ (state_of self.old).faults) }
        ensures cause { OnErr result (Rose (state_of self.old).faults (state_of self.new).faults) }
        ensures sure { IsOk result }
    {
        Ok(self.coming.take_first())
    }
}
