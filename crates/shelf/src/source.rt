ghost use Rattle.std.specs.Prelude.{◌≡◌, ◌≤◌, IfOk, OnOk, OnErr};
ghost use Rattle.cr_base.specs.Count.{Rose};
ghost use Rattle.shelf.specs.Source.{SourceState, IsFirst, behind_first};

use crate::fault::Failed;

/// A stream that gives bytes.
///
/// Its `state` says which bytes are still to come, where it tells that, and how many of its calls
/// have failed.
pub trait Source {
    ghost state: { Self → SourceState };

    /// Takes the first byte that is to come, or answers None where none is left. After an error
    /// nothing was taken.
    fn read(&mut self) -> Result<Option<u8>, Failed>
        ensures first { IfOk result (λ next. IsFirst next (state self.old).rest) }
        ensures taken { OnOk result
            ((state self.new).rest ≡ behind_first (state self.old).rest) }
        ensures kept { OnErr result ((state self.new).rest ≡ (state self.old).rest) }
        ensures later { (state self.old).faults ≤ (state self.new).faults }
        ensures still { OnOk result ((state self.new).faults ≡ (state self.old).faults) }
        ensures cause { OnErr result (Rose (state self.old).faults (state self.new).faults) };
}
