ghost use Rattle.std.specs.Prelude.{◌≡◌, ℕ, ◌<◌, ◌≤◌, length, take, IfOk, OnOk, OnErr};
ghost use Rattle.cr_base.specs.Count.{Rose};
ghost use Rattle.shelf.specs.Sink.{SinkState, Appended};

use crate::fault::Failed;

/// A stream that takes bytes.
///
/// Its `state` says which bytes it has taken, where it tells that, and how many of its calls have
/// failed.
pub trait Sink {
    ghost state: { Self → SinkState };

    /// Takes a prefix of the piece and answers its length, which is 0 only for an empty piece.
    /// After an error nothing was taken.
    fn write(&mut self, piece: &[u8]) -> Result<usize, Failed>
        ensures taken { IfOk result (λ count.
            Appended (take count piece.now) (state self.old).written (state self.new).written) }
        ensures within { IfOk result (λ count. count ≤ length piece.now) }
        ensures moves { IfOk result (λ count. 0 < length piece.now → 0 < count) }
        ensures kept { OnErr result ((state self.new).written ≡ (state self.old).written) }
        ensures later { (state self.old).faults ≤ (state self.new).faults }
        ensures still { OnOk result ((state self.new).faults ≡ (state self.old).faults) }
        ensures cause { OnErr result (Rose (state self.old).faults (state self.new).faults) };
}

/// Writes all of a piece, in as many calls as the sink needs. After an error the sink has taken
/// some prefix of the piece.
pub fn write_all<S: Sink>(sink: &mut S, piece: &[u8]) -> Result<(), Failed>
    ensures ok { OnOk result
        (Appended piece.now (S.state sink.old).written (S.state sink.new).written) }
    ensures err { OnErr result ((count : ℕ) × (count ≤ length piece.now)
        × Appended (take count piece.now) (S.state sink.old).written (S.state sink.new).written) }
    ensures later { (S.state sink.old).faults ≤ (S.state sink.new).faults }
    ensures still { OnOk result ((S.state sink.new).faults ≡ (S.state sink.old).faults) }
    ensures cause { OnErr result (Rose (S.state sink.old).faults (S.state sink.new).faults) }
{
    let mut done = 0;
    while done < piece.len() {
        done += sink.write(&piece[done..])?;
    }
    Ok(())
}
