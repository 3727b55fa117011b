ghost use Rattle.std.specs.Prelude.{◌≡◌, ◌<◌, ◌≤◌, length, take, IfOk, OnOk, OnErr};
ghost use Rattle.std.specs.Io.KnownBytes.{Appends, Keeps};
ghost use Rattle.cr_base.specs.Count.{Rose};
ghost use Rattle.shelf.specs.Sink.{Appended};
ghost use Rattle.shelf.specs.StdSink.{state_of};

use crate::fault::Failed;
use crate::reading::TRIES;
use crate::sink::Sink;
use std::io::{ErrorKind, Write};
use std::marker::Model;

/// A sink over a writer, as standard output or error. It tells nothing of what it has taken.
///
/// A write that the system interrupts is tried again, a bounded number of times. One that takes
/// nothing of a piece that isn't empty is a failed call. Nothing is buffered or flushed here.
/// Contracts see the writer, and how many calls failed.
#[derive(Drop)]
pub struct StdSink<W> {
    writer: W,
    faults: u64,
}

impl<W> Model for StdSink<W> {
    ghost use Rattle.shelf.specs.StdSink.{StdSinkView};

    ghost Value = { StdSinkView W };

    ghost view = { λ sink. record { writer = sink.writer; faults = sink.faults } };
}

impl<W: Write> StdSink<W> {
    /// A sink over this writer.
    pub fn new(writer: W) -> StdSink<W>
        ensures view { result ≡ record { writer = writer; faults = 0 } }
        ensures state { ⟦<StdSink<W> as Sink>⟧.state result
            ≡ record { written = None; faults = 0 } }
    {
        StdSink { writer, faults: 0 }
    }
}

impl<W: Write> Sink for StdSink<W> {
    ghost state = { state_of };

    fn write(&mut self, piece: &[u8]) -> Result<usize, Failed>
        ensures taken { IfOk result (λ count. Appended (take count piece.now)
            (state_of self.old).written (state_of self.new).written) }
        ensures within { IfOk result (λ count. count ≤ length piece.now) }
        ensures moves { IfOk result (λ count. 0 < length piece.now → 0 < count) }
        ensures kept { OnErr result ((state_of self.new).written ≡ (state_of self.old).written) }
        ensures later { (state_of self.old).faults ≤ (state_of self.new).faults }
        ensures still { OnOk result ((state_of self.new).faults ≡ (state_of self.old).faults) }
        ensures cause { OnErr result (Rose (state_of self.old).faults (state_of self.new).faults) }

        // What becomes of the bytes that the writer holds, where it says so.
        ensures written { IfOk result (λ count. Appends (W.contents self.old.writer)
            (W.contents self.new.writer) (take count piece.now)) }
        ensures unwritten { OnErr result
            (Keeps (W.contents self.old.writer) (W.contents self.new.writer)) }
    {
        let outcome = write_piece(&mut self.writer, piece);
        if outcome.is_err() {
            self.faults = self.faults.saturating_add(1);
        }
        outcome
    }
}

// One write, tried again where the system interrupts it.
fn write_piece<W: Write>(writer: &mut W, piece: &[u8]) -> Result<usize, Failed>
    ensures taken { IfOk result (λ count.
        Appends (W.contents writer.old) (W.contents writer.new) (take count piece.now)) }
    ensures within { IfOk result (λ count. count ≤ length piece.now) }
    ensures moves { IfOk result (λ count. 0 < length piece.now → 0 < count) }
    ensures kept { OnErr result (Keeps (W.contents writer.old) (W.contents writer.new)) }
{
    for _try in 0..TRIES {
        match writer.write(piece) {
            Ok(0) if !piece.is_empty() => return Err(Failed),
            Ok(count) => return Ok(count),
            Err(error) => {
                if error.kind() != ErrorKind::Interrupted {
                    return Err(Failed);
                }
            }
        }
    }
    Err(Failed)
}
