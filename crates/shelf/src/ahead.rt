ghost use Rattle.std.specs.Prelude.{◌≡◌, [], drop, slice_get, OnOk, OnErr};
ghost use Rattle.std.specs.Io.KnownBytes.{Keeps, Consumes, IsAtEnd};

use crate::fault::Failed;
use crate::reading::{PIECE, read_retrying};
use std::io::Read;
use std::marker::Model;

// Bytes that were read from a reader and not taken yet. Contracts see their list.
#[derive(Drop)]
pub(crate) struct Ahead {
    bytes: [u8; PIECE],
    next: usize,
    end: usize,
}

impl Model for Ahead {
    ghost use Rattle.std.specs.Prelude.{List, ℕ, ◌≤◌, drop, take};
    ghost use Rattle.shelf.specs.declared.reading.TheConstants.{PIECE};

    ghost Value = { List ℕ };

    ghost view = { λ ahead. drop ahead.next (take ahead.end ahead.bytes) };

    ghost invariant = { λ ahead. (ahead.next ≤ ahead.end) × (ahead.end ≤ PIECE) };
}

impl Ahead {
    // No bytes.
    pub fn new() -> Ahead
        ensures { result ≡ [] }
    {
        Ahead {
            bytes: [0; PIECE],
            next: 0,
            end: 0,
        }
    }

    // Takes the first byte, if there is one.
    pub fn take_first(&mut self) -> Option<u8>
        ensures first { result ≡ slice_get self.old 0 }
        ensures rest { self.new ≡ drop 1 self.old }
    {
        if self.next == self.end {
            return None;
        }
        let first = self.bytes[self.next];
        self.next += 1;
        Some(first)
    }

    // Drops what is there, and reads once from a reader what it gives: nothing only at its end.
    pub fn refill<R: Read>(&mut self, reader: &mut R) -> Result<(), Failed>
        ensures ok { OnOk result
            (Consumes (R.remaining reader.old) (R.remaining reader.new) self.new) }
        ensures end { OnOk result (self.new ≡ [] → IsAtEnd (R.remaining reader.new)) }
        ensures err { OnErr result (Keeps (R.remaining reader.old) (R.remaining reader.new)) }
        ensures none { OnErr result (self.new ≡ []) }
    {
        self.next = 0;
        self.end = 0;
        match read_retrying(reader, &mut self.bytes) {
            Ok(count) => {
                self.end = count;
                Ok(())
            }
            Err(_) => Err(Failed),
        }
    }
}
