ghost use Rattle.std.specs.Prelude.{◌≡◌, [], Some, option_copied};
ghost use Rattle.shelf.specs.Sink.{Appended};

use std::alloc::Global;
use std::marker::Model;

// A copy of the bytes that a sink has taken, for as long as there was memory for it. Contracts see
// it as that list, or as None.
#[derive(Debug, Drop)]
pub(crate) struct Written {
    bytes: Option<Vec<u8>>,
}

impl Model for Written {
    ghost use Rattle.std.specs.Prelude.{ℕ, List, Option, option_map, vec_items};

    ghost Value = { Option (List ℕ) };

    ghost view = { λ written. option_map vec_items written.bytes };
}

impl Written {
    // No bytes yet.
    pub fn new(alloc: Global) -> Written
        ensures { result ≡ Some [] }
    {
        Written {
            bytes: Some(Vec::new(alloc)),
        }
    }

    // The bytes, to read.
    pub fn bytes(&self) -> Option<&[u8]>
        ensures { option_copied result ≡ self.now }
    {
        match &self.bytes {
            Some(bytes) => Some(bytes.as_slice()),
            None => None,
        }
    }

    // Adds a piece to the copy, or gives the copy up where there is no memory for the piece.
    pub fn append(&mut self, piece: &[u8])
        ensures { Appended piece.now self.old self.new }
    {
        let is_kept = match &mut self.bytes {
            Some(bytes) => bytes.extend_from_slice(piece).is_ok(),
            None => false,
        };
        if !is_kept {
            self.bytes = None;
        }
    }
}
