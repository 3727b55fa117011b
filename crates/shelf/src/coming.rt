ghost use Rattle.std.specs.Prelude.{◌≡◌, drop, slice_get};

use std::marker::Model;

// Bytes still to come, in order. Contracts see the list of those that are left.
#[derive(Debug, Drop)]
pub(crate) struct Coming {
    bytes: Vec<u8>,
    next: usize,
}

impl Model for Coming {
    ghost use Rattle.std.specs.Prelude.{List, ℕ, ◌≤◌, drop, vec_len};

    ghost Value = { List ℕ };

    ghost view = { λ coming. drop coming.next coming.bytes.items };

    ghost invariant = { λ coming. coming.next ≤ vec_len coming.bytes };
}

impl Coming {
    // All these bytes, which stay where they are.
    pub fn of(bytes: Vec<u8>) -> Coming
        ensures { result ≡ bytes.items }
    {
        Coming { bytes, next: 0 }
    }

    // Takes the first byte that is left, if there is one.
    pub fn take_first(&mut self) -> Option<u8>
        ensures first { result ≡ slice_get self.old 0 }
        ensures rest { self.new ≡ drop 1 self.old }
    {
        let first = self.bytes.get(self.next).copied();
        if first.is_some() {
            self.next += 1;
        }
        first
    }
}
