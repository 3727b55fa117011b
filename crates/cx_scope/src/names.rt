//! Names that are found in a time that doesn't grow with their number.

ghost use Rattle.std.specs.Prelude.{◌≡◌, [], ◌∷◌, drop, OnOk, OnErr};
ghost use Rattle.cx_scope.specs.Names.{place_of};

use cr_base::{Memory, Name};
use std::alloc::Global;
use std::collections::HashMap;
use std::marker::Model;

// A name, the place at which it stands, and that of the one of its name before it.
#[derive(Drop)]
struct Link {
    name: Vec<u8>,
    place: usize,
    older: Option<usize>,
}

/// Names with the places at which they stand in a list. The newest of a name counts.
#[derive(Drop)]
pub(crate) struct NameIndex {
    links: Vec<Link>,
    // Where the newest of each name stands. A name that was dropped stays, with no place.
    newest: HashMap<Vec<u8>, Option<usize>>,
}

impl Model for NameIndex {
    ghost use Rattle.std.specs.Prelude.{List, map, reverse};
    ghost use Rattle.cx_scope.specs.NameIndex.{named, IsIndexed};
    ghost use Rattle.cx_scope.specs.Names.{CNamed};

    ghost Value = { List CNamed };

    ghost view = { λ index. map named (reverse index.links.items) };

    ghost invariant = { λ index. IsIndexed index.newest (reverse index.links.items) };
}

impl NameIndex {
    /// No names.
    pub(crate) fn new(alloc: Global) -> NameIndex
        ensures { result ≡ [] }
    {
        NameIndex {
            links: Vec::new(alloc),
            newest: HashMap::new(alloc),
        }
    }

    /// Where the newest of a name stands.
    pub(crate) fn place_of(&self, name: &[u8]) -> Option<usize>
        ensures { result ≡ place_of name.now self.now }
    {
        match self.newest.get(name) {
            Some(place) => *place,
            None => None,
        }
    }

    /// Adds a name. Refused only for want of memory, and then nothing changed.
    pub(crate) fn add(&mut self, name: &Name, place: usize) -> Result<(), Memory>
        ensures added { OnOk result (self.new ≡ record { name = name.now; place = place } ∷ self.old) }
        ensures refused { OnErr result (self.new ≡ self.old) }
    {
        let older = self.place_of(name.bytes());
        let alloc = *self.links.allocator();
        let key = Vec::from_slice(alloc, name.bytes())?;
        let name = Vec::from_slice(alloc, name.bytes())?;
        self.links.reserve(1)?;
        self.newest.insert(key, Some(place))?;
        self.links.push(Link { name, place, older })?;
        Ok(())
    }

    /// Drops the newest name, where there is one.
    pub(crate) fn drop_newest(&mut self)
        ensures { self.new ≡ drop 1 self.old }
    {
        let Some(last) = self.links.pop() else {
            return;
        };
        let Link { name, older, .. } = last;
        let _known = self.newest.insert(name, older);
    }
}
