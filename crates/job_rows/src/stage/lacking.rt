//! A shelf whose calls find no memory.

use shelf::{Got, MemShelf, Shelf, ShelfFault};

/// The calls of a shelf that find no memory.
#[derive(Clone, Copy)]
pub(crate) struct Lacks {
    pub(crate) get: bool,
    pub(crate) put: bool,
}

/// A shelf in memory of which some calls find no memory.
#[derive(Drop)]
pub(crate) struct Lacking {
    pub(crate) shelf: MemShelf,
    pub(crate) lacks: Lacks,
}

impl Shelf for Lacking {
    ghost state = { λ lacking. ⟦<MemShelf as Shelf>⟧.state lacking.shelf };

    fn get(&mut self, name: &str, limit: usize) -> Result<Got, ShelfFault> {
        if self.lacks.get {
            return Err(ShelfFault::Memory);
        }
        self.shelf.get(name, limit)
    }

    fn put(&mut self, name: &str, bytes: &[u8]) -> Result<(), ShelfFault> {
        if self.lacks.put {
            return Err(ShelfFault::Memory);
        }
        self.shelf.put(name, bytes)
    }
}
