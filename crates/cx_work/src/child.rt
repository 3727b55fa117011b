ghost use Rattle.std.specs.Prelude.{◌≡◌, IfOk};
ghost use Rattle.std.specs.Borrow.{Lends, sem};

use cr_base::Memory;
use std::alloc::Global;
use std::marker::Model;

/// A part of a tree on the heap, which may be changed where it is. Contracts see it as the part itself.
#[derive(Drop)]
pub struct Child<T> {
    held: Box<T>,
}

impl<T> Model for Child<T> {
    ghost Value = { T };

    ghost coded = { T.code };

    ghost view = { λ child. child.held.value };
}

impl<T> Child<T> {
    ghost use Rattle.cx_work.specs.contracts.child.Child.{the_row};

    /// The part, to read.
    pub fn get(&self) -> &T
        ensures { result.now ≡ self.now }
    {
        &self.held
    }

    /// The part, to change it where it is.
    pub fn get_mut(&mut self) -> &mut T
        ensures* writes_back { sem 𝓛 (Lends (the_row T.row) T.row self.entry result (λ part. part)) }
        ensures value { result.now ≡ self.old }
    {
        self.held.as_mut()
    }

    /// The part itself; its memory is given back.
    pub fn into_inner(self) -> T
        ensures { result ≡ self }
    {
        let Child { held } = self;
        Box::into_inner(held)
    }
}

impl<T: Drop> Child<T> {
    /// Puts a part on the heap. Refused only for want of memory.
    pub fn new(alloc: Global, part: T) -> Result<Child<T>, Memory>
        ensures { IfOk result (λ child. child ≡ part) }
    {
        let held = Box::new(alloc, part)?;
        Ok(Child { held })
    }
}
