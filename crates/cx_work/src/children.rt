ghost use Rattle.std.specs.Prelude.{◌≡◌, [], ◌∷◌, ◌++◌, ◌<◌, length, slice_get, slice_set, Some, OnOk, OnErr};
ghost use Rattle.std.specs.Borrow.{Lends, sem};

use cr_base::Memory;
use std::alloc::Global;
use std::marker::Model;

/// The parts of a tree below one node, which may be changed where they are. Contracts see them as their list.
#[derive(Drop)]
pub struct Children<T> {
    elements: Vec<T>,
}

impl<T> Model for Children<T> {
    ghost use Rattle.std.specs.Prelude.{List};
    ghost use Rattle.std.specs.Coded.{coded_list};

    ghost Value = { List T };

    ghost coded = { coded_list T.code };

    ghost view = { λ list. list.elements.items };
}

impl<T> Children<T> {
    ghost use Rattle.cx_work.specs.contracts.children.Children.{the_row};

    /// No parts; they take no memory until one is pushed.
    pub fn new(alloc: Global) -> Children<T>
        ensures { result ≡ [] }
    {
        Children {
            elements: Vec::new(alloc),
        }
    }

    /// The vector that holds the parts, which stay where they are.
    pub fn into_vec(self) -> Vec<T>
        ensures { result.items ≡ self }
    {
        let Children { elements } = self;
        elements
    }

    /// All parts, to read.
    pub fn as_slice(&self) -> &[T]
        ensures { result.now ≡ self.now }
    {
        self.elements.as_slice()
    }

    /// The part at an index below their number, to change it where it is.
    pub fn at_mut(&mut self, index: usize) -> &mut T
        requires { index < length self.old }
        ensures* writes_back { sem 𝓛 (Lends (the_row T.row) T.row self.entry result (slice_set self.old index)) }
        ensures value { slice_get self.old index ≡ Some result.now }
    {
        &mut self.elements[index]
    }

    /// How many parts there are.
    pub fn len(&self) -> usize
        ensures { result ≡ length self.now }
    {
        self.elements.len()
    }
}

impl<T: Drop> Children<T> {
    /// Appends a part. Refused only for want of memory, and then nothing changed.
    pub fn push(&mut self, part: T) -> Result<(), Memory>
        ensures ok { OnOk result (self.new ≡ self.old ++ part ∷ []) }
        ensures err { OnErr result (self.new ≡ self.old) }
    {
        self.elements.push(part)?;
        Ok(())
    }

    /// Appends the parts of another list, in their order. Refused only for want of memory, and then nothing
    /// changed; the other list is used up either way.
    pub fn append(&mut self, more: Children<T>) -> Result<(), Memory>
        ensures ok { OnOk result (self.new ≡ self.old ++ more) }
        ensures err { OnErr result (self.new ≡ self.old) }
    {
        let Children { mut elements } = more;
        self.elements.append(&mut elements)?;
        Ok(())
    }
}
