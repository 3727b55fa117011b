//! Names of objects, which are found in a time that doesn't grow with their number.

ghost use Rattle.std.specs.Prelude.{◌≡◌, ◌++◌, ◌∷◌, [], length, is_some, OnOk, OnErr};
ghost use Rattle.straight_decl.specs.CoreOf.{object_named};
ghost use Rattle.straight_decl.specs.ObjectNames.{HasFirst, HoldsSame, indexed};

use cr_base::{Memory, Name};
use std::alloc::Global;
use std::collections::HashMap;
use std::marker::Model;

/// The names of objects, in the order of their numbers.
#[derive(Drop)]
pub(crate) struct ObjectNames {
    list: Vec<Name>,
    // The number of the first object of each name.
    first: HashMap<Vec<u8>, usize>,
}

impl Model for ObjectNames {
    ghost use Rattle.std.specs.Prelude.{List, ℕ};
    ghost use Rattle.straight_decl.specs.ObjectNames.{IsIndexed};

    ghost Value = { List (List ℕ) };

    ghost view = { λ names. names.list.items };

    ghost invariant = { λ names. IsIndexed names.first names.list.items };
}

impl ObjectNames {
    /// No names.
    pub(crate) fn new(alloc: Global) -> ObjectNames
        ensures { result ≡ [] }
    {
        ObjectNames {
            list: Vec::new(alloc),
            first: HashMap::new(alloc),
        }
    }

    /// How many there are.
    pub(crate) fn len(&self) -> usize
        ensures { result ≡ length self.now }
    {
        self.list.len()
    }

    /// The number of the first object that has a name.
    pub(crate) fn number_of(&self, name: &[u8]) -> Option<usize>
        ensures { result ≡ object_named name.now self.now }
    {
        found(&self.first, name)
    }

    /// Adds the name of the next object. Refused only for want of memory, and then nothing changed.
    pub(crate) fn push(&mut self, name: Name) -> Result<(), Memory>
        ensures added { OnOk result (self.new ≡ self.old ++ name ∷ []) }
        ensures refused { OnErr result (self.new ≡ self.old) }
    {
        let number = self.list.len();
        self.list.reserve(1)?;
        note(
            *self.list.allocator(),
            &mut self.first,
            name.bytes(),
            number,
        )?;
        self.list.push(name)?;
        Ok(())
    }
}

fn found(index: &HashMap<Vec<u8>, usize>, name: &[u8]) -> Option<usize>
    ensures { result ≡ indexed index.now name.now }
{
    match index.get(name) {
        Some(number) => Some(*number),
        None => None,
    }
}

// Puts a name with a number in the index, where it isn't there.
fn note(
    alloc: Global,
    index: &mut HashMap<Vec<u8>, usize>,
    name: &[u8],
    number: usize,
) -> Result<(), Memory>
    ensures noted { OnOk result (HasFirst index.old index.new name.now number) }
    ensures refused { OnErr result (HoldsSame index.old index.new) }
{
    if found(index, name).is_some() {
        return Ok(());
    }
    let key = Vec::from_slice(alloc, name)?;
    index.insert(key, number)?;
    Ok(())
}
