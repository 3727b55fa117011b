//! Objects and functions with linkage, found by their names (ISO C99, 6.2.2).
#![tactic(auto)]

ghost use Rattle.std.specs.Prelude.{◌≡◌, ◌<◌, [], ◌∷◌, ◌++◌, None, length, map, slice_get, slice_set, option_map, IfSome, OnOk, OnErr};
ghost use Rattle.std.specs.Option.{option_copied};
ghost use Rattle.cx_rules.specs.Declare.{thing_named};
ghost use Rattle.cx_scope.specs.Places.{IsThingAt};
ghost use Rattle.cx_scope.specs.Views.{view_thing};

use crate::names::NameIndex;
use crate::thing::Thing;
use cr_base::{Items, Memory, Name};
use std::alloc::Global;
use std::marker::Model;

/// The objects and functions with linkage of a unit, in the order of their first declarations. No two have one name, and that of a name is
/// found in a time that doesn't grow with their number.
#[derive(Drop)]
pub struct Things {
    list: Items<Thing>,
    names: NameIndex,
}

impl Model for Things {
    ghost use Rattle.std.specs.Coded.{coded_list};
    ghost use Rattle.std.specs.Prelude.{List};
    ghost use Rattle.cx_scope.specs.Indexed.{AreNamed};
    ghost use Rattle.cx_scope.specs.contracts.thing.Thing as contents;
    ghost use Rattle.cx_scope.specs.declared.thing.Thing.{Thing};

    ghost Value = { List Thing };

    ghost coded = { coded_list contents.the_row.coded };

    ghost view = { λ things. things.list };

    ghost invariant = { λ things. AreNamed things.list things.names };
}

impl Things {
    /// Nothing with linkage. It takes no memory.
    pub fn new(alloc: Global) -> Things
        ensures { result ≡ [] }
    {
        Things {
            list: Items::new(alloc),
            names: NameIndex::new(alloc),
        }
    }

    /// All of them, to read.
    pub fn as_slice(&self) -> &[Thing]
        ensures { result.now ≡ self.now }
    {
        self.list.as_slice()
    }

    /// The one at an index, or None past the end.
    pub fn get(&self, index: usize) -> Option<&Thing>
        ensures value { option_copied result ≡ slice_get self.now index }
        ensures within { IfSome result (λ one. index < length self.now) }
    {
        self.list.get(index)
    }

    /// Where the object or function of a name stands.
    pub fn at(&self, name: &Name) -> Option<usize>
        ensures { IsThingAt name.now (map view_thing self.now) result }
    {
        self.names.place_of(name.bytes())
    }

    /// The object or function of a name.
    pub fn named(&self, name: &Name) -> Option<&Thing>
        ensures { option_map (λ one. view_thing one.now) result ≡ thing_named name.now (map view_thing self.now) }
    {
        let index = self.at(name)?;
        self.list.get(index)
    }

    /// Adds one whose name none has yet. Refused only for want of memory, and then nothing changed.
    pub fn push(&mut self, one: Thing) -> Result<(), Memory>
        requires { thing_named one.name (map view_thing self.old) ≡ None }
        ensures added { OnOk result (self.new ≡ self.old ++ one ∷ []) }
        ensures refused { OnErr result (self.new ≡ self.old) }
    {
        self.names.add(&one.name, self.list.len())?;
        match self.list.push(one) {
            Ok(()) => Ok(()),
            Err(memory) => {
                self.names.drop_newest();
                Err(memory)
            }
        }
    }

    /// Another one of the same name stands at an index below their number.
    pub fn set(&mut self, index: usize, one: Thing)
        requires within { index < length self.old }
        requires name { IfSome (slice_get self.old index) (λ was. was.name ≡ one.name) }
        ensures { self.new ≡ slice_set self.old index one }
    {
        self.list.set(index, one);
    }
}
