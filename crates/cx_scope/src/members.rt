//! The members of a structure or union so far, found by their names (ISO C99, 6.7.2.1).
#![tactic(auto)]

ghost use Rattle.std.specs.Prelude.{◌≡◌, [], ◌∷◌, ◌++◌, if◌then◌else◌, Some, drop, map, OnOk, OnErr};
ghost use Rattle.std.specs.List.{list_any};
ghost use Rattle.cx_core.specs.Views.{view_member};
ghost use Rattle.cx_rules.specs.Rules.{has_name};
ghost use Rattle.cx_scope.specs.MemberNames.{noted};

use crate::names::NameIndex;
use cr_base::{Items, Memory, Name};
use cx_core::Member;
use std::alloc::Global;
use std::marker::Model;

/// The members of a structure or union so far, in text order. Whether one has a name is found in a time that doesn't grow with their
/// number.
#[derive(Drop)]
pub struct Members {
    list: Items<Member>,
    names: NameIndex,
}

impl Model for Members {
    ghost use Rattle.std.specs.Coded.{coded_list};
    ghost use Rattle.std.specs.Prelude.{List};
    ghost use Rattle.cx_core.specs.contracts.ty.Member as contents;
    ghost use Rattle.cx_core.specs.declared.ty.Member.{Member};
    ghost use Rattle.cx_scope.specs.MemberNames.{AreListed};

    ghost Value = { List Member };

    ghost coded = { coded_list contents.the_row.coded };

    ghost view = { λ members. members.list };

    ghost invariant = { λ members. AreListed members.list members.names };
}

// A name is added, where there is one.
fn note(names: &mut NameIndex, name: &Option<Name>, place: usize) -> Result<(), Memory>
    ensures noted { OnOk result (names.new ≡ noted name.now place names.old) }
    ensures refused { OnErr result (names.new ≡ names.old) }
{
    match name {
        None => Ok(()),
        Some(name) => names.add(name, place),
    }
}

// The newest name is dropped, where there is one.
fn forget(names: &mut NameIndex, is_named: bool)
    ensures { names.new ≡ (if is_named then drop 1 names.old else names.old) }
{
    if is_named {
        names.drop_newest();
    }
}

impl Members {
    /// No members. It takes no memory.
    pub fn new(alloc: Global) -> Members
        ensures { result ≡ [] }
    {
        Members {
            list: Items::new(alloc),
            names: NameIndex::new(alloc),
        }
    }

    /// Whether a member has a name.
    pub fn has(&self, name: &Name) -> bool
        ensures { result ≡ list_any (has_name (Some name.now)) (map view_member self.now) }
    {
        self.names.place_of(name.bytes()).is_some()
    }

    /// Adds a member. Refused only for want of memory, and then nothing changed.
    pub fn push(&mut self, one: Member) -> Result<(), Memory>
        ensures added { OnOk result (self.new ≡ self.old ++ one ∷ []) }
        ensures refused { OnErr result (self.new ≡ self.old) }
    {
        let place = self.list.len();
        let is_named = one.name.is_some();
        note(&mut self.names, &one.name, place)?;
        match self.list.push(one) {
            Ok(()) => Ok(()),
            Err(memory) => {
                forget(&mut self.names, is_named);
                Err(memory)
            }
        }
    }

    /// All members, in text order.
    pub fn into_items(self) -> Items<Member>
        ensures { result ≡ self }
    {
        let Members { list, .. } = self;
        list
    }
}
