//! The declarations whose scope holds a place, found by their names (ISO C99, 6.2.1, 6.2.3).
#![tactic(auto)]

ghost use Rattle.std.specs.Prelude.{◌≡◌, ◌<◌, [], ◌∷◌, ◌++◌, ◌-◌, true, false, if◌then◌else◌, length, take, drop, map, reverse, slice_get, slice_set, option_map, IfOk, IfSome, MatchOption, OnOk, OnErr};
ghost use Rattle.std.specs.Option.{option_copied};
ghost use Rattle.cx_rules.specs.Scope.{is_ordinary, ordinary, tag, tag_of};
ghost use Rattle.cx_scope.specs.Names.{declares, newest};
ghost use Rattle.cx_scope.specs.Views.{view_declared, view_meant, view_tag};

use crate::meant::{Declared, Meant, Tag};
use crate::names::NameIndex;
use cr_base::{Items, Memory, Name};
use std::alloc::Global;
use std::marker::Model;

// Whether it isn't in the name space of tags.
fn is_ordinary(meant: &Meant) -> bool
    ensures { result ≡ is_ordinary (view_meant meant.now) }
{
    match meant {
        Meant::Object { .. } => true,
        Meant::Function { .. } => true,
        Meant::TypeName(_) => true,
        Meant::Enumerator(_) => true,
        Meant::Tag { .. } => false,
    }
}

fn tag_of(meant: &Meant) -> Option<Tag>
    ensures { option_map view_tag result ≡ tag_of (view_meant meant.now) }
{
    match meant {
        Meant::Tag {
            is_record,
            is_open,
            number,
        } => Some(Tag {
            is_record: *is_record,
            is_open: *is_open,
            number: *number,
        }),
        Meant::Object { .. } => None,
        Meant::Function { .. } => None,
        Meant::TypeName(_) => None,
        Meant::Enumerator(_) => None,
    }
}

// A name is added to those of its name space.
fn note(
    is_ordinary: bool,
    ordinary: &mut NameIndex,
    tags: &mut NameIndex,
    name: &Name,
    place: usize,
) -> Result<(), Memory>
    ensures ordinary { OnOk result (ordinary.new ≡ (if is_ordinary then record { name = name.now; place = place } ∷ ordinary.old else ordinary.old)) }
    ensures tags { OnOk result (tags.new ≡ (if is_ordinary then tags.old else record { name = name.now; place = place } ∷ tags.old)) }
    ensures ordinary_stays { OnErr result (ordinary.new ≡ ordinary.old) }
    ensures tags_stay { OnErr result (tags.new ≡ tags.old) }
{
    if is_ordinary {
        ordinary.add(name, place)
    } else {
        tags.add(name, place)
    }
}

// The newest name of a name space is dropped.
fn forget(is_ordinary: bool, ordinary: &mut NameIndex, tags: &mut NameIndex)
    ensures ordinary { ordinary.new ≡ (if is_ordinary then drop 1 ordinary.old else ordinary.old) }
    ensures tags { tags.new ≡ (if is_ordinary then tags.old else drop 1 tags.old) }
{
    if is_ordinary {
        ordinary.drop_newest();
    } else {
        tags.drop_newest();
    }
}

/// The declarations whose scope holds a place, the oldest first. That of a name is found in a time that doesn't grow with their number.
#[derive(Drop)]
pub struct Declarations {
    list: Items<Declared>,
    ordinary: NameIndex,
    tags: NameIndex,
}

impl Model for Declarations {
    ghost use Rattle.std.specs.Coded.{coded_list};
    ghost use Rattle.std.specs.Prelude.{List};
    ghost use Rattle.cx_scope.specs.Indexed.{AreIndexed};
    ghost use Rattle.cx_scope.specs.contracts.meant.Declared as contents;
    ghost use Rattle.cx_scope.specs.declared.meant.Declared.{Declared};

    ghost Value = { List Declared };

    ghost coded = { coded_list contents.the_row.coded };

    ghost view = { λ declarations. declarations.list };

    ghost invariant = { λ declarations. AreIndexed declarations.list declarations.ordinary declarations.tags };
}

impl Declarations {
    /// No declarations. It takes no memory.
    pub fn new(alloc: Global) -> Declarations
        ensures { result ≡ [] }
    {
        Declarations {
            list: Items::new(alloc),
            ordinary: NameIndex::new(alloc),
            tags: NameIndex::new(alloc),
        }
    }

    /// How many declarations there are.
    pub fn len(&self) -> usize
        ensures { result ≡ length self.now }
    {
        self.list.len()
    }

    /// All declarations, to read.
    pub fn as_slice(&self) -> &[Declared]
        ensures { result.now ≡ self.now }
    {
        self.list.as_slice()
    }

    /// The declaration behind so many of the oldest, or None past the end.
    pub fn get(&self, index: usize) -> Option<&Declared>
        ensures value { option_copied result ≡ slice_get self.now index }
        ensures within { IfSome result (λ one. index < length self.now) }
    {
        self.list.get(index)
    }

    /// Adds a declaration. Refused only for want of memory, and then nothing changed.
    pub fn push(&mut self, one: Declared) -> Result<(), Memory>
        ensures added { OnOk result (self.new ≡ self.old ++ one ∷ []) }
        ensures refused { OnErr result (self.new ≡ self.old) }
    {
        let place = self.list.len();
        let is_ordinary = is_ordinary(&one.meant);
        note(
            is_ordinary,
            &mut self.ordinary,
            &mut self.tags,
            &one.name,
            place,
        )?;
        match self.list.push(one) {
            Ok(()) => Ok(()),
            Err(memory) => {
                forget(is_ordinary, &mut self.ordinary, &mut self.tags);
                Err(memory)
            }
        }
    }

    /// Takes the newest declaration, or answers None where there is none.
    pub fn pop(&mut self) -> Option<Declared>
        ensures { MatchOption result ((self.old ≡ []) × (self.new ≡ []))
            (λ last. self.old ≡ self.new ++ last ∷ []) }
    {
        let Some(last) = self.list.pop() else {
            return None;
        };
        forget(is_ordinary(&last.meant), &mut self.ordinary, &mut self.tags);
        Some(last)
    }

    /// Another declaration of the same name, in the same name space, stands at an index below the length.
    pub fn set(&mut self, index: usize, one: Declared)
        requires within { index < length self.old }
        requires name { IfSome (slice_get self.old index) (λ was. was.name ≡ one.name) }
        requires space { IfSome (slice_get self.old index) (λ was. is_ordinary (view_meant was.meant) ≡ is_ordinary (view_meant one.meant)) }
        ensures { self.new ≡ slice_set self.old index one }
    {
        self.list.set(index, one);
    }

    /// Behind how many of the oldest the newest declaration of a name stands that is no tag.
    pub fn place_of(&self, name: &Name) -> Option<usize>
        ensures { result ≡ newest (declares true name.now) (reverse (map view_declared self.now)) }
    {
        self.ordinary.place_of(name.bytes())
    }

    fn tag_place(&self, name: &Name) -> Option<usize>
        ensures { result ≡ newest (declares false name.now) (reverse (map view_declared self.now)) }
    {
        self.tags.place_of(name.bytes())
    }

    /// What a name means that is no tag, by its newest declaration behind so many of the oldest.
    pub fn ordinary_behind(&self, count: usize, name: &Name) -> Option<&Meant>
        ensures { option_map view_meant (option_copied result) ≡
            ordinary name.now (take (length (reverse (map view_declared self.now)) - count) (reverse (map view_declared self.now))) }
    {
        let Some(place) = self.place_of(name) else {
            return None;
        };
        if place < count {
            return None;
        }
        match self.list.get(place) {
            None => None,
            Some(one) => Some(&one.meant),
        }
    }

    /// What a tag means, by its newest declaration behind so many of the oldest.
    pub fn tag_behind(&self, count: usize, name: &Name) -> Option<Tag>
        ensures { option_map view_tag result ≡
            tag name.now (take (length (reverse (map view_declared self.now)) - count) (reverse (map view_declared self.now))) }
    {
        let Some(place) = self.tag_place(name) else {
            return None;
        };
        if place < count {
            return None;
        }
        match self.list.get(place) {
            None => None,
            Some(one) => tag_of(&one.meant),
        }
    }

    /// Drops the newest declaration, where there is one.
    pub fn drop_newest(&mut self)
        ensures { self.new ≡ take (length self.old - 1) self.old }
    {
        let _last = self.pop();
    }

    /// Drops the newest declarations, down to so many.
    pub fn shorten(&mut self, count: usize)
        ensures { self.new ≡ take count self.old }
    {
        while count < self.len() {
            self.drop_newest();
        }
    }

    /// Takes the newest declarations off, down to so many: the newest first. Refused only for want of memory.
    pub fn split(&mut self, alloc: Global, count: usize) -> Result<Items<Declared>, Memory>
        ensures taken { IfOk result (λ newest. newest ≡ reverse (drop count self.old)) }
        ensures left { OnOk result (self.new ≡ take count self.old) }
    {
        let mut newest = Items::new(alloc);
        while count < self.len() {
            let Some(last) = self.pop() else {
                return Ok(newest);
            };
            newest.push(last)?;
        }
        Ok(newest)
    }
}
