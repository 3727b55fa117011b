//! The objects of a unit by their numbers (ISO C99, 6.2.4).
#![tactic(auto)]

ghost use Rattle.std.specs.Prelude.{◌≡◌, ◌==◌, true, [], ◌∷◌, ◌++◌, if◌then◌else◌, map, option_map, MatchOption, OnOk, OnErr};
ghost use Rattle.cx_core.specs.declared.program.CoreObject.{CoreObject};
ghost use Rattle.cx_core.specs.Views.{view_object, view_puts, view_type};
ghost use Rattle.cx_scope.specs.Objects.{AreAbove, HasAt, NoneHas, with_content};
ghost use Rattle.cx_scope.specs.Places.{changed_at};

use cr_base::{Boxed, Items, Memory};
use cx_core::{CoreObject, Put, Ty};
use std::alloc::Global;
use std::marker::Model;

/// The objects of a unit, in the order of their numbers. That of a number is found in a time that grows with the logarithm of their
/// number.
#[derive(Drop)]
pub struct Objects {
    list: Vec<CoreObject>,
}

impl Model for Objects {
    ghost use Rattle.std.specs.Coded.{coded_list};
    ghost use Rattle.std.specs.Prelude.{List};
    ghost use Rattle.cx_core.specs.contracts.program.CoreObject as contents;
    ghost use Rattle.cx_core.specs.declared.program.CoreObject.{CoreObject};
    ghost use Rattle.cx_scope.specs.Objects.{AreAbove};

    ghost Value = { List CoreObject };

    ghost coded = { coded_list contents.the_row.coded };

    ghost view = { λ objects. objects.list.items };

    ghost invariant = { λ objects. AreAbove 0 objects.list.items };
}

// Whether a number is above those of all objects: above the last one's.
fn is_above(objects: &[CoreObject], number: u32) -> bool
    ensures { result ≡ true → AreAbove 0 objects.now → (one : CoreObject) → one.object ≡ number → AreAbove 0 (objects.now ++ one ∷ []) }
{
    match objects.split_last() {
        None => true,
        Some((last, _)) => last.object < number,
    }
}

// Where the object with a number stands.
fn place_of(objects: &[CoreObject], number: u32) -> Option<usize>
    requires { AreAbove 0 objects.now }
    ensures { MatchOption result (NoneHas number objects.now) (λ index. HasAt number objects.now index) }
{
    let index = objects.partition_point(|one| one.object < number);
    if index == objects.len() {
        return None;
    }
    if objects[index].object != number {
        return None;
    }
    Some(index)
}

fn set_content(one: &mut CoreObject, ty: Boxed<Ty>, puts: Option<Items<Put>>)
    ensures content { view_object one.new ≡ with_content (view_type ty) (option_map view_puts puts) (view_object one.old) }
    ensures number { one.new.object ≡ one.old.object }
{
    one.ty = ty.into_inner();
    if let Some(puts) = puts {
        one.puts = Some(puts);
    }
}

// The object at an index gets a type, and what is stored in it.
fn set_at(objects: &mut Vec<CoreObject>, index: usize, ty: Boxed<Ty>, puts: Option<Items<Put>>)
    ensures content { map view_object objects.new.items ≡ changed_at index (with_content (view_type ty) (option_map view_puts puts)) (map view_object objects.old.items) }
    ensures above { AreAbove 0 objects.old.items → AreAbove 0 objects.new.items }
{
    if let Some(one) = objects.get_mut(index) {
        set_content(one, ty, puts);
    }
}

impl Objects {
    /// No objects. It takes no memory.
    pub fn new(alloc: Global) -> Objects
        ensures { result ≡ [] }
    {
        Objects {
            list: Vec::new(alloc),
        }
    }

    /// All objects, to read.
    pub fn as_slice(&self) -> &[CoreObject]
        ensures { result.now ≡ self.now }
    {
        self.list.as_slice()
    }

    /// The list of the objects, which stay where they are.
    pub fn into_vec(self) -> Vec<CoreObject>
        ensures list { result.items ≡ self }
        ensures rising { AreAbove 0 result.items }
    {
        let Objects { list } = self;
        list
    }

    /// Adds an object, whose number is above those of the others. Refused only for want of memory, and then nothing changed.
    pub fn push(&mut self, one: CoreObject) -> Result<(), Memory>
        ensures added { OnOk result (self.new ≡ self.old ++ one ∷ []) }
        ensures refused { OnErr result (self.new ≡ self.old) }
    {
        // Numbers are taken in turn.
        if !is_above(self.list.as_slice(), one.object) {
            return Err(Memory);
        }
        self.list.push(one)?;
        Ok(())
    }

    /// The object with a number gets a type, and what is stored in it where that is told; where there is none, nothing changes.
    pub fn change(&mut self, number: u32, ty: Boxed<Ty>, puts: Option<Items<Put>>)
        ensures { map view_object self.new ≡ map (λ one. if one.object == number then with_content (view_type ty) (option_map view_puts puts) one else one) (map view_object self.old) }
    {
        if let Some(index) = place_of(self.list.as_slice(), number) {
            set_at(&mut self.list, index, ty, puts);
        }
    }
}
