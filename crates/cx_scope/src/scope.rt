//! The scope at a place, and what declarations change of it.
#![tactic(auto, unfolding(crate::specs::Views::view_scope))]

ghost use Rattle.std.specs.Prelude.{◌≡◌, ◌≤◌, ◌<◌, map, length, IfOk, OnOk, OnErr};
ghost use Rattle.cx_core.specs.Views.{view_object, view_types};
ghost use Rattle.cx_rules.specs.Scope.{new_scope, no_labels, with_declared, with_object_number, left};
ghost use Rattle.cx_rules.specs.Pieces.{declared_since};
ghost use Rattle.cx_scope.specs.Changes.{begun_at, dropped_to, inside};
ghost use Rattle.cx_scope.specs.Views.{view_scope, view_declared, view_meant, view_made, view_labels};

use crate::declarations::Declarations;
use crate::made::Made;
use crate::meant::Declared;
use crate::objects::Objects;
use crate::thing::Labels;
use crate::things::Things;
use cr_base::{Items, Memory};
use cx_core::{CoreObject, Fun, Mention, Types};
use std::alloc::Global;

/// What is known at a place in a unit (ISO C99, 6.2.1): the declarations whose scope holds it, the types and the objects
/// so far, and what the unit did with names that have linkage. A declaration hides older ones of its name.
#[derive(Drop)]
pub struct Scope {
    pub alloc: Global,
    /// The number of the unit.
    pub unit: u32,
    /// The declarations whose scope holds the place, the oldest first.
    pub declared: Declarations,
    /// How many of them were there when the innermost scope began.
    pub begins: u64,
    /// Whether the place stands inside a function.
    pub in_function: bool,
    /// The record and enumerated types of the unit so far.
    pub types: Types,
    pub next_object: u32,
    pub next_function: u32,
    /// The objects of literals so far, in text order.
    pub literals: Items<Made>,
    /// What the unit named so far that has linkage, in text order.
    pub mentions: Vec<Mention>,
    /// The objects so far that aren't those of literals.
    pub objects: Objects,
    /// The functions with bodies so far.
    pub functions: Items<Fun>,
    /// The names with linkage, in the order of their first declarations (6.2.2).
    pub things: Things,
    /// The numbers of the structures and unions that were completed so far, in that order (6.7.2.3p4).
    pub completed: Items<u32>,
    /// The labels of the function, and of the innermost `switch`.
    pub body: Labels,
}

impl Scope {
    /// The scope before the first declaration of the unit with a number. It takes no memory.
    pub fn new(alloc: Global, unit: u32) -> Scope
        ensures { view_scope result ≡ new_scope unit }
    {
        Scope {
            alloc,
            unit,
            declared: Declarations::new(alloc),
            begins: 0,
            in_function: false,
            types: Types::new(alloc),
            next_object: 0,
            next_function: 0,
            literals: Items::new(alloc),
            mentions: Vec::new(alloc),
            objects: Objects::new(alloc),
            functions: Items::new(alloc),
            things: Things::new(alloc),
            completed: Items::new(alloc),
            body: no_labels(alloc),
        }
    }

    /// A declaration comes into scope. Refused only for want of memory, and then nothing changed.
    pub fn add(&mut self, one: Declared) -> Result<(), Memory>
        ensures added { OnOk result (view_scope self.new ≡ with_declared one.name (view_meant one.meant) (view_scope self.old)) }
        ensures refused { OnErr result (view_scope self.new ≡ view_scope self.old) }
    {
        self.declared.push(one)?;
        Ok(())
    }

    /// How many declarations there are whose scope holds the place.
    pub fn mark(&self) -> u64
        ensures { result ≡ length (view_scope self.now).declared }
    {
        self.declared.len() as u64
    }

    /// Drops the newest declarations, down to so many. Where the innermost scope began behind these, it begins there.
    pub fn back(&mut self, mark: u64)
        requires { mark ≤ length (view_scope self.old).declared }
        ensures { view_scope self.new ≡ dropped_to mark (view_scope self.old) }
    {
        self.declared.shorten(mark as usize);
        self.begins = self.begins.min(mark);
    }

    /// The innermost scope begins behind the oldest so many declarations; gives where it began before.
    pub fn enter(&mut self, from: u64) -> u64
        requires { from ≤ length (view_scope self.old).declared }
        ensures changed { view_scope self.new ≡ begun_at from (view_scope self.old) }
        ensures before { result ≡ (view_scope self.old).begins }
    {
        let before = self.begins;
        self.begins = from;
        before
    }

    /// Takes the number of the next object, from 0 on.
    pub fn fresh(&mut self) -> u32
        requires { (view_scope self.old).next_object < 4294967295 }
        ensures number { result ≡ (view_scope self.old).next_object }
        ensures taken { view_scope self.new ≡ with_object_number (view_scope self.old) }
    {
        let number = self.next_object;
        self.next_object = number + 1;
        number
    }

    /// Whether the places that follow stand inside a function.
    pub fn inside(&mut self, block: bool)
        ensures { view_scope self.new ≡ inside block (view_scope self.old) }
    {
        self.in_function = block;
    }

    /// The objects of literals so far, in text order.
    pub fn literals(&self) -> &[Made]
        ensures { map view_made result.now ≡ (view_scope self.now).literals }
    {
        self.literals.as_slice()
    }

    /// The objects that the unit declared so far, of file scope and of blocks.
    pub fn objects(&self) -> &[CoreObject]
        ensures { map view_object result.now ≡ (view_scope self.now).objects }
    {
        self.objects.as_slice()
    }

    /// The number of the unit.
    pub fn unit(&self) -> u32
        ensures { result ≡ (view_scope self.now).unit }
    {
        self.unit
    }

    /// Where the innermost scope begins: behind so many of the oldest declarations.
    pub fn begins(&self) -> u64
        ensures { result ≡ (view_scope self.now).begins }
    {
        self.begins
    }

    /// Whether the place stands inside a function.
    pub fn is_inside(&self) -> bool
        ensures { result ≡ (view_scope self.now).in_function }
    {
        self.in_function
    }

    /// The number of the next object.
    pub fn next_object(&self) -> u32
        ensures { result ≡ (view_scope self.now).next_object }
    {
        self.next_object
    }

    /// How much of what has linkage the unit named so far.
    pub fn mention_count(&self) -> u64
        ensures { result ≡ length (view_scope self.now).mentions }
    {
        self.mentions.len() as u64
    }

    /// A scope ends that began with so many declarations; the one around it began with so many.
    pub fn leave(&mut self, count: u64, begins: u64)
        ensures { view_scope self.new ≡ left count begins (view_scope self.old) }
    {
        self.declared.shorten(count as usize);
        self.begins = begins;
    }

    /// A scope ends that began with so many declarations, and gives its own, the newest first; the one around it began with so
    /// many. Refused only for want of memory, and then nothing is said of the declarations.
    pub fn close(&mut self, count: u64, begins: u64) -> Result<Items<Declared>, Memory>
        ensures own { IfOk result (λ newest. map view_declared newest ≡ declared_since count (view_scope self.old)) }
        ensures left { OnOk result (view_scope self.new ≡ left count begins (view_scope self.old)) }
        ensures types { (view_scope self.new).types ≡ (view_scope self.old).types }
    {
        let newest = self.declared.split(self.alloc, count as usize)?;
        self.begins = begins;
        Ok(newest)
    }

    /// The types of the unit so far.
    pub fn types(&self) -> &Types
        ensures { view_types result.now ≡ (view_scope self.now).types }
    {
        &self.types
    }
}

fn no_labels(alloc: Global) -> Labels
    ensures { view_labels result ≡ no_labels }
{
    Labels {
        labels: Items::new(alloc),
        cases: Items::new(alloc),
        has_default: false,
    }
}
