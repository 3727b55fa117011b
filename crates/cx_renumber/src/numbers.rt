//! The numbers of a unit in the program.

ghost use Rattle.std.specs.Prelude.{◌≡◌, ◌+◌, map, IfOk};
ghost use Rattle.cx_renumber.specs.Views.{number_in, view_numbers};

use cr_base::{Items, Memory};
use std::alloc::Global;

/// How many numbers units take.
#[derive(Clone, Copy)]
pub struct Counts {
    pub records: u32,
    pub enums: u32,
    pub objects: u32,
    pub functions: u32,
}

/// What the numbers of a unit become in the program.
#[derive(Drop)]
pub struct Numbers {
    /// What the units before it take.
    pub before: Counts,
    /// The number in the program of each object of the unit, by its number. One that isn't there stands behind those of the units before.
    pub objects: Items<u32>,
    /// That of each function.
    pub functions: Items<u32>,
}

// The number behind so many others; past 32 bits there is no room for it.
pub(crate) fn number_behind(before: u32, number: u32) -> Result<u32, Memory>
    ensures { IfOk result (λ there. there ≡ before + number) }
{
    match before.checked_add(number) {
        Some(there) => Ok(there),
        None => Err(Memory),
    }
}

// A value is let go here, where its type isn't known: what ends early and holds a node by value drops no form of it.
pub(crate) fn let_go<T: Drop>(_value: T) {}

fn number_in(table: &[u32], before: u32, number: u32) -> Result<u32, Memory>
    ensures { IfOk result (λ there. there ≡ number_in table.now before number) }
{
    match table.get(number as usize) {
        Some(found) => Ok(*found),
        None => number_behind(before, number),
    }
}

impl Numbers {
    /// The number of an object in the program. Refused only where it needs more than 32 bits.
    pub fn object_for(&self, number: u32) -> Result<u32, Memory>
        ensures { IfOk result (λ there. there ≡ (view_numbers self.now).object_for number) }
    {
        number_in(self.objects.as_slice(), self.before.objects, number)
    }

    /// The number of a function in the program. Refused only where it needs more than 32 bits.
    pub fn function_for(&self, number: u32) -> Result<u32, Memory>
        ensures { IfOk result (λ there. there ≡ (view_numbers self.now).function_for number) }
    {
        number_in(self.functions.as_slice(), self.before.functions, number)
    }

    /// The numbers of objects in the program, in their order. Refused for want of memory, and where one needs more than 32 bits.
    pub fn objects_for(&self, alloc: Global, numbers: &[u32]) -> Result<Items<u32>, Memory>
        ensures { IfOk result (λ there. there ≡ map (view_numbers self.now).object_for numbers.now) }
    {
        let mut there = Items::new(alloc);
        for number in numbers {
            there.push(self.object_for(*number)?)?;
        }
        Ok(there)
    }
}
