ghost use Rattle.std.specs.Prelude.{◌≡◌, IfOk};
ghost use Rattle.straight_lift.specs.Coded.{known_name};

use cr_base::{Items, Memory, Name};
use std::alloc::Global;

/// The Rust name of an object or a function of the program.
#[derive(Drop)]
pub struct Known {
    /// The number of the object or function.
    pub number: u32,
    pub name: Name,
}

/// The Rust names of what a function mentions.
#[derive(Drop)]
pub struct NameTable {
    /// The module of all objects and functions.
    pub home: Name,
    /// The names of the static objects.
    pub objects: Items<Known>,
    /// The names of the functions.
    pub functions: Items<Known>,
    /// The names of the temporaries, by their numbers from 0 on.
    pub temporaries: Items<Name>,
}

// The name of the first with this number; the empty name where there is none.
pub(crate) fn known_name(alloc: Global, list: &[Known], number: u32) -> Result<Name, Memory>
    ensures { IfOk result (λ name. name ≡ known_name list.now number) }
{
    for one in list {
        if one.number == number {
            return one.name.copy();
        }
    }
    Ok(Name::of(Vec::new(alloc)))
}
