//! What the body of a function is written with (ISO C99, 6.9.1).

ghost use Rattle.std.specs.Prelude.{◌≡◌, ◌==◌, map, IfOk, option_map};
ghost use Rattle.std.specs.Option.{option_copied};
ghost use Rattle.build_flow_code.specs.Bodies.{body_of, index_in};
ghost use Rattle.cx_core.specs.Typing.{object_with};
ghost use Rattle.cx_core.specs.Views.{view_object};
ghost use Rattle.lift_exprs.specs.Written as written;
ghost use Rattle.rs_text.specs.Tree as tree;
ghost use Rattle.rs_tree.specs.Views.{place_view};

use crate::labels::part_number;
use cr_base::{Boxed, Items, Memory, Name};
use cx_core::{CoreObject, Ty};
use lift_stores::temporary_place;
use rs_items::NameMap;
use rs_tree::RPlace;
use std::alloc::Global;

/// The temporaries that are never stored: zero bytes are copied from them to objects. They are numbered from one on, in the order of these objects.
#[derive(Drop)]
pub struct Zeros {
    pub first: u32,
    pub objects: Items<u32>,
}

/// What the body of a function is written with.
#[derive(Clone, Copy)]
pub struct Body<'a> {
    /// What is kept of all things that it names, and of its temporaries.
    pub names: &'a NameMap,
    /// The objects of the program.
    pub objects: &'a [CoreObject],
    pub zeros: &'a Zeros,
    /// The type that the function gives, or `void`.
    pub result_ty: &'a Ty,
    /// The parameter that points to where it writes a structure or union that it gives.
    pub result: &'a Name,
}

/// The object with a number.
pub fn object_numbered(objects: &[CoreObject], number: u32) -> Option<&CoreObject>
    ensures { option_map view_object (option_copied result) ≡ object_with number (map view_object objects.now) }
{
    for one in objects {
        if one.object == number {
            return Some(one);
        }
    }
    None
}

// The place of a number in a list, or behind its end.
fn index_in(numbers: &[u32], number: u32) -> usize
    ensures { result ≡ index_in number numbers.now }
{
    for (index, one) in numbers.iter().enumerate() {
        if number == *one {
            return index;
        }
    }
    numbers.len()
}

/// The temporary from which zero bytes are copied to an object.
#[tactic(auto, unfolding(crate::specs::Bodies::body_of))]
pub fn zero_place(alloc: Global, of: &Body<'_>, number: u32) -> Result<Boxed<RPlace>, Memory>
    ensures { IfOk result (λ made. place_view made ≡ tree.Local ((body_of of.now).zeros number)) }
{
    let index = part_number(index_in(of.zeros.objects.as_slice(), number))?;
    match of.zeros.first.checked_add(index) {
        Some(temporary) => temporary_place(alloc, of.names, temporary),
        None => Err(Memory),
    }
}
