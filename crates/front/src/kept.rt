//! Which names a program declares that are their own Rust names.

ghost use Rattle.std.specs.Prelude.{◌≡◌, ◌↔◌, IsTrue};
ghost use Rattle.std.specs.List.{list_all};
ghost use Rattle.straight_core.specs.Views.{view_object, view_outer, view_program};
ghost use Rattle.straight_rust_tree.specs.Names.{is_word, is_word_byte};
ghost use Rattle.std.specs.Prelude.{map};
ghost use Rattle.front.specs.Kept.{keeps, keeps_object, keeps_outer, KeepsNames};

use straight_core::{CoreObject, Outer, Program};
use straight_items::{NameScope, keeps_name};

fn is_word_byte(byte: u8) -> bool
    ensures { result ≡ is_word_byte byte }
{
    byte.is_ascii_alphanumeric() || byte == b'_'
}

fn are_word_bytes(name: &[u8]) -> bool
    ensures { result ≡ list_all is_word_byte name.now }
{
    name.iter().all(|byte| is_word_byte(*byte))
}

// Whether a name is an identifier of C.
fn is_word(name: &[u8]) -> bool
    ensures { result ≡ is_word name.now }
{
    match name.first() {
        None => false,
        Some(first) => !first.is_ascii_digit() && are_word_bytes(name),
    }
}

// Whether a name of C stands in a module as it is.
fn keeps(name: &[u8]) -> bool
    ensures { result ≡ keeps name.now }
{
    is_word(name) && keeps_name(NameScope::Module, name)
}

fn keeps_object(object: &CoreObject) -> bool
    ensures { result ≡ keeps_object (view_object object.now) }
{
    match &object.name {
        None => false,
        Some(name) => keeps(name.bytes()),
    }
}

fn keeps_objects(objects: &[CoreObject]) -> bool
    ensures { result ≡ list_all keeps_object (map view_object objects.now) }
{
    for object in objects {
        if !keeps_object(object) {
            return false;
        }
    }
    true
}

fn keeps_externals(externals: &[Outer]) -> bool
    ensures { result ≡ list_all keeps_outer (map view_outer externals.now) }
{
    for one in externals {
        if !keeps(one.name.bytes()) {
            return false;
        }
    }
    true
}

/// Whether all names that a program declares are their own Rust names, `main` aside.
pub(crate) fn keeps_names(program: &Program) -> bool
    ensures { IsTrue result ↔ KeepsNames (view_program program.now) }
{
    keeps_objects(program.objects()) && keeps_externals(program.externals())
}
