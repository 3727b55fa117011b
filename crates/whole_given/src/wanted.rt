//! The names that things are to get where they are free. They are refused only for want of memory.

ghost use Rattle.std.specs.Prelude.{◌≡◌, [], IfOk, Some, option_map};
ghost use Rattle.cx_core.specs.Views.{view_function, view_object, view_outer, view_program, view_tag};
ghost use Rattle.whole_keys.specs.Places.{ArePlaces};
ghost use Rattle.whole_keys.specs.Views.{view_key};
ghost use Rattle.whole_names.specs.ModuleNames.{function_name, name_or, object_name, record_name, wanted_name};

use cr_base::{Memory, Name};
use cx_core::{CoreObject, Fun, Outer, Parts, RecordTag};
use std::alloc::Global;
use whole_keys::{NameKey, Places};

fn no_name(alloc: Global) -> Name
    ensures { result ≡ [] }
{
    Name::of(Vec::new(alloc))
}

fn name_of(alloc: Global, bytes: &[u8]) -> Result<Name, Memory>
    ensures { IfOk result (λ name. name ≡ bytes.now) }
{
    let bytes = Vec::from_slice(alloc, bytes)?;
    Ok(Name::of(bytes))
}

// A name, or else another.
fn name_or(alloc: Global, name: &Option<Name>, other: &[u8]) -> Result<Name, Memory>
    ensures { IfOk result (λ made. made ≡ name_or other.now name.now) }
{
    match name {
        Some(name) => name.copy(),
        None => name_of(alloc, other),
    }
}

// That of a function that a unit defines, or else of an external one.
fn function_name(
    alloc: Global,
    function: Option<&Fun>,
    outer: Option<&Outer>,
) -> Result<Name, Memory>
    ensures { IfOk result (λ name. name ≡ function_name (option_map (λ one. view_function one.now) function.entry) (option_map (λ one. view_outer one.now) outer.entry)) }
{
    match function {
        Some(one) => one.name.copy(),
        None => match outer {
            Some(one) => one.name.copy(),
            None => Ok(no_name(alloc)),
        },
    }
}

// That of an object: a string literal is `lit`, a compound literal `val`.
fn object_name(alloc: Global, object: Option<&CoreObject>) -> Result<Name, Memory>
    ensures { IfOk result (λ name. name ≡ object_name (option_map (λ one. view_object one.now) object.entry)) }
{
    match object {
        Some(one) => unnamed_or(alloc, one),
        None => Ok(no_name(alloc)),
    }
}

fn unnamed_or(alloc: Global, one: &CoreObject) -> Result<Name, Memory>
    ensures { IfOk result (λ name. name ≡ object_name (Some (view_object one.now))) }
{
    if one.is_text {
        return name_or(alloc, &one.name, b"lit".as_slice());
    }
    name_or(alloc, &one.name, b"val".as_slice())
}

// That of a record: one without a tag is `anon`.
fn record_name(alloc: Global, tag: Option<&RecordTag>) -> Result<Name, Memory>
    ensures { IfOk result (λ name. name ≡ record_name (option_map (λ one. view_tag one.now) tag.entry)) }
{
    match tag {
        Some(one) => name_or(alloc, &one.tag, b"anon".as_slice()),
        None => Ok(no_name(alloc)),
    }
}

/// The name that a key is to get where it is free.
pub fn wanted_name(
    alloc: Global,
    parts: &Parts,
    places: &Places,
    key: NameKey,
) -> Result<Name, Memory>
    requires { ArePlaces places.now (view_program parts.now) }
    ensures { IfOk result (λ name. name ≡ wanted_name (view_program parts.now) (view_key key)) }
{
    match key {
        NameKey::Function(number) => function_name(
            alloc,
            places.function(parts, number),
            places.outer(parts, number),
        ),
        NameKey::Object(number) => object_name(alloc, places.object(parts, number)),
        NameKey::Record(number) => record_name(alloc, parts.types.record_tags.get(number as usize)),
        NameKey::Calloc => name_of(alloc, b"calloc".as_slice()),
        NameKey::BareFunction(number) => function_name(alloc, None, places.outer(parts, number)),
    }
}
