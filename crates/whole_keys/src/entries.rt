//! Which things have a name in the module of a unit (ISO C99, 5.1.2.2.1, 6.2.2, 6.2.4, 6.4.5, 6.5.2.5).

ghost use Rattle.std.specs.Prelude.{◌≡◌, option_map};
ghost use Rattle.cx_core.specs.Trees.{form_of_type};
ghost use Rattle.cx_core.specs.Views as core;
ghost use Rattle.cx_core.specs.Views.{view_function, view_object, view_outer, view_params, view_program, view_type};
ghost use Rattle.whole_keys.specs.Kinds.{is_static, lists_some};
ghost use Rattle.whole_keys.specs.Places.{ArePlaces};
ghost use Rattle.whole_keys.specs.Views.{view_key};
ghost use Rattle.whole_names.specs.Keys.{has_params, is_bare_too, is_defined_in, is_entry, is_external, is_named_in, is_object_of, is_outer_named, is_unlinked, key_of};

use crate::called::Called;
use crate::key::NameKey;
use crate::places::Places;
use cx_core::{CoreObject, Fun, Key, Linkage, Outer, Params, Parts, Ty, TyForm};

/// A static object that has no linkage.
#[derive(Clone, Copy, Debug, PartialEq, Eq)]
pub enum StaticKind {
    /// One that a block declares (6.2.4p3).
    OfBlock,
    /// The array of a string literal (6.4.5p5).
    Text,
    /// A compound literal outside of functions (6.5.2.5p6).
    Literal,
}

fn is_external(linkage: Linkage) -> bool
    ensures { result ≡ is_external linkage }
{
    matches!(linkage, Linkage::External)
}

fn is_unlinked(linkage: Linkage) -> bool
    ensures { result ≡ is_unlinked linkage }
{
    matches!(linkage, Linkage::Nothing)
}

/// Whether a function is the program's entry (5.1.2.2.1).
pub fn is_entry(one: &Fun) -> bool
    ensures { result ≡ is_entry (view_function one.now) }
{
    is_external(one.linkage) && one.name.bytes() == b"main".as_slice()
}

/// Whether an external function has this name.
pub fn is_outer_named(one: &Outer, name: &[u8]) -> bool
    ensures { result ≡ is_outer_named name.now (view_outer one.now) }
{
    one.name.bytes() == name
}

// ---- things with linkage

fn is_defined_in(unit: u32, function: Option<&Fun>, outer: Option<&Outer>) -> bool
    ensures { result ≡ is_defined_in unit (option_map (λ one. view_function one.now) function.entry) (option_map (λ one. view_outer one.now) outer.entry) }
{
    match function {
        Some(one) => one.unit == unit && !is_entry(one),
        None => outer.is_some(),
    }
}

fn is_object_of(unit: u32, object: Option<&CoreObject>) -> bool
    ensures { result ≡ is_object_of unit (option_map (λ one. view_object one.now) object.entry) }
{
    match object {
        Some(one) => one.unit == unit,
        None => false,
    }
}

/// Whether a thing has a name in the module of a unit: no other unit defines it, and it isn't `main`.
pub(crate) fn is_named_in(parts: &Parts, places: &Places, unit: u32, key: Key) -> bool
    requires { ArePlaces places.now (view_program parts.now) }
    ensures { result ≡ is_named_in (view_program parts.now) unit (core.view_key key) }
{
    match key {
        Key::Function(number) => is_defined_in(
            unit,
            places.function(parts, number),
            places.outer(parts, number),
        ),
        Key::Object(number) => is_object_of(unit, places.object(parts, number)),
        Key::Record(_) | Key::Calloc => false,
    }
}

/// The key of a thing.
pub(crate) fn key_of(key: Key) -> NameKey
    ensures { view_key result ≡ key_of (core.view_key key) }
{
    match key {
        Key::Function(number) => NameKey::Function(number),
        Key::Object(number) => NameKey::Object(number),
        Key::Record(number) => NameKey::Record(number),
        Key::Calloc => NameKey::Calloc,
    }
}

// ---- objects without linkage

/// Whether an object is a static one of a kind, of the unit.
pub(crate) fn is_static(kind: StaticKind, unit: u32, one: &CoreObject) -> bool
    ensures { result ≡ is_static kind unit (view_object one.now) }
{
    match kind {
        StaticKind::OfBlock => {
            one.unit == unit && is_unlinked(one.linkage) && one.name.is_some() && one.puts.is_some()
        }
        StaticKind::Text => one.unit == unit && one.is_text,
        StaticKind::Literal => {
            one.unit == unit && one.name.is_none() && !one.is_text && one.puts.is_some()
        }
    }
}

// ---- external functions

fn lists_some(params: &Params) -> bool
    ensures { result ≡ lists_some (view_params params.now) }
{
    match params {
        Params::Unlisted => false,
        Params::Listed(types) => types.as_slice().first().is_some(),
    }
}

/// Whether a type is that of a function that lists parameters (6.7.5.3).
#[tactic(auto, using(crate::proofs::Params::lists))]
pub fn has_params(ty: &Ty) -> bool
    ensures { result ≡ has_params (form_of_type (view_type ty.now)) }
{
    match &ty.form {
        TyForm::Function(fun) => lists_some(&fun.get().params),
        _ => false,
    }
}

/// Whether an external function is called without arguments where its type lists parameters (6.5.2.2p6).
pub(crate) fn is_bare_too(called: &Called, one: &Outer) -> bool
    ensures { result ≡ is_bare_too called.now (view_outer one.now) }
{
    has_params(&one.ty) && called.is_called_bare(one.function)
}
