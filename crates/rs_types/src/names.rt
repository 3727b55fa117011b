//! Names of items, parameters and locals, which differ.

ghost use Rattle.std.specs.Prelude.{◌≡◌, ◌++◌, not, map, reverse};
ghost use Rattle.std.specs.List.{list_any};
ghost use Rattle.rs_mean.specs.Typing as typing;
ghost use Rattle.rs_text.specs.Names.{is_among};
ghost use Rattle.rs_text.specs.Valid.{all_differ};
ghost use Rattle.rs_tree.specs.Views.{item_view, local_view, module_view, outer_view};
ghost use Rattle.rs_types.specs.Names as names;

use cr_base::Name;
use rs_tree::{Item, Local, Module, Outer};

// ---- items

fn outers_have_name(outers: &[Outer], name: &Name) -> bool
    ensures { result ≡ is_among (names.outer_names (map outer_view outers.now)) name.now }
{
    for outer in outers {
        if outer.name.bytes() == name.bytes() {
            return true;
        }
    }
    false
}

#[tactic(auto, using(crate::proofs::NameLemmas::or_none))]
fn item_has_name(item: &Item, name: &Name) -> bool
    ensures { result ≡ is_among (typing.item_names (item_view item.now)) name.now }
{
    match item {
        Item::Record(one) => one.name.bytes() == name.bytes(),
        Item::Static(object) => object.name.bytes() == name.bytes(),
        Item::Extern(outers) => outers_have_name(outers.as_slice(), name),
        Item::Function(function) => function.name.bytes() == name.bytes(),
    }
}

// Whether one of these items brings a name into its module.
fn items_have_name(items: &[Item], name: &Name) -> bool
    ensures { result ≡ names.is_item_name (map item_view items.now) name.now }
{
    for item in items {
        if item_has_name(item, name) {
            return true;
        }
    }
    false
}

// Whether the names of external functions differ.
fn outers_differ(outers: &[Outer]) -> bool
    ensures { result ≡ all_differ (names.outer_names (map outer_view outers.now)) }
{
    let mut rest = outers;
    while let [first, others @ ..] = rest {
        if outers_have_name(others, &first.name) {
            return false;
        }
        rest = others;
    }
    true
}

// Whether no external function has a name of these items.
fn outers_are_new(earlier: &[Item], outers: &[Outer]) -> bool
    ensures { result ≡ not (list_any (names.is_item_name (map item_view earlier.now)) (names.outer_names (map outer_view outers.now))) }
{
    for outer in outers {
        if items_have_name(earlier, &outer.name) {
            return false;
        }
    }
    true
}

/// Whether the names of an item differ from one another and from those of the earlier items of its module.
#[tactic(auto, using(crate::proofs::NameLemmas::one_differs, crate::proofs::NameLemmas::all_turned))]
pub(crate) fn names_differ(earlier: &[Item], item: &Item) -> bool
    ensures { result ≡ typing.names_differ (reverse (map item_view earlier.now)) (item_view item.now) }
{
    match item {
        Item::Record(one) => !items_have_name(earlier, &one.name),
        Item::Static(object) => !items_have_name(earlier, &object.name),
        Item::Extern(outers) => {
            outers_differ(outers.as_slice()) && outers_are_new(earlier, outers.as_slice())
        }
        Item::Function(function) => !items_have_name(earlier, &function.name),
    }
}

// ---- parameters and locals

fn locals_have_name(locals: &[Local], name: &Name) -> bool
    ensures { result ≡ is_among (names.local_names (map local_view locals.now)) name.now }
{
    for local in locals {
        if local.name.bytes() == name.bytes() {
            return true;
        }
    }
    false
}

// Whether the names of locals differ.
fn locals_differ(locals: &[Local]) -> bool
    ensures { result ≡ all_differ (names.local_names (map local_view locals.now)) }
{
    let mut rest = locals;
    while let [first, others @ ..] = rest {
        if locals_have_name(others, &first.name) {
            return false;
        }
        rest = others;
    }
    true
}

// Whether a name is one of parameters or locals.
#[tactic(auto, using(crate::proofs::NameLemmas::among_both))]
fn either_has_name(params: &[Local], locals: &[Local], name: &Name) -> bool
    ensures { result ≡ is_among (names.local_names (map local_view params.now) ++ names.local_names (map local_view locals.now)) name.now }
{
    locals_have_name(params, name) || locals_have_name(locals, name)
}

// Whether the names of parameters and locals differ.
fn both_differ(params: &[Local], locals: &[Local]) -> bool
    ensures { result ≡ all_differ (names.local_names (map local_view params.now) ++ names.local_names (map local_view locals.now)) }
{
    let mut rest = params;
    while let [first, others @ ..] = rest {
        if either_has_name(others, locals, &first.name) {
            return false;
        }
        rest = others;
    }
    locals_differ(locals)
}

// Whether no local has the name of an item.
fn locals_are_new(items: &[Item], locals: &[Local]) -> bool
    ensures { result ≡ names.are_new (map item_view items.now) (map local_view locals.now) }
{
    for local in locals {
        if items_have_name(items, &local.name) {
            return false;
        }
    }
    true
}

/// Whether the names of a function's parameters and locals differ from one another and from those of the items of
/// its module.
#[tactic(auto, using(crate::proofs::NameLemmas::both_typed))]
pub(crate) fn names_typed(unit: &Module, params: &[Local], locals: &[Local]) -> bool
    ensures { result ≡ typing.names_typed (module_view «unit».now) (map local_view params.now ++ map local_view locals.now) }
{
    both_differ(params, locals)
        && locals_are_new(unit.items.as_slice(), params)
        && locals_are_new(unit.items.as_slice(), locals)
}
