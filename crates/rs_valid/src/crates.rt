//! Valid modules and crates.

ghost use Rattle.std.specs.Prelude.{◌≡◌, false, map, codes, bytes_eq, slice_get};
ghost use Rattle.std.specs.List.{list_all, list_any};
ghost use Rattle.rs_text.specs.Names as names;
ghost use Rattle.rs_text.specs.Valid as valid;
ghost use Rattle.rs_tree.specs.Views.{item_view, module_view, crate_view};
ghost use Rattle.rs_valid.specs.Lists as lists;

use crate::items::is_valid_item;
use crate::words::is_module_name;
use cr_base::Name;
use rs_tree::{Crate, Item, Module};

fn are_valid(items: &[Item]) -> bool
    ensures { result ≡ list_all valid.valid_item (map item_view items.now) }
{
    for item in items {
        if !is_valid_item(item) {
            return false;
        }
    }
    true
}

// The place of an item's kind in a module.
fn kind(item: &Item) -> u8
    ensures { result ≡ valid.kind (item_view item.now) }
{
    match item {
        Item::Record(_) => 0,
        Item::Static(_) => 1,
        Item::Extern(_) => 2,
        Item::Function(_) => 3,
    }
}

// The first kind of an item that may stand behind this one.
fn next_kind(item: &Item) -> u8
    ensures { result ≡ valid.next_kind (item_view item.now) }
{
    match item {
        Item::Record(_) => 0,
        Item::Static(_) => 1,
        Item::Extern(_) | Item::Function(_) => 3,
    }
}

fn are_in_order(items: &[Item]) -> bool
    ensures { result ≡ valid.are_in_order 0 (map item_view items.now) }
{
    let mut first = 0;
    for item in items {
        if kind(item) < first {
            return false;
        }
        first = next_kind(item);
    }
    true
}

// Whether an item is a function of this name, with a body.
fn is_function(name: &[u8], item: &Item) -> bool
    ensures { result ≡ valid.is_function name.now (item_view item.now) }
{
    match item {
        Item::Function(function) => function.name.bytes() == name,
        _ => false,
    }
}

#[tactic(auto, using(crate::proofs::Mapped::last_ends))]
fn ends_with_initialiser(items: &[Item]) -> bool
    ensures { result ≡ valid.ends_with_initialiser (map item_view items.now) }
{
    last_is_initialiser(items)
}

fn last_is_initialiser(items: &[Item]) -> bool
    ensures { result ≡ lists.ends_from false (map item_view items.now) }
{
    let mut ends = false;
    for item in items {
        ends = is_function(b"run_static_initializers", item);
    }
    ends
}

// Whether an item is valid, where one of this kind or a later one may stand.
fn can_stand(first: u8, item: &Item) -> bool
    ensures { result ≡ lists.can_stand first (item_view item.now) }
{
    first <= kind(item) && is_valid_item(item)
}

/// How many items come before the first one that isn't valid or is out of order; all, where there is none.
pub fn valid_front(items: &[Item]) -> usize
    ensures { result ≡ lists.valid_front 0 (map item_view items.now) }
{
    let mut first = 0;
    for index in 0..items.len() {
        let item = &items[index];
        if !can_stand(first, item) {
            return index;
        }
        first = next_kind(item);
    }
    items.len()
}

/// Whether items are valid, and in order, and the last is the initialiser.
pub fn are_valid_items(items: &[Item]) -> bool
    ensures { result ≡ valid.valid_items (map item_view items.now) }
{
    are_valid(items) && are_in_order(items) && ends_with_initialiser(items)
}

fn are_valid_modules(modules: &[Module]) -> bool
    ensures { result ≡ list_all (λ unit. valid.valid_items unit.items) (map module_view modules.now) }
{
    for module in modules {
        if !are_valid_items(module.items.as_slice()) {
            return false;
        }
    }
    true
}

fn are_module_names(modules: &[Module]) -> bool
    ensures { result ≡ list_all names.is_module_name (lists.names_of modules.now) }
{
    for module in modules {
        if !is_module_name(&module.name) {
            return false;
        }
    }
    true
}

fn have_name(modules: &[Module], name: &Name) -> bool
    ensures { result ≡ list_any (λ other. bytes_eq other name.now) (lists.names_of modules.now) }
{
    for module in modules {
        if module.name.bytes() == name.bytes() {
            return true;
        }
    }
    false
}

fn have_other_names(modules: &[Module]) -> bool
    ensures { result ≡ valid.all_differ (lists.names_of modules.now) }
{
    let mut rest = modules;
    while let [first, others @ ..] = rest {
        if have_name(others, &first.name) {
            return false;
        }
        rest = others;
    }
    true
}

/// Whether the names of modules are those of a crate's: from 1 to 64 names of modules, which differ.
pub fn have_valid_names(modules: &[Module]) -> bool
    ensures { result ≡ valid.valid_names (lists.names_of modules.now) }
{
    1 <= modules.len()
        && modules.len() <= 64
        && are_module_names(modules)
        && have_other_names(modules)
}

/// Whether a function with a body among these items is `main_0`.
pub fn have_main(items: &[Item]) -> bool
    ensures { result ≡ list_any (valid.is_function (codes "main_0")) (map item_view items.now) }
{
    for item in items {
        if is_function(b"main_0", item) {
            return true;
        }
    }
    false
}

#[tactic(auto, using(crate::proofs::Mapped::entry_mapped))]
fn has_entry(whole: &Crate) -> bool
    ensures { result ≡ valid.has_entry (slice_get (map module_view whole.now.modules) whole.now.entry) }
{
    match whole.modules.get(whole.entry as usize) {
        None => false,
        Some(module) => have_main(module.items.as_slice()),
    }
}

/// Whether a tree is a crate of the subset.
pub fn is_valid(whole: &Crate) -> bool
    ensures { result ≡ valid.valid_crate (crate_view whole.now) }
{
    have_valid_names(whole.modules.as_slice())
        && are_valid_modules(whole.modules.as_slice())
        && has_entry(whole)
}
