//! Names of a written crate. `name keeps SCOPE NAME`, where SCOPE is `module`, `function` or `fields`: whether
//! this name of C is its own Rust name there. `name stem FILE`: the stem of a file's name. `name plain STEM`:
//! whether a module is named by this stem alone. `name temporaries COUNT NAME ..`: the numbers and
//! the names of so many temporaries beside these names. `name given WORD ..`: the Rust names of these names of C,
//! one behind the other; the words `@module`, `@function` and `@fields` begin a set, in which those behind them stand.
//! `name modules FILE ..`: the names of the modules of these files. `name kept COUNT`: how many of so many temporaries are known once
//! all of them are kept.

use cr_base::{Items, Name};
use row_words::{Answer, Asked};
use rs_items::{Known, NameMap, Named};
use rs_items_modules::module_names;
use rs_tree::{IntegerTy, RTy};
use std::alloc::Global;
use straight_items::{NameScope, Temporaries, is_plain, keeps_name, stem_of};

const SCOPES: [(&str, NameScope); 3] = [
    ("module", NameScope::Module),
    ("function", NameScope::Function),
    ("fields", NameScope::Fields),
];

pub(crate) fn answer(alloc: Global, asked: &mut Asked, out: &mut Answer) {
    match asked.word() {
        "keeps" => keeps(asked, out),
        "stem" => out.quoted(stem_of(asked.rest()).as_bytes()),
        "plain" => out.value(is_plain(asked.rest())),
        "temporaries" => temporaries(alloc, asked, out),
        "given" => given(alloc, asked, out),
        "modules" => modules(alloc, asked, out),
        "kept" => kept(alloc, asked, out),
        _ => asked.refuse(),
    }
}

fn keeps(asked: &mut Asked, out: &mut Answer) {
    if let Some(scope) = asked.named(&SCOPES) {
        out.value(keeps_name(scope, asked.rest().as_bytes()));
    }
}

fn temporaries(alloc: Global, asked: &mut Asked, out: &mut Answer) {
    let count: u32 = asked.number();
    let mut temporaries = Temporaries::new(alloc, names(alloc, asked));
    for _place in 0..count {
        if let Some(number) = asked.had(temporaries.fresh()) {
            out.value(number);
            out.text(" ");
        }
    }
    write_names(temporaries.names(), out);
}

fn given(alloc: Global, asked: &mut Asked, out: &mut Answer) {
    let mut names = NameMap::new(alloc, 0, false);
    let mut scope = rs_items::NameScope::Module;
    out.text("given");
    for word in asked.rest().split_ascii_whitespace() {
        if let Some(next) = set_of(word) {
            names.begin(next);
            scope = next;
        } else {
            asked.begin(word);
            let name = Name::of(asked.bytes(alloc));
            if let Some(name) = asked.had(names.rust_name(&name, scope)) {
                out.text(" ");
                out.bytes(name.bytes());
            }
        }
    }
}

// The set that a word begins.
fn set_of(word: &str) -> Option<rs_items::NameScope> {
    match word {
        "@module" => Some(rs_items::NameScope::Module),
        "@function" => Some(rs_items::NameScope::Function),
        "@fields" => Some(rs_items::NameScope::Fields),
        _ => None,
    }
}

fn modules(alloc: Global, asked: &mut Asked, out: &mut Answer) {
    let files = names(alloc, asked);
    if let Some(names) = asked.had(module_names(alloc, files.as_slice())) {
        write_names(names.as_slice(), out);
    }
}

fn kept(alloc: Global, asked: &mut Asked, out: &mut Answer) {
    let count: u32 = asked.number();
    let mut names = NameMap::new(alloc, 0, false);
    for number in 0..count {
        asked.had(names.keep(temporary(alloc, number)));
    }
    out.value(known_temporaries(&names, count));
}

// What a temporary has become that is an `int`.
fn temporary(alloc: Global, number: u32) -> Known {
    Known {
        named: Named::Temporary(number),
        unit: 0,
        module: None,
        name: Name::of(Vec::new(alloc)),
        symbol: None,
        ty: RTy::Integer(IntegerTy::I32),
        size: 4,
    }
}

// How many of the first temporaries are known.
fn known_temporaries(names: &NameMap, count: u32) -> u32 {
    let mut known: u32 = 0;
    for number in 0..count {
        if names.known(Named::Temporary(number)).is_some() {
            known = known.saturating_add(1);
        }
    }
    known
}

fn write_names(names: &[Name], out: &mut Answer) {
    out.text("named");
    for name in names {
        out.text(" ");
        out.bytes(name.bytes());
    }
}

// The words that are left.
fn names(alloc: Global, asked: &mut Asked) -> Items<Name> {
    let mut names = Items::new(alloc);
    for word in asked.rest().split_ascii_whitespace() {
        asked.begin(word);
        let name = Name::of(asked.bytes(alloc));
        asked.had(names.push(name));
    }
    names
}
