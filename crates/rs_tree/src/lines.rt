//! The printed lines of all files of a crate.
#![tactic(auto, using(crate::proofs::Growing::growing_lines))]

ghost use Rattle.std.specs.Prelude.{◌≡◌, ◌++◌, [], ◌∷◌, map, IfOk};
ghost use Rattle.std.specs.List.{flat_map};
ghost use Rattle.rs_text.specs.Lines as text;
ghost use Rattle.rs_text.specs.Printing.{Appends};
ghost use Rattle.rs_tree.specs.Views.{module_view, crate_view};

use crate::draft::Draft;
use crate::item::{Crate, Module};
use crate::item_lines::put_items;
use crate::page::Page;
use crate::words::{exit_of, initialiser_of};
use cr_base::{Items, Memory};
use rs_text::Line;
use std::alloc::Global;

/// The printed lines of all files of a crate, in the order in which the files are put: the modules,
/// `src/main.rs`, `Cargo.toml`. Refused only for want of memory.
pub fn lines_of(alloc: Global, whole: &Crate) -> Result<Items<Line>, Memory>
    ensures { IfOk result (λ lines. lines ≡ text.lines_of (crate_view whole.now)) }
{
    let mut page = Page::new(alloc);
    put_modules(&mut page, whole.modules.as_slice());
    put_main(&mut page, whole);
    put_cargo(&mut page);
    page.finish()
}

/// The lines of a module's file. Refused only for want of memory.
pub fn module_lines(alloc: Global, module: &Module) -> Result<Items<Line>, Memory>
    ensures { IfOk result (λ lines. lines ≡ text.module_lines (module_view «module».now)) }
{
    let mut page = Page::new(alloc);
    put_items(&mut page, module.items.as_slice());
    page.finish()
}

/// The lines of `src/main.rs`. Refused only for want of memory.
pub fn main_lines(alloc: Global, whole: &Crate) -> Result<Items<Line>, Memory>
    ensures { IfOk result (λ lines. lines ≡ text.main_lines (crate_view whole.now)) }
{
    let mut page = Page::new(alloc);
    put_main(&mut page, whole);
    page.finish()
}

/// The lines of `Cargo.toml`. Refused only for want of memory.
pub fn cargo_lines(alloc: Global) -> Result<Items<Line>, Memory>
    ensures { IfOk result (λ lines. lines ≡ text.cargo_lines) }
{
    let mut page = Page::new(alloc);
    put_cargo(&mut page);
    page.finish()
}

fn put_modules(page: &mut Page, modules: &[Module])
    ensures { Appends page.old page.new (flat_map text.module_lines (map module_view modules.now)) }
{
    for module in modules {
        put_items(page, module.items.as_slice());
    }
}

fn put_main(page: &mut Page, whole: &Crate)
    ensures { Appends page.old page.new (text.main_lines (crate_view whole.now)) }
{
    allow_line(page);
    declaration_lines(page, &whole.modules);
    page.fixed(0, "fn main() {");
    page.fixed(1, "unsafe {");
    initialiser_lines(page, &whole.modules);
    exit_line(page, whole);
    page.fixed(1, "}");
    page.fixed(0, "}");
}

#[tactic(auto, unfolding(rs_text::specs::Lines::allow_line))]
fn allow_line(page: &mut Page)
    ensures { Appends page.old page.new (text.allow_line ∷ []) }
{
    page.fixed(0, "#![allow(unconditional_panic, arithmetic_overflow)]");
}

fn declaration_lines(page: &mut Page, modules: &Items<Module>)
    ensures { Appends page.old page.new (map text.declaration_line (map (λ unit. unit.name) (map module_view modules.now))) }
{
    for module in modules.as_slice() {
        page.around(0, "mod ", &module.name, ";");
    }
}

fn initialiser_lines(page: &mut Page, modules: &Items<Module>)
    ensures { Appends page.old page.new (map text.initialiser_line (map (λ unit. unit.name) (map module_view modules.now))) }
{
    for module in modules.as_slice() {
        page.around(2, "crate::", &module.name, initialiser_of());
    }
}

// Writes the name of the module that has `main_0`, and nothing where there is no such module.
fn put_entry(draft: &mut Draft, whole: &Crate)
    ensures { Appends draft.old draft.new (text.entry_name (crate_view whole.now)) }
{
    if let Some(module) = whole.modules.get(whole.entry as usize) {
        draft.name(&module.name);
    }
}

fn exit_line(page: &mut Page, whole: &Crate)
    ensures { Appends page.old page.new (text.exit_line (text.entry_name (crate_view whole.now)) ∷ []) }
{
    let mut draft = page.draft();
    draft.text(exit_of());
    put_entry(&mut draft, whole);
    draft.text("::main_0());");
    page.line(2, draft);
}

#[tactic(auto, using(crate::proofs::Growing::growing_lines), unfolding(rs_text::specs::Lines::cargo_lines))]
fn put_cargo(page: &mut Page)
    ensures { Appends page.old page.new text.cargo_lines }
{
    page.fixed(0, "[package]");
    page.fixed(0, "name = \"translated\"");
    page.fixed(0, "version = \"0.0.0\"");
    page.fixed(0, "edition = \"2021\"");
}
