ghost use Rattle.std.specs.Prelude.{◌≡◌, ◌∷◌, [], ◌++◌, map, flat_map, IfOk, OnOk};
ghost use Rattle.straight_rust_tree.specs.Lines.{extern_line, allow_line, main_line, unsafe_line, closing_line, static_line, static_lines, outer_lines, item_lines, module_lines, declaration_line, initialiser_line, entry_name, exit_line, main_lines, cargo_lines, lines_of};
ghost use Rattle.straight_rust_tree.specs.Tree.{extern};
ghost use Rattle.straight_rust_tree.specs.View.{static_view, outer_view, item_view, module_view, crate_view};

use crate::draft::Draft;
use crate::expressions::type_text;
use crate::files::Line;
use crate::functions::{attribute, closing_line, function, outer};
use crate::tree::{Crate, Item, Module, Outer, Static};
use cr_base::{Items, Memory};
use std::alloc::Global;

/// The printed lines of all files of a crate, in the order in which the files are put: the modules,
/// `src/main.rs`, `Cargo.toml`. Refused only for want of memory.
pub fn lines_of(alloc: Global, whole: &Crate) -> Result<Items<Line>, Memory>
    ensures { IfOk result (λ lines. lines ≡ lines_of (crate_view whole.now)) }
{
    let mut lines = all_module_lines(alloc, whole.modules.as_slice())?;
    lines.append(main_lines(alloc, whole)?)?;
    lines.append(cargo_lines(alloc)?)?;
    Ok(lines)
}

fn all_module_lines(alloc: Global, modules: &[Module]) -> Result<Items<Line>, Memory>
    ensures { IfOk result (λ lines. lines ≡ flat_map module_lines (map module_view modules.now)) }
{
    let mut lines = Items::new(alloc);
    for module in modules {
        lines.append(module_lines(alloc, module)?)?;
    }
    Ok(lines)
}

/// The lines of a module's file. Refused only for want of memory.
pub fn module_lines(alloc: Global, module: &Module) -> Result<Items<Line>, Memory>
    ensures { IfOk result (λ lines. lines ≡ module_lines (module_view «module».now)) }
{
    all_item_lines(alloc, module.items.as_slice())
}

fn all_item_lines(alloc: Global, items: &[Item]) -> Result<Items<Line>, Memory>
    ensures { IfOk result (λ lines. lines ≡ flat_map item_lines (map item_view items.now)) }
{
    let mut lines = Items::new(alloc);
    for item in items {
        item_lines(alloc, &mut lines, item)?;
    }
    Ok(lines)
}

fn item_lines(alloc: Global, lines: &mut Items<Line>, item: &Item) -> Result<(), Memory>
    ensures { OnOk result (lines.new ≡ lines.old ++ item_lines (item_view item.now)) }
{
    match item {
        Item::Static(object) => static_lines(alloc, lines, object),
        Item::Extern(outers) => extern_lines(alloc, lines, outers.as_slice()),
        Item::Function(of) => function(alloc, lines, of),
    }
}

fn static_line(alloc: Global, object: &Static) -> Result<Line, Memory>
    ensures { IfOk result (λ made. made ≡ static_line (static_view object.now)) }
{
    let mut draft = Draft::new(alloc);
    draft.text("pub static mut ")?;
    draft.name(&object.name)?;
    draft.text(": ")?;
    draft.text(type_text(&object.ty))?;
    draft.text(" = unsafe { core::mem::zeroed() };")?;
    Ok(Line::of(0, draft))
}

fn static_lines(alloc: Global, lines: &mut Items<Line>, object: &Static) -> Result<(), Memory>
    ensures { OnOk result (lines.new ≡ lines.old ++ static_lines (static_view object.now)) }
{
    attribute(alloc, lines, &object.attribute)?;
    lines.push(static_line(alloc, object)?)?;
    Ok(())
}

#[tactic(auto, unfolding(crate::specs::Lines::extern_line))]
fn extern_line(alloc: Global) -> Result<Line, Memory>
    ensures { IfOk result (λ made. made ≡ extern_line) }
{
    Line::fixed(alloc, 0, "extern \"C\" {")
}

fn extern_lines(alloc: Global, lines: &mut Items<Line>, outers: &[Outer]) -> Result<(), Memory>
    ensures { OnOk result (lines.new ≡ lines.old ++ item_lines («extern» (map outer_view outers.now))) }
{
    lines.push(extern_line(alloc)?)?;
    all_outer_lines(alloc, lines, outers)?;
    lines.push(closing_line(alloc, 0)?)?;
    Ok(())
}

fn all_outer_lines(alloc: Global, lines: &mut Items<Line>, outers: &[Outer]) -> Result<(), Memory>
    ensures { OnOk result (lines.new ≡ lines.old ++ flat_map outer_lines (map outer_view outers.now)) }
{
    for one in outers {
        outer(alloc, lines, one)?;
    }
    Ok(())
}

#[tactic(auto, unfolding(crate::specs::Lines::allow_line))]
fn allow_line(alloc: Global) -> Result<Line, Memory>
    ensures { IfOk result (λ made. made ≡ allow_line) }
{
    Line::fixed(
        alloc,
        0,
        "#![allow(unconditional_panic, arithmetic_overflow)]",
    )
}

#[tactic(auto, unfolding(crate::specs::Lines::main_line))]
fn main_line(alloc: Global) -> Result<Line, Memory>
    ensures { IfOk result (λ made. made ≡ main_line) }
{
    Line::fixed(alloc, 0, "fn main() {")
}

#[tactic(auto, unfolding(crate::specs::Lines::unsafe_line))]
fn unsafe_line(alloc: Global) -> Result<Line, Memory>
    ensures { IfOk result (λ made. made ≡ unsafe_line) }
{
    Line::fixed(alloc, 1, "unsafe {")
}

/// The lines of `src/main.rs`. Refused only for want of memory.
pub fn main_lines(alloc: Global, whole: &Crate) -> Result<Items<Line>, Memory>
    ensures { IfOk result (λ lines. lines ≡ main_lines (crate_view whole.now)) }
{
    let modules = whole.modules.as_slice();
    let mut lines = Items::new(alloc);
    lines.push(allow_line(alloc)?)?;
    declarations(alloc, &mut lines, modules)?;
    lines.push(main_line(alloc)?)?;
    lines.push(unsafe_line(alloc)?)?;
    initialisers(alloc, &mut lines, modules)?;
    ending(alloc, &mut lines, whole)?;
    Ok(lines)
}

fn declarations(alloc: Global, lines: &mut Items<Line>, modules: &[Module]) -> Result<(), Memory>
    ensures { OnOk result (lines.new ≡ lines.old ++ map declaration_line (map module_view modules.now)) }
{
    for module in modules {
        lines.push(declaration_line(alloc, module)?)?;
    }
    Ok(())
}

fn declaration_line(alloc: Global, module: &Module) -> Result<Line, Memory>
    ensures { IfOk result (λ made. made ≡ declaration_line (module_view «module».now)) }
{
    let mut draft = Draft::new(alloc);
    draft.text("mod ")?;
    draft.name(&module.name)?;
    draft.text(";")?;
    Ok(Line::of(0, draft))
}

fn initialisers(alloc: Global, lines: &mut Items<Line>, modules: &[Module]) -> Result<(), Memory>
    ensures { OnOk result (lines.new ≡ lines.old ++ map initialiser_line (map module_view modules.now)) }
{
    for module in modules {
        lines.push(initialiser_line(alloc, module)?)?;
    }
    Ok(())
}

fn initialiser_line(alloc: Global, module: &Module) -> Result<Line, Memory>
    ensures { IfOk result (λ made. made ≡ initialiser_line (module_view «module».now)) }
{
    let mut draft = Draft::new(alloc);
    draft.text("crate::")?;
    draft.name(&module.name)?;
    draft.text("::run_static_initializers();")?;
    Ok(Line::of(2, draft))
}

// The name of the module that has `main_0` is written, and none where there is no such module.
fn entry_name(draft: &mut Draft, whole: &Crate) -> Result<(), Memory>
    ensures { OnOk result (draft.new ≡ draft.old ++ entry_name (crate_view whole.now)) }
{
    match whole.modules.get(whole.entry as usize) {
        Some(module) => draft.name(&module.name),
        None => Ok(()),
    }
}

#[tactic(auto, unfolding(crate::specs::Lines::exit_line))]
fn exit_line(alloc: Global, whole: &Crate) -> Result<Line, Memory>
    ensures { IfOk result (λ made. made ≡ exit_line (entry_name (crate_view whole.now))) }
{
    let mut draft = Draft::new(alloc);
    draft.text("std::process::exit(crate::")?;
    entry_name(&mut draft, whole)?;
    draft.text("::main_0());")?;
    Ok(Line::of(2, draft))
}

// The last lines of `src/main.rs`.
fn ending(alloc: Global, lines: &mut Items<Line>, whole: &Crate) -> Result<(), Memory>
    ensures { OnOk result (lines.new ≡ lines.old ++ exit_line (entry_name (crate_view whole.now)) ∷ closing_line 1 ∷ closing_line 0 ∷ []) }
{
    lines.push(exit_line(alloc, whole)?)?;
    lines.push(closing_line(alloc, 1)?)?;
    lines.push(closing_line(alloc, 0)?)?;
    Ok(())
}

#[tactic(auto, unfolding(crate::specs::Lines::cargo_lines))]
/// The lines of `Cargo.toml`. Refused only for want of memory.
pub fn cargo_lines(alloc: Global) -> Result<Items<Line>, Memory>
    ensures { IfOk result (λ lines. lines ≡ cargo_lines) }
{
    let mut lines = Items::new(alloc);
    lines.push(Line::fixed(alloc, 0, "[package]")?)?;
    lines.push(Line::fixed(alloc, 0, "name = \"translated\"")?)?;
    lines.push(Line::fixed(alloc, 0, "version = \"0.0.0\"")?)?;
    lines.push(Line::fixed(alloc, 0, "edition = \"2021\"")?)?;
    Ok(lines)
}
