ghost use Rattle.std.specs.Prelude.{◌≡◌, ◌∷◌, [], ◌++◌, map, IfOk, OnOk, option_map, drop};
ghost use Rattle.straight_rust_tree.specs.Lines.{symbol_line, no_mangle_line, export_line, link_line, closing_line, result_text, attribute_lines, link_name_lines, outer_lines, outer_param, outer_params, variadic_params, local_line, typed_text, param_text, listed, behind_comma, stmt_lines, stmts_lines, function_head, function_lines, outer_line};
ghost use Rattle.straight_rust_tree.specs.Tree.{stmts};
ghost use Rattle.straight_rust_tree.specs.View.{ty_view, stmt_view, local_view, outer_view, function_view};

use crate::draft::Draft;
use crate::expressions::{statement, type_text};
use crate::files::Line;
use crate::tree::{Attribute, Function, Local, Outer, RStmt, RTy};
use cr_base::{Int, Items, Memory, Name};
use std::alloc::Global;

// The line of an attribute that gives a symbol.
fn symbol_line(alloc: Global, depth: u32, start: &str, symbol: &Name) -> Result<Line, Memory>
    ensures { IfOk result (λ made. made ≡ symbol_line depth start.now symbol.now) }
{
    let mut draft = Draft::new(alloc);
    draft.text(start)?;
    draft.name(symbol)?;
    draft.text("\"]")?;
    Ok(Line::of(depth, draft))
}

#[tactic(auto, unfolding(crate::specs::Lines::no_mangle_line))]
fn no_mangle_line(alloc: Global) -> Result<Line, Memory>
    ensures { IfOk result (λ made. made ≡ no_mangle_line) }
{
    Line::fixed(alloc, 0, "#[no_mangle]")
}

#[tactic(auto, unfolding(crate::specs::Lines::export_line))]
fn export_line(alloc: Global, symbol: &Name) -> Result<Line, Memory>
    ensures { IfOk result (λ made. made ≡ export_line symbol.now) }
{
    symbol_line(alloc, 0, "#[export_name = \"", symbol)
}

/// The line of an attribute, if there is one.
pub(crate) fn attribute(
    alloc: Global,
    lines: &mut Items<Line>,
    attribute: &Attribute,
) -> Result<(), Memory>
    ensures { OnOk result (lines.new ≡ lines.old ++ attribute_lines attribute.now) }
{
    match attribute {
        Attribute::Mangled => Ok(()),
        Attribute::NoMangle => {
            lines.push(no_mangle_line(alloc)?)?;
            Ok(())
        }
        Attribute::ExportName(symbol) => {
            lines.push(export_line(alloc, symbol)?)?;
            Ok(())
        }
    }
}

#[tactic(auto, unfolding(crate::specs::Lines::closing_line))]
pub(crate) fn closing_line(alloc: Global, depth: u32) -> Result<Line, Memory>
    ensures { IfOk result (λ made. made ≡ closing_line depth) }
{
    Line::fixed(alloc, depth, "}")
}

// The result in a function's head, if it has one.
fn result(draft: &mut Draft, ty: &Option<RTy>) -> Result<(), Memory>
    ensures { OnOk result (draft.new ≡ draft.old ++ result_text (option_map ty_view ty.now)) }
{
    match ty {
        None => Ok(()),
        Some(ty) => {
            draft.text(" -> ")?;
            draft.text(type_text(ty))
        }
    }
}

// ---- functions with a body

// A name and its type.
fn typed(draft: &mut Draft, local: &Local) -> Result<(), Memory>
    ensures { OnOk result (draft.new ≡ draft.old ++ typed_text (local_view local.now)) }
{
    draft.name(&local.name)?;
    draft.text(": ")?;
    draft.text(type_text(&local.ty))
}

fn param(draft: &mut Draft, param: &Local) -> Result<(), Memory>
    ensures { OnOk result (draft.new ≡ draft.old ++ param_text (local_view param.now)) }
{
    draft.text("mut ")?;
    typed(draft, param)
}

// The parameters, with a comma and a blank between two.
fn params(draft: &mut Draft, params: &[Local]) -> Result<(), Memory>
    ensures { OnOk result (draft.new ≡ draft.old ++ listed (map param_text (map local_view params.now))) }
{
    let Some((first, others)) = params.split_first() else {
        return Ok(());
    };
    param(draft, first)?;
    more_params(draft, others)
}

fn more_params(draft: &mut Draft, params: &[Local]) -> Result<(), Memory>
    ensures { OnOk result (draft.new ≡ draft.old ++ behind_comma (map param_text (map local_view params.now))) }
{
    for one in params {
        draft.text(", ")?;
        param(draft, one)?;
    }
    Ok(())
}

fn local_line(alloc: Global, local: &Local) -> Result<Line, Memory>
    ensures { IfOk result (λ made. made ≡ local_line (local_view local.now)) }
{
    let mut draft = Draft::new(alloc);
    draft.text("let mut ")?;
    typed(&mut draft, local)?;
    draft.text(" = core::mem::zeroed();")?;
    Ok(Line::of(1, draft))
}

fn local_lines(alloc: Global, lines: &mut Items<Line>, locals: &[Local]) -> Result<(), Memory>
    ensures { OnOk result (lines.new ≡ lines.old ++ map local_line (map local_view locals.now)) }
{
    for local in locals {
        lines.push(local_line(alloc, local)?)?;
    }
    Ok(())
}

fn statement_line(alloc: Global, depth: u32, of: &RStmt) -> Result<Line, Memory>
    ensures { IfOk result (λ made. made ∷ [] ≡ stmt_lines depth (stmt_view of.now)) }
{
    let mut draft = Draft::new(alloc);
    statement(&mut draft, of)?;
    Ok(Line::of(depth, draft))
}

fn statement_lines(
    alloc: Global,
    lines: &mut Items<Line>,
    depth: u32,
    body: &[RStmt],
) -> Result<(), Memory>
    ensures { OnOk result (lines.new ≡ lines.old ++ stmts_lines depth (stmts (map stmt_view body.now))) }
{
    for one in body {
        lines.push(statement_line(alloc, depth, one)?)?;
    }
    Ok(())
}

// The line of a function's head.
fn function_head(alloc: Global, function: &Function) -> Result<Line, Memory>
    ensures { IfOk result (λ made. made ≡ function_head (function_view function.now)) }
{
    let mut draft = Draft::new(alloc);
    draft.text("pub unsafe extern \"C\" fn ")?;
    draft.name(&function.name)?;
    draft.text("(")?;
    params(&mut draft, function.params.as_slice())?;
    draft.text(")")?;
    result(&mut draft, &function.result)?;
    draft.text(" {")?;
    Ok(Line::of(0, draft))
}

/// The lines of a function with a body.
pub(crate) fn function(
    alloc: Global,
    lines: &mut Items<Line>,
    function: &Function,
) -> Result<(), Memory>
    ensures { OnOk result (lines.new ≡ lines.old ++ function_lines (function_view function.now)) }
{
    attribute(alloc, lines, &function.attribute)?;
    lines.push(function_head(alloc, function)?)?;
    local_lines(alloc, lines, function.locals.as_slice())?;
    statement_lines(alloc, lines, 1, function.body.as_slice())?;
    lines.push(closing_line(alloc, 0)?)?;
    Ok(())
}

// ---- external functions

// A parameter of an external function, by its number from 0.
fn outer_param(draft: &mut Draft, number: usize, ty: &RTy) -> Result<(), Memory>
    ensures { OnOk result (draft.new ≡ draft.old ++ outer_param number (ty_view ty.now)) }
{
    draft.text("a")?;
    draft.number(number as Int)?;
    draft.text(": ")?;
    draft.text(type_text(ty))
}

// The parameters behind the first.
fn more_outer_params(draft: &mut Draft, params: &[RTy]) -> Result<(), Memory>
    ensures { OnOk result (draft.new ≡ draft.old ++ behind_comma (outer_params 1 (map ty_view params.now))) }
{
    for index in 0..params.len() {
        draft.text(", ")?;
        outer_param(draft, index + 1, &params[index])?;
    }
    Ok(())
}

// `...` where it stands behind a parameter.
fn more_variadic(draft: &mut Draft, variadic: bool) -> Result<(), Memory>
    ensures { OnOk result (draft.new ≡ draft.old ++ behind_comma (variadic_params variadic)) }
{
    if variadic {
        return draft.text(", ...");
    }
    Ok(())
}

// `...` where it stands alone.
fn alone_variadic(draft: &mut Draft, variadic: bool) -> Result<(), Memory>
    ensures { OnOk result (draft.new ≡ draft.old ++ listed (variadic_params variadic)) }
{
    if variadic {
        return draft.text("...");
    }
    Ok(())
}

// The parameters of an external function, with a comma and a blank between two.
fn all_outer_params(draft: &mut Draft, params: &[RTy], variadic: bool) -> Result<(), Memory>
    ensures { OnOk result (draft.new ≡ draft.old ++ listed (outer_params 0 (map ty_view params.now) ++ variadic_params variadic)) }
{
    let Some((first, others)) = params.split_first() else {
        return alone_variadic(draft, variadic);
    };
    outer_param(draft, 0, first)?;
    more_outer_params(draft, others)?;
    more_variadic(draft, variadic)?;
    Ok(())
}

#[tactic(auto, unfolding(crate::specs::Lines::link_line))]
fn link_line(alloc: Global, symbol: &Name) -> Result<Line, Memory>
    ensures { IfOk result (λ made. made ≡ link_line symbol.now) }
{
    symbol_line(alloc, 1, "#[link_name = \"", symbol)
}

fn link_name(alloc: Global, lines: &mut Items<Line>, symbol: &Option<Name>) -> Result<(), Memory>
    ensures { OnOk result (lines.new ≡ lines.old ++ link_name_lines symbol.now) }
{
    match symbol {
        None => Ok(()),
        Some(symbol) => {
            lines.push(link_line(alloc, symbol)?)?;
            Ok(())
        }
    }
}

fn outer_line(alloc: Global, outer: &Outer) -> Result<Line, Memory>
    ensures { IfOk result (λ made. made ≡ outer_line (outer_view outer.now)) }
{
    let mut draft = Draft::new(alloc);
    draft.text("pub fn ")?;
    draft.name(&outer.name)?;
    draft.text("(")?;
    all_outer_params(&mut draft, outer.params.as_slice(), outer.variadic)?;
    draft.text(")")?;
    result(&mut draft, &outer.result)?;
    draft.text(";")?;
    Ok(Line::of(1, draft))
}

/// The lines of an external function.
pub(crate) fn outer(alloc: Global, lines: &mut Items<Line>, outer: &Outer) -> Result<(), Memory>
    ensures { OnOk result (lines.new ≡ lines.old ++ outer_lines (outer_view outer.now)) }
{
    link_name(alloc, lines, &outer.link_name)?;
    lines.push(outer_line(alloc, outer)?)?;
    Ok(())
}
