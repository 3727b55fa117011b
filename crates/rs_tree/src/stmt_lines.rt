//! The lines of statements (the Rust Reference, "Statements"), each at the depth of the braces around it.
#![tactic(auto, using(crate::proofs::Growing::growing_lines))]

ghost use Rattle.std.specs.Prelude.{◌≡◌, ◌++◌, [], ◌∷◌, ◌+◌, map, option_map, codes};
ghost use Rattle.rs_text.specs.Lines as text;
ghost use Rattle.rs_text.specs.Lines.{line};
ghost use Rattle.rs_text.specs.Parts as parts;
ghost use Rattle.rs_text.specs.Printing.{Appends};
ghost use Rattle.rs_text.specs.Tree as tree;
ghost use Rattle.rs_text.specs.Tree.{stmts, arms};
ghost use Rattle.rs_tree.specs.Views.{place_view, expr_view, stmt_view, arm_view};

use crate::expr::{RExpr, RPlace};
use crate::expr_text::{put_between, put_literal, put_place};
use crate::page::Page;
use crate::stmt::{Arm, RStmt};
use cr_base::{Boxed, Int, Items, Name};
use rs_text::IntegerTy;

// Prints the line of an expression between two texts.
fn expr_line(page: &mut Page, depth: u32, before: &str, value: &Boxed<RExpr>, after: &str)
    ensures { Appends page.old page.new (line depth (before.now ++ (text.expr_text (expr_view value.now) ++ after.now)) ∷ []) }
{
    let mut draft = page.draft();
    put_between(&mut draft, before, value, after);
    page.line(depth, draft);
}

fn assign_line(page: &mut Page, depth: u32, place: &Boxed<RPlace>, value: &Boxed<RExpr>)
    ensures { Appends page.old page.new (text.stmt_lines depth (tree.Assign (place_view place.now) (expr_view value.now))) }
{
    let mut draft = page.draft();
    put_place(&mut draft, place.get());
    put_between(&mut draft, " = ", value, ";");
    page.line(depth, draft);
}

fn copy_line(
    page: &mut Page,
    depth: u32,
    source: &Boxed<RExpr>,
    target: &Boxed<RExpr>,
    count: &Boxed<RExpr>,
)
    ensures { Appends page.old page.new (text.stmt_lines depth (tree.CopyBytes (expr_view source.now) (expr_view target.now) (expr_view count.now))) }
{
    let mut draft = page.draft();
    put_between(&mut draft, "core::ptr::copy(", source, ", ");
    put_between(&mut draft, "", target, ", ");
    put_between(&mut draft, "", count, ");");
    page.line(depth, draft);
}

fn loop_line(page: &mut Page, depth: u32, label: &Option<Name>)
    ensures { Appends page.old page.new (text.loop_line depth label.now ∷ []) }
{
    match label {
        None => page.fixed(depth, "loop {"),
        Some(label) => page.around(depth, "'", label, ": loop {"),
    }
}

fn return_line(page: &mut Page, depth: u32, value: &Option<Boxed<RExpr>>)
    ensures { Appends page.old page.new (text.return_line depth (option_map expr_view value.now) ∷ []) }
{
    match value {
        None => page.fixed(depth, "return;"),
        Some(value) => expr_line(page, depth, "return ", value, ";"),
    }
}

fn arm_line(page: &mut Page, depth: u32, value: Int, ty: IntegerTy)
    ensures { Appends page.old page.new (line depth (text.literal_text value ty ++ codes " => {") ∷ []) }
{
    let mut draft = page.draft();
    put_literal(&mut draft, value, ty);
    draft.text(" => {");
    page.line(depth, draft);
}

#[cycle(stmt_lines)]
#[tactic(auto, using(crate::proofs::Growing::growing_lines, crate::proofs::PartLemmas::stmt_in_parts))]
fn put_stmt(page: &mut Page, depth: u32, stmt: &RStmt)
    ensures { Appends page.old page.new (text.stmt_lines depth (stmt_view stmt.now)) }
{
    put_simple(page, depth, stmt);
    put_compound(page, depth, stmt);
}

// Prints the line of a statement without others in it, or nothing.
fn put_simple(page: &mut Page, depth: u32, stmt: &RStmt)
    ensures { Appends page.old page.new (parts.simple_lines depth (stmt_view stmt.now)) }
{
    match stmt {
        RStmt::Assign(place, value) => assign_line(page, depth, place, value),
        RStmt::Eval(value) => expr_line(page, depth, "", value, ";"),
        RStmt::CopyBytes(source, target, count) => copy_line(page, depth, source, target, count),
        RStmt::Break(label) => page.around(depth, "break '", label, ";"),
        RStmt::Continue(label) => page.around(depth, "continue '", label, ";"),
        RStmt::Return(value) => return_line(page, depth, value),
        _ => {}
    }
}

// Prints the lines of a statement that holds others, or nothing.
#[cycle(stmt_lines)]
fn put_compound(page: &mut Page, depth: u32, stmt: &RStmt)
    ensures { Appends page.old page.new (parts.compound_lines depth (stmt_view stmt.now)) }
{
    match stmt {
        RStmt::If(condition, if_true, if_false) => {
            expr_line(page, depth, "if ", condition, " {");
            put_inner(page, depth, if_true);
            put_else(page, depth, if_false);
            page.fixed(depth, "}");
        }
        RStmt::Loop(label, body) => {
            loop_line(page, depth, label);
            put_body(page, depth, body);
        }
        RStmt::Block(label, body) => {
            page.around(depth, "'", label, ": {");
            put_body(page, depth, body);
        }
        RStmt::Match(value, cases, other) => {
            expr_line(page, depth, "match ", value, " {");
            put_arms(page, depth, cases);
            put_other(page, depth, other);
        }
        _ => {}
    }
}

/// Prints statements at a depth.
#[cycle(stmt_lines)]
pub(crate) fn put_stmts(page: &mut Page, depth: u32, body: &Items<RStmt>)
    ensures { Appends page.old page.new (text.stmts_lines depth (stmts (map stmt_view body.now))) }
{
    for stmt in body.as_slice() {
        put_stmt(page, depth, stmt);
    }
}

// Prints statements one brace deeper.
#[cycle(stmt_lines)]
fn put_inner(page: &mut Page, depth: u32, body: &Items<RStmt>)
    ensures { Appends page.old page.new (text.stmts_lines (depth + 1) (stmts (map stmt_view body.now))) }
{
    match depth.checked_add(1) {
        Some(deeper) => put_stmts(page, deeper, body),
        None => page.stop(),
    }
}

// Prints statements one brace deeper, and the closing brace.
#[cycle(stmt_lines)]
fn put_body(page: &mut Page, depth: u32, body: &Items<RStmt>)
    ensures { Appends page.old page.new (text.stmts_lines (depth + 1) (stmts (map stmt_view body.now)) ++ (text.closing depth ∷ [])) }
{
    put_inner(page, depth, body);
    page.fixed(depth, "}");
}

// Prints `} else {` and its statements, where there are some.
#[cycle(stmt_lines)]
fn put_else(page: &mut Page, depth: u32, body: &Items<RStmt>)
    ensures { Appends page.old page.new (text.else_lines depth (stmts (map stmt_view body.now)) (text.stmts_lines (depth + 1) (stmts (map stmt_view body.now)))) }
{
    let Some(_) = body.as_slice().split_first() else {
        return;
    };
    page.fixed(depth, "} else {");
    put_inner(page, depth, body);
}

// Prints the arms of literals, one brace deeper.
#[cycle(stmt_lines)]
fn put_arms(page: &mut Page, depth: u32, cases: &Items<Arm>)
    ensures { Appends page.old page.new (text.arms_lines (depth + 1) (arms (map arm_view cases.now))) }
{
    let Some(deeper) = depth.checked_add(1) else {
        return page.stop();
    };
    for arm in cases.as_slice() {
        put_arm(page, deeper, arm);
    }
}

#[cycle(stmt_lines)]
fn put_arm(page: &mut Page, depth: u32, arm: &Arm)
    ensures { Appends page.old page.new (text.arm_lines depth (arm_view arm.now)) }
{
    arm_line(page, depth, arm.value, arm.ty);
    put_body(page, depth, &arm.body);
}

// Prints the arm `_`, one brace deeper, and the closing brace of the `match`.
#[cycle(stmt_lines)]
fn put_other(page: &mut Page, depth: u32, body: &Items<RStmt>)
    ensures { Appends page.old page.new (line (depth + 1) (codes "_ => {") ∷ (text.stmts_lines (depth + 1 + 1) (stmts (map stmt_view body.now)) ++ (text.closing (depth + 1) ∷ text.closing depth ∷ []))) }
{
    let Some(deeper) = depth.checked_add(1) else {
        return page.stop();
    };
    page.fixed(deeper, "_ => {");
    put_body(page, deeper, body);
    page.fixed(depth, "}");
}
