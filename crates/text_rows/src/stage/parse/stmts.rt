//! Statements (ISO C99, 6.8): `(label x S)`, `(case E S)`, `(default S)`, `(block ITEM ..)`, `(expr E)`, `(expr _)`,
//! `(if E S)`, `(if E S S)`, `(switch E S)`, `(while E S)`, `(do S E)`, `(for FIRST E E S)`, `(goto x)`,
//! `(continue)`, `(break)`, `(return E)`, `(return _)`, where `_` is for an expression that isn't there.

use crate::stage::parse::declarations::write_decl;
use crate::stage::parse::exprs::{write_expr, write_option};
use cr_base::{Boxed, Name};
use cx_tree::{BlockItem, Expr, ForFirst, Stmt};
use row_words::Answer;

#[cycle(stmt_forms)]
pub(crate) fn write_stmt(stmt: &Stmt, out: &mut Answer) {
    match stmt {
        Stmt::Label { name, stmt, .. } => {
            write_named("(label ", name, out);
            write_body(stmt, out);
        }
        Stmt::Case { value, stmt, .. } => {
            write_head("(case ", value, out);
            write_body(stmt, out);
        }
        Stmt::Default { stmt, .. } => {
            out.text("(default");
            write_body(stmt, out);
        }
        Stmt::Block { items, .. } => write_items(items.as_slice(), out),
        Stmt::Expr { expr, .. } => write_valued("(expr ", expr, out),
        Stmt::Goto { name, .. } => write_named("(goto ", name, out),
        Stmt::Continue { .. } => out.text("(continue"),
        Stmt::Break { .. } => out.text("(break"),
        Stmt::Return { value, .. } => write_valued("(return ", value, out),
        _ => write_control(stmt, out),
    }
    out.text(")");
}

// Writes a selection or an iteration (6.8.4, 6.8.5) without its end.
#[cycle(stmt_forms)]
fn write_control(stmt: &Stmt, out: &mut Answer) {
    match stmt {
        Stmt::If {
            condition,
            branch,
            otherwise,
            ..
        } => {
            write_head("(if ", condition, out);
            write_body(branch, out);
            if let Some(otherwise) = otherwise {
                write_body(otherwise, out);
            }
        }
        Stmt::Switch { on, body, .. } => {
            write_head("(switch ", on, out);
            write_body(body, out);
        }
        Stmt::While {
            condition,
            body,
            ..
        } => {
            write_head("(while ", condition, out);
            write_body(body, out);
        }
        Stmt::Do {
            body,
            condition,
            ..
        } => write_do(body, condition, out),
        Stmt::For {
            first,
            second,
            third,
            body,
            ..
        } => {
            write_clauses(first, second, third, out);
            write_body(body, out);
        }
        _ => {}
    }
}

// Writes a blank and a statement.
#[cycle(stmt_forms)]
fn write_body(body: &Boxed<Stmt>, out: &mut Answer) {
    out.text(" ");
    write_stmt(body.get(), out);
}

fn write_head(node: &str, head: &Boxed<Expr>, out: &mut Answer) {
    out.text(node);
    write_expr(head.get(), out);
}

#[cycle(stmt_forms)]
fn write_do(body: &Boxed<Stmt>, condition: &Boxed<Expr>, out: &mut Answer) {
    out.text("(do");
    write_body(body, out);
    out.text(" ");
    write_expr(condition.get(), out);
}

#[cycle(stmt_forms)]
fn write_items(items: &[BlockItem], out: &mut Answer) {
    out.text("(block");
    for item in items {
        out.text(" ");
        write_item(item, out);
    }
}

#[cycle(stmt_forms)]
fn write_item(item: &BlockItem, out: &mut Answer) {
    match item {
        BlockItem::Statement(stmt) => write_stmt(stmt.get(), out),
        BlockItem::Declaration(decl) => write_decl(decl.get(), out),
    }
}

fn write_named(node: &str, name: &Name, out: &mut Answer) {
    out.text(node);
    out.bytes(name.bytes());
}

fn write_valued(node: &str, value: &Option<Boxed<Expr>>, out: &mut Answer) {
    out.text(node);
    write_option(value, out);
}

// Writes the clauses of a `for` statement.
fn write_clauses(
    first: &ForFirst,
    second: &Option<Boxed<Expr>>,
    third: &Option<Boxed<Expr>>,
    out: &mut Answer,
) {
    out.text("(for ");
    match first {
        ForFirst::Value(value) => write_option(value, out),
        ForFirst::Declared(decl) => write_decl(decl.get(), out),
    }
    out.text(" ");
    write_option(second, out);
    out.text(" ");
    write_option(third, out);
}
