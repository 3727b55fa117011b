//! Readers of statements that hold no others.

ghost use Rattle.std.specs.Prelude.{◌≡◌, option_map};
ghost use Rattle.rs_expr.specs.Reading.{Gives};
ghost use Rattle.rs_item.specs.Stmts as reader;
ghost use Rattle.rs_tree.specs.Views.{expr_view, stmt_view};

use cr_base::{Boxed, Memory};
use rs_expr::{Cursor, Sign, expr, place_of};
use rs_tree::{RExpr, RStmt};
use std::alloc::Global;

/// Whether no arm of a literal stands here.
pub(crate) fn ends_arms(sign: Sign) -> bool
    ensures { result ≡ reader.ends_arms sign }
{
    match sign {
        Sign::End | Sign::Underscore => true,
        _ => false,
    }
}

/// Whether no statement stands here.
pub(crate) fn ends_block(sign: Sign) -> bool
    ensures { result ≡ reader.ends_block sign }
{
    match sign {
        Sign::End | Sign::RightBrace => true,
        _ => false,
    }
}

/// Reads an expression. Refused only for want of memory.
pub(crate) fn read_expr(alloc: Global, cursor: &mut Cursor<'_>) -> Result<Boxed<RExpr>, Memory>
    ensures { Gives (λ e. expr_view e) result cursor.new (reader.read_expr cursor.old) }
{
    expr(alloc, cursor, cursor.len())
}

/// Reads `break 'l;`.
#[tactic(auto, unfolding(crate::specs::Stmts::break_stmt))]
pub(crate) fn break_stmt(alloc: Global, cursor: &mut Cursor<'_>) -> Result<Boxed<RStmt>, Memory>
    ensures { Gives (λ s. stmt_view s) result cursor.new (reader.break_stmt cursor.old) }
{
    cursor.skip(1);
    let label = cursor.name(alloc)?;
    cursor.skip(1);
    Boxed::new(alloc, RStmt::Break(label))
}

/// Reads `continue 'l;`.
#[tactic(auto, unfolding(crate::specs::Stmts::continue_stmt))]
pub(crate) fn continue_stmt(alloc: Global, cursor: &mut Cursor<'_>) -> Result<Boxed<RStmt>, Memory>
    ensures { Gives (λ s. stmt_view s) result cursor.new (reader.continue_stmt cursor.old) }
{
    cursor.skip(1);
    let label = cursor.name(alloc)?;
    cursor.skip(1);
    Boxed::new(alloc, RStmt::Continue(label))
}

// The value of a `return`, behind its word.
fn returned(alloc: Global, cursor: &mut Cursor<'_>) -> Result<Option<Boxed<RExpr>>, Memory>
    ensures { Gives (λ e. option_map expr_view e) result cursor.new (reader.returned cursor.old) }
{
    if cursor.peek() == Sign::Semicolon {
        return Ok(None);
    }
    let value = read_expr(alloc, cursor)?;
    Ok(Some(value))
}

/// Reads `return e;`, or `return;`.
#[tactic(auto, unfolding(crate::specs::Stmts::return_stmt))]
pub(crate) fn return_stmt(alloc: Global, cursor: &mut Cursor<'_>) -> Result<Boxed<RStmt>, Memory>
    ensures { Gives (λ s. stmt_view s) result cursor.new (reader.return_stmt cursor.old) }
{
    cursor.skip(1);
    let value = returned(alloc, cursor)?;
    cursor.skip(1);
    Boxed::new(alloc, RStmt::Return(value))
}

// An expression and the mark behind it.
#[tactic(auto, unfolding(crate::specs::Stmts::copied))]
fn copied(alloc: Global, cursor: &mut Cursor<'_>) -> Result<Boxed<RExpr>, Memory>
    ensures { Gives (λ e. expr_view e) result cursor.new (reader.copied cursor.old) }
{
    let read = read_expr(alloc, cursor)?;
    cursor.skip(1);
    Ok(read)
}

// `core::ptr::copy(e, e, e);`
#[tactic(auto, unfolding(crate::specs::Stmts::copy_stmt))]
fn copy_stmt(alloc: Global, cursor: &mut Cursor<'_>) -> Result<Boxed<RStmt>, Memory>
    ensures { Gives (λ s. stmt_view s) result cursor.new (reader.copy_stmt cursor.old) }
{
    cursor.skip(6);
    let source = copied(alloc, cursor)?;
    let target = copied(alloc, cursor)?;
    let count = copied(alloc, cursor)?;
    cursor.skip(1);
    Boxed::new(alloc, RStmt::CopyBytes(source, target, count))
}

// `= e;`
#[tactic(auto, unfolding(crate::specs::Stmts::assigned))]
fn assigned(
    alloc: Global,
    cursor: &mut Cursor<'_>,
    left: Boxed<RExpr>,
) -> Result<Boxed<RStmt>, Memory>
    ensures { Gives (λ s. stmt_view s) result cursor.new (reader.assigned (expr_view left) cursor.old) }
{
    let place = place_of(alloc, left)?;
    cursor.skip(1);
    let value = copied(alloc, cursor)?;
    Boxed::new(alloc, RStmt::Assign(place, value))
}

/// Reads `p = e;` and `e;`.
#[tactic(auto, unfolding(crate::specs::Stmts::expr_stmt, crate::specs::Stmts::assign_from))]
pub(crate) fn expr_stmt(alloc: Global, cursor: &mut Cursor<'_>) -> Result<Boxed<RStmt>, Memory>
    ensures { Gives (λ s. stmt_view s) result cursor.new (reader.expr_stmt cursor.old) }
{
    let left = read_expr(alloc, cursor)?;
    if cursor.peek() == Sign::Equal {
        return assigned(alloc, cursor, left);
    }
    cursor.skip(1);
    Boxed::new(alloc, RStmt::Eval(left))
}

// Whether `core::ptr::copy` is ahead.
fn is_copy(cursor: &Cursor<'_>) -> bool
    ensures { result ≡ reader.is_copy cursor.now }
{
    if cursor.peek_behind() != Sign::PathMark {
        return false;
    }
    cursor.text_behind_four() == b"copy".as_slice()
}

/// Reads a statement that begins with a name.
#[tactic(auto, unfolding(crate::specs::Stmts::name_stmt))]
pub(crate) fn name_stmt(alloc: Global, cursor: &mut Cursor<'_>) -> Result<Boxed<RStmt>, Memory>
    ensures { Gives (λ s. stmt_view s) result cursor.new (reader.name_stmt cursor.old) }
{
    if is_copy(cursor) {
        return copy_stmt(alloc, cursor);
    }
    expr_stmt(alloc, cursor)
}
