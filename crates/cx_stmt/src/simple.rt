//! Statements that hold no statement (ISO C99, 6.8.3 and 6.8.6).

ghost use Rattle.std.specs.Prelude.{◌≡◌, ◌<◌, ◌^◌, map, option_map, IfOk, [], ◌∷◌};
ghost use Rattle.cx_cursor.specs.Reading.{Answers};
ghost use Rattle.cx_stmt.specs.Stmts as reader;
ghost use Rattle.cx_tree.specs.Views.{stmt_view};

use crate::heads::option_expr;
use cr_base::Boxed;
use cx_cursor::{Cursor, Fault, one_line, three_lines, two_lines};
use cx_lex::{Keyword, Punct};
use cx_tree::Stmt;
use std::alloc::Global;

/// An expression statement, or a null statement (6.8.3).
#[tactic(auto, unfolding(crate::specs::Stmts::expr_stmt, cx_cursor::specs::Reading::bind))]
pub fn expr_stmt(alloc: Global, cursor: &mut Cursor<'_>, depth: u32) -> Result<Boxed<Stmt>, Fault>
    requires { depth < 2 ^ 31 }
    ensures { Answers (λ s. stmt_view s) result cursor.new (reader.expr_stmt depth cursor.old) }
{
    let expr = option_expr(alloc, cursor, depth, Punct::Semicolon)?;
    let lines = one_line(alloc, cursor.mark(Punct::Semicolon)?)?;
    Ok(Boxed::new(alloc, Stmt::Expr { expr, lines })?)
}

/// `goto` (6.8.6.1).
#[tactic(auto, unfolding(crate::specs::Stmts::goto, cx_cursor::specs::Reading::bind))]
pub fn goto_stmt(alloc: Global, cursor: &mut Cursor<'_>) -> Result<Boxed<Stmt>, Fault>
    ensures { Answers (λ s. stmt_view s) result cursor.new (reader.goto cursor.old) }
{
    let first = cursor.key(Keyword::Goto)?;
    let (name, second) = cursor.word()?;
    let third = cursor.mark(Punct::Semicolon)?;
    let lines = three_lines(alloc, [first, second, third])?;
    Ok(Boxed::new(alloc, Stmt::Goto { name, lines })?)
}

/// `continue` (6.8.6.2).
#[tactic(auto, unfolding(crate::specs::Stmts::continue_stmt, cx_cursor::specs::Reading::bind))]
pub fn continue_stmt(alloc: Global, cursor: &mut Cursor<'_>) -> Result<Boxed<Stmt>, Fault>
    ensures { Answers (λ s. stmt_view s) result cursor.new (reader.continue_stmt cursor.old) }
{
    let first = cursor.key(Keyword::Continue)?;
    let lines = two_lines(alloc, first, cursor.mark(Punct::Semicolon)?)?;
    Ok(Boxed::new(alloc, Stmt::Continue { lines })?)
}

/// `break` (6.8.6.3).
#[tactic(auto, unfolding(crate::specs::Stmts::break_stmt, cx_cursor::specs::Reading::bind))]
pub fn break_stmt(alloc: Global, cursor: &mut Cursor<'_>) -> Result<Boxed<Stmt>, Fault>
    ensures { Answers (λ s. stmt_view s) result cursor.new (reader.break_stmt cursor.old) }
{
    let first = cursor.key(Keyword::Break)?;
    let lines = two_lines(alloc, first, cursor.mark(Punct::Semicolon)?)?;
    Ok(Boxed::new(alloc, Stmt::Break { lines })?)
}

/// `return` (6.8.6.4).
#[tactic(auto, unfolding(crate::specs::Stmts::return_stmt, cx_cursor::specs::Reading::bind))]
pub fn return_stmt(alloc: Global, cursor: &mut Cursor<'_>, depth: u32) -> Result<Boxed<Stmt>, Fault>
    requires { depth < 2 ^ 31 }
    ensures { Answers (λ s. stmt_view s) result cursor.new (reader.return_stmt depth cursor.old) }
{
    let first = cursor.key(Keyword::Return)?;
    let value = option_expr(alloc, cursor, depth, Punct::Semicolon)?;
    let lines = two_lines(alloc, first, cursor.mark(Punct::Semicolon)?)?;
    Ok(Boxed::new(alloc, Stmt::Return { value, lines })?)
}
