//! Statements (ISO C99, 6.8). A function whose parameter is `depth` reads one whose parts are at most
//! that many nodes deep; `stmt` and `block` read one that is itself at most so deep.

ghost use Rattle.std.specs.Prelude.{◌≡◌, ◌<◌, ◌^◌, map, [], IfOk};
ghost use Rattle.cx_lex.specs.declared.token.Punct.TheVariants.{RightBrace};
ghost use Rattle.straight_parse.specs.Lists as lists;
ghost use Rattle.straight_parse.specs.Reading.{Answers};
ghost use Rattle.straight_parse.specs.Sights as sights;
ghost use Rattle.straight_parse.specs.Stmts as reader;
ghost use Rattle.straight_tree.specs.Views.{item_view, stmt_view};

use crate::cursor::Cursor;
use crate::exprs::option_expr;
use crate::fault::Fault;
use crate::nodes::{one_line, two_lines};
use crate::sight::{Sight, shows_mark};
use cr_base::{Boxed, Items};
use cx_lex::{Keyword, Punct};
use std::alloc::Global;
use straight_tree::{BlockItem, Expr, Stmt};

// An expression out of its box, where one is there.
fn unboxed(expr: Option<Boxed<Expr>>) -> Option<Expr>
    ensures { result ≡ expr }
{
    match expr {
        Some(held) => Some(held.into_inner()),
        None => None,
    }
}

// An expression statement (6.8.3).
#[tactic(auto, unfolding(crate::specs::Stmts::expr_stmt, crate::specs::Reading::bind))]
fn expr_stmt(alloc: Global, cursor: &mut Cursor<'_>, depth: u32) -> Result<Stmt, Fault>
    requires { depth < 2 ^ 31 }
    ensures { Answers (λ s. stmt_view s) result cursor.new (reader.expr_stmt depth cursor.old) }
{
    let expr = option_expr(alloc, cursor, depth)?;
    let lines = one_line(alloc, cursor.mark(Punct::Semicolon)?)?;
    Ok(Stmt::Expr {
        expr: unboxed(expr),
        lines,
    })
}

fn is_return(keyword: Keyword) -> bool
    ensures { result ≡ reader.is_return keyword }
{
    matches!(keyword, Keyword::Return)
}

fn shows_return(sight: Sight) -> bool
    ensures { result ≡ reader.shows_return sight }
{
    match sight {
        Sight::Key(keyword) => is_return(keyword),
        _ => false,
    }
}

// A `return` statement (6.8.6.4).
#[tactic(auto, unfolding(crate::specs::Stmts::return_stmt, crate::specs::Reading::bind))]
fn return_stmt(alloc: Global, cursor: &mut Cursor<'_>, depth: u32) -> Result<Stmt, Fault>
    requires { depth < 2 ^ 31 }
    ensures { Answers (λ s. stmt_view s) result cursor.new (reader.return_stmt depth cursor.old) }
{
    let (_, first) = cursor.keyword()?;
    let value = option_expr(alloc, cursor, depth)?;
    let last = cursor.mark(Punct::Semicolon)?;
    let lines = two_lines(alloc, first, last)?;
    Ok(Stmt::Return {
        value: unboxed(value),
        lines,
    })
}

// One more statement of a block.
#[cycle(stmt)]
#[tactic(auto, unfolding(crate::specs::Lists::taking, crate::specs::Reading::bind))]
fn next_stmt(
    alloc: Global,
    cursor: &mut Cursor<'_>,
    depth: u32,
    list: Items<BlockItem>,
) -> Result<Items<BlockItem>, Fault>
    requires { depth < 2 ^ 31 }
    ensures { Answers (λ l. map item_view l) result cursor.new
        (lists.taking (reader.stmt depth) reader.with_stmt (map item_view list) cursor.old) }
{
    let mut list = list;
    let next = stmt(alloc, cursor, depth)?;
    list.push(BlockItem::Stmt(next))?;
    Ok(list)
}

// The statements of a block (6.8.2).
#[cycle(stmt)]
#[tactic(auto, using(crate::proofs::Turns::many_out, crate::proofs::Turns::many_stop, crate::proofs::Turns::many_goes), unfolding(crate::specs::Lists::many_ahead, crate::specs::Reading::bind))]
fn stmts(alloc: Global, cursor: &mut Cursor<'_>, depth: u32) -> Result<Items<BlockItem>, Fault>
    requires { depth < 2 ^ 31 }
    ensures { Answers (λ l. map item_view l) result cursor.new
        (lists.many_ahead (sights.shows_mark RightBrace) (lists.taking (reader.stmt depth) reader.with_stmt) [] cursor.old) }
{
    let mut list = Items::new(alloc);
    for _turn in 0..cursor.turns() {
        if shows_mark(cursor.peek(), Punct::RightBrace) {
            return Ok(list);
        }
        list = next_stmt(alloc, cursor, depth, list)?;
    }
    Err(Fault::NoTree)
}

// A block (6.8.2) whose parts are at most `depth` nodes deep.
#[cycle(stmt)]
#[tactic(auto, unfolding(crate::specs::Stmts::block_from, crate::specs::Reading::bind))]
fn block_from(alloc: Global, cursor: &mut Cursor<'_>, depth: u32) -> Result<Stmt, Fault>
    requires { depth < 2 ^ 31 }
    ensures { Answers (λ s. stmt_view s) result cursor.new (reader.block_from (reader.stmt depth) cursor.old) }
{
    let first = cursor.mark(Punct::LeftBrace)?;
    let items = stmts(alloc, cursor, depth)?;
    let last = cursor.mark(Punct::RightBrace)?;
    let lines = two_lines(alloc, first, last)?;
    Ok(Stmt::Block { items, lines })
}

// A statement whose parts are at most `depth` nodes deep.
#[cycle(stmt)]
#[tactic(auto, unfolding(crate::specs::Stmts::stmt_from))]
fn stmt_from(alloc: Global, cursor: &mut Cursor<'_>, depth: u32) -> Result<Stmt, Fault>
    requires { depth < 2 ^ 31 }
    ensures { Answers (λ s. stmt_view s) result cursor.new (reader.stmt_from (reader.stmt depth) depth cursor.old) }
{
    if cursor.sees(Punct::LeftBrace) {
        return block_from(alloc, cursor, depth);
    }
    if shows_return(cursor.peek()) {
        return return_stmt(alloc, cursor, depth);
    }
    expr_stmt(alloc, cursor, depth)
}

// A statement, at most `depth` nodes deep.
#[cycle(stmt)]
#[tactic(auto, using(crate::proofs::Turns::stmt_none, crate::proofs::Turns::stmt_some))]
fn stmt(alloc: Global, cursor: &mut Cursor<'_>, depth: u32) -> Result<Stmt, Fault>
    requires { depth < 2 ^ 31 }
    ensures { Answers (λ s. stmt_view s) result cursor.new (reader.stmt depth cursor.old) }
{
    if depth == 0 {
        return Err(Fault::NoTree);
    }
    stmt_from(alloc, cursor, depth - 1)
}

/// Reads a block (6.8.2), at most `depth` nodes deep.
#[tactic(auto, using(crate::proofs::Turns::block_none, crate::proofs::Turns::block_some))]
pub fn block(alloc: Global, cursor: &mut Cursor<'_>, depth: u32) -> Result<Stmt, Fault>
    requires { depth < 2 ^ 31 }
    ensures { Answers (λ s. stmt_view s) result cursor.new (reader.block depth cursor.old) }
{
    if depth == 0 {
        return Err(Fault::NoTree);
    }
    block_from(alloc, cursor, depth - 1)
}
