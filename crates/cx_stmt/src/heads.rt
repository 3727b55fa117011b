//! What stands in a statement in front of the statements that it holds (ISO C99, 6.8).

ghost use Rattle.std.specs.Prelude.{◌≡◌, ◌<◌, ◌^◌, map, option_map, IfOk, [], ◌∷◌};
ghost use Rattle.cx_cursor.specs.Reading.{Answers};
ghost use Rattle.cx_stmt.specs.Stmts as reader;
ghost use Rattle.cx_stmt.specs.Stmts.{first_read, for_read, head_read};
ghost use Rattle.cx_tree.specs.Views.{expr_view, first_view, option_expr};

use crate::declarations::decl;
use cr_base::{Boxed, Items};
use cx_cursor::{Cursor, Fault, three_lines, two_lines};
use cx_declare::expr;
use cx_lex::{Keyword, Punct};
use cx_tree::{Expr, ForFirst};
use cx_words::{level, sees_decl};
use std::alloc::Global;

/// Reads an expression at most `depth` nodes deep, or none where this mark stands ahead.
#[tactic(auto, unfolding(crate::specs::Stmts::option_expr, cx_cursor::specs::Reading::bind))]
pub fn option_expr(
    alloc: Global,
    cursor: &mut Cursor<'_>,
    depth: u32,
    closing: Punct,
) -> Result<Option<Boxed<Expr>>, Fault>
    requires { depth < 2 ^ 31 }
    ensures { Answers (λ e. option_expr (option_map expr_view e)) result cursor.new (reader.option_expr depth closing cursor.old) }
{
    if cursor.sees(closing) {
        return Ok(None);
    }
    let read = expr(alloc, cursor, depth, level::EXPRESSION)?;
    Ok(Some(read.tree))
}

/// An expression in parentheses, and the lines of the keyword in front of it and of these.
#[derive(Drop)]
pub struct Head {
    pub expr: Boxed<Expr>,
    pub lines: Items<u32>,
}

/// Reads a keyword, and an expression in parentheses.
#[tactic(auto, unfolding(crate::specs::Stmts::head, cx_cursor::specs::Reading::bind))]
pub fn keyword_head(
    alloc: Global,
    cursor: &mut Cursor<'_>,
    depth: u32,
    keyword: Keyword,
) -> Result<Head, Fault>
    requires { depth < 2 ^ 31 }
    ensures { Answers (λ h. head_read (expr_view h.expr) h.lines) result cursor.new (reader.head depth keyword cursor.old) }
{
    let first = cursor.key(keyword)?;
    let second = cursor.mark(Punct::LeftParenthesis)?;
    let read = expr(alloc, cursor, depth, level::EXPRESSION)?;
    let third = cursor.mark(Punct::RightParenthesis)?;
    let lines = three_lines(alloc, [first, second, third])?;
    Ok(Head {
        expr: read.tree,
        lines,
    })
}

// The first clause of a `for` statement, and the lines up to behind its semicolon.
#[derive(Drop)]
struct First {
    first: Boxed<ForFirst>,
    lines: Items<u32>,
}

// An expression, which may be missing, and a semicolon.
#[tactic(auto, unfolding(crate::specs::Stmts::first_value, cx_cursor::specs::Reading::bind))]
fn first_value(
    alloc: Global,
    cursor: &mut Cursor<'_>,
    depth: u32,
    lines: Items<u32>,
) -> Result<First, Fault>
    requires { depth < 2 ^ 31 }
    ensures { Answers (λ f. first_read (first_view f.first) f.lines) result cursor.new (reader.first_value depth lines cursor.old) }
{
    let mut lines = lines;
    let value = option_expr(alloc, cursor, depth, Punct::Semicolon)?;
    lines.push(cursor.mark(Punct::Semicolon)?)?;
    let first = Boxed::new(alloc, ForFirst::Value(value))?;
    Ok(First { first, lines })
}

#[tactic(auto, unfolding(crate::specs::Stmts::first_clause, cx_cursor::specs::Reading::bind))]
fn first_clause(
    alloc: Global,
    cursor: &mut Cursor<'_>,
    depth: u32,
    lines: Items<u32>,
) -> Result<First, Fault>
    requires { depth < 2 ^ 31 }
    ensures { Answers (λ f. first_read (first_view f.first) f.lines) result cursor.new (reader.first_clause depth lines cursor.old) }
{
    if sees_decl(cursor) {
        let declared = decl(alloc, cursor, depth)?;
        let first = Boxed::new(alloc, ForFirst::Declared(declared))?;
        return Ok(First { first, lines });
    }
    first_value(alloc, cursor, depth, lines)
}

/// The clauses of a `for` statement, and the lines of its keyword and marks.
#[derive(Drop)]
pub struct Clauses {
    pub first: Boxed<ForFirst>,
    pub second: Option<Boxed<Expr>>,
    pub third: Option<Boxed<Expr>>,
    pub lines: Items<u32>,
}

/// Reads `for` and its clauses in parentheses (6.8.5.3).
#[tactic(auto, unfolding(crate::specs::Stmts::clauses, cx_cursor::specs::Reading::bind))]
pub fn for_clauses(alloc: Global, cursor: &mut Cursor<'_>, depth: u32) -> Result<Clauses, Fault>
    requires { depth < 2 ^ 31 }
    ensures { Answers (λ c. for_read (first_view c.first) (option_expr (option_map expr_view c.second)) (option_expr (option_map expr_view c.third)) c.lines)
        result cursor.new (reader.clauses depth cursor.old) }
{
    let word = cursor.key(Keyword::For)?;
    let lines = two_lines(alloc, word, cursor.mark(Punct::LeftParenthesis)?)?;
    let First { first, mut lines } = first_clause(alloc, cursor, depth, lines)?;
    let second = option_expr(alloc, cursor, depth, Punct::Semicolon)?;
    lines.push(cursor.mark(Punct::Semicolon)?)?;
    let third = option_expr(alloc, cursor, depth, Punct::RightParenthesis)?;
    lines.push(cursor.mark(Punct::RightParenthesis)?)?;
    Ok(Clauses {
        first,
        second,
        third,
        lines,
    })
}
