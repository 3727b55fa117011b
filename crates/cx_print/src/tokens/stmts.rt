//! The tokens of statements (ISO C99, 6.8).
#![tactic(auto, using(crate::proofs::PrintingLemmas::printing))]

ghost use Rattle.std.specs.Prelude.{◌≡◌, ◌++◌, ◌∷◌, [], map, option_map, drop};
ghost use Rattle.cx_lex.specs.declared.token.Keyword.TheVariants as keyword;
ghost use Rattle.cx_lex.specs.declared.token.Punct.TheVariants as punct;
ghost use Rattle.cx_print.specs.Parts as parts;
ghost use Rattle.cx_print.specs.Printing.{Appends};
ghost use Rattle.cx_tree.specs.Tokens as tokens;
ghost use Rattle.cx_tree.specs.Trees as tree;
ghost use Rattle.cx_tree.specs.Views.{expr_view, first_view, item_view, items, option_expr, option_stmt, stmt_view};

use crate::tokens::declarations::put_decl;
use crate::tokens::exprs::{put_boxed as put_expr, put_option};
use crate::tokens::printer::{Printer, later};
use cr_base::{Boxed, Items};
use cx_lex::{Keyword, Punct};
use cx_tree::{BlockItem, Expr, ForFirst, Stmt};

#[cycle(stmt_tokens)]
#[tactic(auto, using(crate::proofs::PrintingLemmas::printing, crate::proofs::PartLemmas::stmt_in_parts))]
pub fn put_stmt(out: &mut Printer, stmt: &Stmt)
    ensures { Appends out.old out.new (tokens.stmt_tokens (stmt_view stmt.now)) }
{
    put_simple(out, stmt);
    put_compound(out, stmt);
    put_otherwise(out, stmt);
}

#[cycle(stmt_tokens)]
fn put_boxed(out: &mut Printer, stmt: &Boxed<Stmt>)
    ensures { Appends out.old out.new (tokens.stmt_tokens (stmt_view stmt.now)) }
{
    put_stmt(out, stmt.get());
}

// Appends a statement without another one in it, or nothing.
fn put_simple(out: &mut Printer, stmt: &Stmt)
    ensures { Appends out.old out.new (parts.simple_tokens (stmt_view stmt.now)) }
{
    match stmt {
        Stmt::Expr { expr, lines } => {
            put_option(out, expr);
            out.mark(lines, 0, Punct::Semicolon);
        }
        Stmt::Goto { name, lines } => {
            out.key(lines, 0, Keyword::Goto);
            out.word(lines, 1, name);
            out.mark(lines, 2, Punct::Semicolon);
        }
        Stmt::Continue { lines } => {
            out.key(lines, 0, Keyword::Continue);
            out.mark(lines, 1, Punct::Semicolon);
        }
        Stmt::Break { lines } => {
            out.key(lines, 0, Keyword::Break);
            out.mark(lines, 1, Punct::Semicolon);
        }
        Stmt::Return { value, lines } => {
            out.key(lines, 0, Keyword::Return);
            put_option(out, value);
            out.mark(lines, 1, Punct::Semicolon);
        }
        _ => {}
    }
}

// Appends a statement that holds others, without `else` and its branch, or nothing.
#[cycle(stmt_tokens)]
fn put_compound(out: &mut Printer, stmt: &Stmt)
    ensures { Appends out.old out.new (parts.compound_tokens (stmt_view stmt.now)) }
{
    match stmt {
        Stmt::Label { name, stmt, lines } => {
            out.word(lines, 0, name);
            out.mark(lines, 1, Punct::Colon);
            put_boxed(out, stmt);
        }
        Stmt::Case { value, stmt, lines } => {
            put_case(out, lines, value);
            put_boxed(out, stmt);
        }
        Stmt::Default { stmt, lines } => {
            out.key(lines, 0, Keyword::Default);
            out.mark(lines, 1, Punct::Colon);
            put_boxed(out, stmt);
        }
        Stmt::Block { items, lines } => put_block(out, lines, items),
        Stmt::If {
            condition,
            branch,
            lines,
            ..
        } => put_controlled(out, lines, Keyword::If, branch, condition),
        Stmt::Switch { on, body, lines } => put_controlled(out, lines, Keyword::Switch, body, on),
        Stmt::While {
            condition,
            body,
            lines,
        } => put_controlled(out, lines, Keyword::While, body, condition),
        Stmt::Do {
            body,
            condition,
            lines,
        } => put_do(out, lines, body, condition),
        Stmt::For {
            first,
            second,
            third,
            body,
            lines,
        } => {
            put_clauses(out, lines, first, second, third);
            put_boxed(out, body);
        }
        _ => {}
    }
}

// Appends `else` and its branch, where the statement has them.
#[cycle(stmt_tokens)]
fn put_otherwise(out: &mut Printer, stmt: &Stmt)
    ensures { Appends out.old out.new (parts.otherwise_tokens (stmt_view stmt.now)) }
{
    if let Stmt::If {
        otherwise,
        lines,
        ..
    } = stmt
    {
        put_else(out, lines, otherwise);
    }
}

// Appends `else` and its branch, or nothing.
#[cycle(stmt_tokens)]
fn put_else(out: &mut Printer, lines: &Items<u32>, otherwise: &Option<Boxed<Stmt>>)
    ensures { Appends out.old out.new (tokens.else_tokens lines.now (option_stmt (option_map stmt_view otherwise.now))) }
{
    if let Some(stmt) = otherwise {
        out.key(lines, 3, Keyword::Else);
        put_stmt(out, stmt.get());
    }
}

// Appends `case`, its value and the colon.
fn put_case(out: &mut Printer, lines: &Items<u32>, value: &Boxed<Expr>)
    ensures { Appends out.old out.new (tokens.key lines.now 0 keyword.Case ∷ (tokens.expr_tokens (expr_view value.now) ++ tokens.mark lines.now 1 punct.Colon ∷ [])) }
{
    out.key(lines, 0, Keyword::Case);
    put_expr(out, value);
    out.mark(lines, 1, Punct::Colon);
}

#[cycle(stmt_tokens)]
#[tactic(auto, using(crate::proofs::PrintingLemmas::printing_loop))]
fn put_block(out: &mut Printer, lines: &Items<u32>, list: &Items<BlockItem>)
    ensures { Appends out.old out.new (tokens.stmt_tokens (tree.Block (items (map item_view list.now)) lines.now)) }
{
    out.mark(lines, 0, Punct::LeftBrace);
    for item in list.as_slice() {
        put_item(out, item);
    }
    out.mark(lines, 1, Punct::RightBrace);
}

#[cycle(stmt_tokens)]
fn put_item(out: &mut Printer, item: &BlockItem)
    ensures { Appends out.old out.new (tokens.item_tokens (item_view item.now)) }
{
    match item {
        BlockItem::Statement(stmt) => put_boxed(out, stmt),
        BlockItem::Declaration(decl) => put_decl(out, decl.get()),
    }
}

// Appends a keyword, an expression in parentheses and a statement.
#[cycle(stmt_tokens)]
fn put_controlled(
    out: &mut Printer,
    lines: &Items<u32>,
    word: Keyword,
    body: &Boxed<Stmt>,
    on: &Boxed<Expr>,
)
    ensures { Appends out.old out.new (tokens.key lines.now 0 word ∷ tokens.mark lines.now 1 punct.LeftParenthesis ∷ (tokens.expr_tokens (expr_view on.now) ++ (tokens.mark lines.now 2 punct.RightParenthesis ∷ tokens.stmt_tokens (stmt_view body.now)))) }
{
    out.key(lines, 0, word);
    out.mark(lines, 1, Punct::LeftParenthesis);
    put_expr(out, on);
    out.mark(lines, 2, Punct::RightParenthesis);
    put_boxed(out, body);
}

#[cycle(stmt_tokens)]
fn put_do(out: &mut Printer, lines: &Items<u32>, body: &Boxed<Stmt>, condition: &Boxed<Expr>)
    ensures { Appends out.old out.new (tokens.stmt_tokens (tree.Do (stmt_view body.now) (expr_view condition.now) lines.now)) }
{
    out.key(lines, 0, Keyword::Do);
    put_boxed(out, body);
    out.key(lines, 1, Keyword::While);
    out.mark(lines, 2, Punct::LeftParenthesis);
    put_expr(out, condition);
    out.mark(lines, 3, Punct::RightParenthesis);
    out.mark(lines, 4, Punct::Semicolon);
}

// Appends `for` and its clauses in parentheses.
fn put_clauses(
    out: &mut Printer,
    lines: &Items<u32>,
    first: &ForFirst,
    second: &Option<Boxed<Expr>>,
    third: &Option<Boxed<Expr>>,
)
    ensures { Appends out.old out.new (tokens.key lines.now 0 keyword.For ∷ tokens.mark lines.now 1 punct.LeftParenthesis ∷ (tokens.first_tokens (first_view first.now) (drop 2 lines.now) ++ tokens.clauses_tokens (option_expr (option_map expr_view second.now)) (option_expr (option_map expr_view third.now)) (tokens.behind_first (first_view first.now) (drop 2 lines.now)))) }
{
    out.key(lines, 0, Keyword::For);
    out.mark(lines, 1, Punct::LeftParenthesis);
    let rest = put_first(out, later(later(lines.as_slice())), first);
    put_option(out, second);
    out.next(rest, Punct::Semicolon);
    put_option(out, third);
    out.next(later(rest), Punct::RightParenthesis);
}

// Appends the first clause of a `for` statement with the semicolon behind it, and gives the lines behind it.
fn put_first<'a>(out: &mut Printer, lines: &'a [u32], first: &ForFirst) -> &'a [u32]
    ensures put { Appends out.old out.new (tokens.first_tokens (first_view first.now) lines.now) }
    ensures rest { result.now ≡ tokens.behind_first (first_view first.now) lines.now }
{
    match first {
        ForFirst::Value(value) => {
            put_option(out, value);
            out.next(lines, Punct::Semicolon);
            later(lines)
        }
        ForFirst::Declared(decl) => {
            put_decl(out, decl.get());
            lines
        }
    }
}
