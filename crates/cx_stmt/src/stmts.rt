//! Statements (ISO C99, 6.8). A function whose parameter is `depth` reads one whose parts are at most that many
//! nodes deep; `stmt` and `block` one that is itself at most so deep.

ghost use Rattle.std.specs.Prelude.{◌≡◌, ◌<◌, ◌^◌, map, option_map, IfOk, [], ◌∷◌};
ghost use Rattle.cx_cursor.specs.Reading.{Answers};
ghost use Rattle.cx_stmt.specs.Stmts as reader;
ghost use Rattle.cx_cursor.specs.Lists.{many_ahead, taking};
ghost use Rattle.cx_stmt.specs.Stmts.{for_read, head_read};
ghost use Rattle.cx_stmt.specs.Units as units;
ghost use Rattle.cx_tree.specs.Trees as tree;
ghost use Rattle.cx_tree.specs.Views.{expr_view, first_view, item_view, option_expr, option_stmt, stmt_view};

use crate::declarations::decl;
use crate::heads::{Clauses, Head, for_clauses, keyword_head};
use crate::simple::{break_stmt, continue_stmt, expr_stmt, goto_stmt, return_stmt};
use cr_base::{Boxed, Items, Memory};
use cx_cursor::{Cursor, Fault, Sight, one_line, two_lines};
use cx_declare::expr;
use cx_lex::{Keyword, Punct};
use cx_tree::{BlockItem, Stmt};
use cx_words::{level, sees_decl, sees_else, sees_label};
use std::alloc::Global;

// What stands in a block: a declaration or a statement (6.8.2).
#[cycle(stmt)]
#[tactic(auto, unfolding(crate::specs::Stmts::item, cx_cursor::specs::Reading::bind))]
fn item(alloc: Global, cursor: &mut Cursor<'_>, depth: u32) -> Result<Boxed<BlockItem>, Fault>
    requires { depth < 2 ^ 31 }
    ensures { Answers (λ i. item_view i) result cursor.new (reader.item (reader.stmt depth) depth cursor.old) }
{
    if sees_decl(cursor) {
        let declared = decl(alloc, cursor, depth)?;
        return Ok(Boxed::new(alloc, BlockItem::Declaration(declared))?);
    }
    let inner = stmt(alloc, cursor, depth)?;
    Ok(Boxed::new(alloc, BlockItem::Statement(inner))?)
}

// One more item of a block.
#[cycle(stmt)]
#[tactic(auto, unfolding(cx_cursor::specs::Lists::taking, cx_cursor::specs::Lists::comma_item, cx_cursor::specs::Reading::bind))]
fn next_item(
    alloc: Global,
    cursor: &mut Cursor<'_>,
    depth: u32,
    list: Items<BlockItem>,
) -> Result<Items<BlockItem>, Fault>
    requires { depth < 2 ^ 31 }
    ensures { Answers (λ l. map item_view l) result cursor.new
        (taking (reader.item (reader.stmt depth) depth) reader.with_item (map item_view list) cursor.old) }
{
    let mut list = list;
    list.push(item(alloc, cursor, depth)?.into_inner())?;
    Ok(list)
}

// The items of a block.
#[cycle(stmt)]
#[tactic(auto, using(cx_cursor::proofs::Turns::many_out, cx_cursor::proofs::Turns::many_stop, cx_cursor::proofs::Turns::many_goes), unfolding(cx_cursor::specs::Lists::many_ahead, cx_cursor::specs::Reading::bind))]
fn items(alloc: Global, cursor: &mut Cursor<'_>, depth: u32) -> Result<Items<BlockItem>, Fault>
    requires { depth < 2 ^ 31 }
    ensures { Answers (λ l. map item_view l) result cursor.new
        (many_ahead reader.sees_end (taking (reader.item (reader.stmt depth) depth) reader.with_item) [] cursor.old) }
{
    let mut list = Items::new(alloc);
    for _turn in 0..cursor.turns() {
        if cursor.sees(Punct::RightBrace) {
            return Ok(list);
        }
        list = next_item(alloc, cursor, depth, list)?;
    }
    Err(cursor.no_tree())
}

// A block, which is a scope (6.8.2).
#[cycle(stmt)]
#[tactic(auto, unfolding(crate::specs::Stmts::block_from, crate::specs::Stmts::block_items, cx_cursor::specs::Reading::scoped, cx_cursor::specs::Reading::bind))]
fn block_from(alloc: Global, cursor: &mut Cursor<'_>, depth: u32) -> Result<Boxed<Stmt>, Fault>
    requires { depth < 2 ^ 31 }
    ensures { Answers (λ s. stmt_view s) result cursor.new (reader.block_from (reader.stmt depth) depth cursor.old) }
{
    let count = cursor.scope_len();
    let first = cursor.mark(Punct::LeftBrace)?;
    let items = items(alloc, cursor, depth)?;
    let lines = two_lines(alloc, first, cursor.mark(Punct::RightBrace)?)?;
    let tree = Boxed::new(alloc, Stmt::Block { items, lines })?;
    cursor.leave(count);
    Ok(tree)
}

// A branch or a body, which is a scope of its own (6.8.4p3, 6.8.5p5).
#[cycle(stmt)]
#[tactic(auto, unfolding(crate::specs::Stmts::part, cx_cursor::specs::Reading::scoped, cx_cursor::specs::Reading::bind))]
fn part(alloc: Global, cursor: &mut Cursor<'_>, depth: u32) -> Result<Boxed<Stmt>, Fault>
    requires { depth < 2 ^ 31 }
    ensures { Answers (λ s. stmt_view s) result cursor.new (reader.part (reader.stmt depth) depth cursor.old) }
{
    let count = cursor.scope_len();
    let inner = stmt(alloc, cursor, depth)?;
    cursor.leave(count);
    Ok(inner)
}

// A label (6.8.1).
#[cycle(stmt)]
#[tactic(auto, unfolding(crate::specs::Stmts::label, cx_cursor::specs::Reading::bind))]
fn label(alloc: Global, cursor: &mut Cursor<'_>, depth: u32) -> Result<Boxed<Stmt>, Fault>
    requires { depth < 2 ^ 31 }
    ensures { Answers (λ s. stmt_view s) result cursor.new (reader.label (reader.stmt depth) depth cursor.old) }
{
    let (name, first) = cursor.word()?;
    let lines = two_lines(alloc, first, cursor.mark(Punct::Colon)?)?;
    let inner = stmt(alloc, cursor, depth)?;
    let label = Stmt::Label {
        name,
        stmt: inner,
        lines,
    };
    Ok(Boxed::new(alloc, label)?)
}

// `case` (6.8.1).
#[cycle(stmt)]
#[tactic(auto, unfolding(crate::specs::Stmts::case_stmt, cx_cursor::specs::Reading::bind))]
fn case_stmt(alloc: Global, cursor: &mut Cursor<'_>, depth: u32) -> Result<Boxed<Stmt>, Fault>
    requires { depth < 2 ^ 31 }
    ensures { Answers (λ s. stmt_view s) result cursor.new (reader.case_stmt (reader.stmt depth) depth cursor.old) }
{
    let first = cursor.key(Keyword::Case)?;
    let value = expr(alloc, cursor, depth, level::CONDITIONAL)?.tree;
    let lines = two_lines(alloc, first, cursor.mark(Punct::Colon)?)?;
    let inner = stmt(alloc, cursor, depth)?;
    let case = Stmt::Case {
        value,
        stmt: inner,
        lines,
    };
    Ok(Boxed::new(alloc, case)?)
}

// `default` (6.8.1).
#[cycle(stmt)]
#[tactic(auto, unfolding(crate::specs::Stmts::default_stmt, cx_cursor::specs::Reading::bind))]
fn default_stmt(alloc: Global, cursor: &mut Cursor<'_>, depth: u32) -> Result<Boxed<Stmt>, Fault>
    requires { depth < 2 ^ 31 }
    ensures { Answers (λ s. stmt_view s) result cursor.new (reader.default_stmt (reader.stmt depth) depth cursor.old) }
{
    let first = cursor.key(Keyword::Default)?;
    let lines = two_lines(alloc, first, cursor.mark(Punct::Colon)?)?;
    let inner = stmt(alloc, cursor, depth)?;
    Ok(Boxed::new(alloc, Stmt::Default { stmt: inner, lines })?)
}

// An `if` with its branches.
fn if_of(
    alloc: Global,
    head: Head,
    branch: Boxed<Stmt>,
    otherwise: Option<Boxed<Stmt>>,
) -> Result<Boxed<Stmt>, Memory>
    ensures { IfOk result (λ s. stmt_view s ≡ tree.If (expr_view head.expr) (stmt_view branch) (option_stmt (option_map stmt_view otherwise)) head.lines) }
{
    let Head {
        expr: condition,
        lines,
    } = head;
    let tree = Stmt::If {
        condition,
        branch,
        otherwise,
        lines,
    };
    Boxed::new(alloc, tree)
}

// What stands behind the first branch of an `if`, to which an `else` belongs (6.8.4.1p3).
#[cycle(stmt)]
#[tactic(auto, unfolding(crate::specs::Stmts::behind_branch, crate::specs::Stmts::else_branch, cx_cursor::specs::Reading::bind))]
fn behind_branch(
    alloc: Global,
    cursor: &mut Cursor<'_>,
    depth: u32,
    head: Head,
    branch: Boxed<Stmt>,
) -> Result<Boxed<Stmt>, Fault>
    requires { depth < 2 ^ 31 }
    ensures { Answers (λ s. stmt_view s) result cursor.new (reader.behind_branch (reader.stmt depth) depth (head_read (expr_view head.expr) head.lines) (stmt_view branch) cursor.old) }
{
    if !sees_else(cursor) {
        return Ok(if_of(alloc, head, branch, None)?);
    }
    let mut head = head;
    head.lines.push(cursor.key(Keyword::Else)?)?;
    let otherwise = part(alloc, cursor, depth)?;
    Ok(if_of(alloc, head, branch, Some(otherwise))?)
}

// `if` (6.8.4.1).
#[cycle(stmt)]
#[tactic(auto, unfolding(crate::specs::Stmts::if_stmt, cx_cursor::specs::Reading::scoped, cx_cursor::specs::Reading::bind))]
fn if_stmt(alloc: Global, cursor: &mut Cursor<'_>, depth: u32) -> Result<Boxed<Stmt>, Fault>
    requires { depth < 2 ^ 31 }
    ensures { Answers (λ s. stmt_view s) result cursor.new (reader.if_stmt (reader.stmt depth) depth cursor.old) }
{
    let count = cursor.scope_len();
    let head = keyword_head(alloc, cursor, depth, Keyword::If)?;
    let branch = part(alloc, cursor, depth)?;
    let tree = behind_branch(alloc, cursor, depth, head, branch)?;
    cursor.leave(count);
    Ok(tree)
}

// `switch` (6.8.4.2).
#[cycle(stmt)]
#[tactic(auto, unfolding(crate::specs::Stmts::switch_stmt, cx_cursor::specs::Reading::scoped, cx_cursor::specs::Reading::bind))]
fn switch_stmt(alloc: Global, cursor: &mut Cursor<'_>, depth: u32) -> Result<Boxed<Stmt>, Fault>
    requires { depth < 2 ^ 31 }
    ensures { Answers (λ s. stmt_view s) result cursor.new (reader.switch_stmt (reader.stmt depth) depth cursor.old) }
{
    let count = cursor.scope_len();
    let Head { expr: on, lines } = keyword_head(alloc, cursor, depth, Keyword::Switch)?;
    let body = part(alloc, cursor, depth)?;
    let tree = Boxed::new(alloc, Stmt::Switch { on, body, lines })?;
    cursor.leave(count);
    Ok(tree)
}

// `while` (6.8.5.1).
#[cycle(stmt)]
#[tactic(auto, unfolding(crate::specs::Stmts::while_stmt, cx_cursor::specs::Reading::scoped, cx_cursor::specs::Reading::bind))]
fn while_stmt(alloc: Global, cursor: &mut Cursor<'_>, depth: u32) -> Result<Boxed<Stmt>, Fault>
    requires { depth < 2 ^ 31 }
    ensures { Answers (λ s. stmt_view s) result cursor.new (reader.while_stmt (reader.stmt depth) depth cursor.old) }
{
    let count = cursor.scope_len();
    let Head {
        expr: condition,
        lines,
    } = keyword_head(alloc, cursor, depth, Keyword::While)?;
    let body = part(alloc, cursor, depth)?;
    let tree = Boxed::new(
        alloc,
        Stmt::While {
            condition,
            body,
            lines,
        },
    )?;
    cursor.leave(count);
    Ok(tree)
}

// `do` (6.8.5.2).
#[cycle(stmt)]
#[tactic(auto, unfolding(crate::specs::Stmts::do_stmt, cx_cursor::specs::Reading::scoped, cx_cursor::specs::Reading::bind))]
fn do_stmt(alloc: Global, cursor: &mut Cursor<'_>, depth: u32) -> Result<Boxed<Stmt>, Fault>
    requires { depth < 2 ^ 31 }
    ensures { Answers (λ s. stmt_view s) result cursor.new (reader.do_stmt (reader.stmt depth) depth cursor.old) }
{
    let count = cursor.scope_len();
    let mut lines = one_line(alloc, cursor.key(Keyword::Do)?)?;
    let body = part(alloc, cursor, depth)?;
    let head = keyword_head(alloc, cursor, depth, Keyword::While)?;
    lines.append(head.lines)?;
    lines.push(cursor.mark(Punct::Semicolon)?)?;
    let tree = Boxed::new(
        alloc,
        Stmt::Do {
            body,
            condition: head.expr,
            lines,
        },
    )?;
    cursor.leave(count);
    Ok(tree)
}

// `for` (6.8.5.3).
#[cycle(stmt)]
#[tactic(auto, unfolding(crate::specs::Stmts::for_stmt, cx_cursor::specs::Reading::scoped, cx_cursor::specs::Reading::bind))]
fn for_stmt(alloc: Global, cursor: &mut Cursor<'_>, depth: u32) -> Result<Boxed<Stmt>, Fault>
    requires { depth < 2 ^ 31 }
    ensures { Answers (λ s. stmt_view s) result cursor.new (reader.for_stmt (reader.stmt depth) depth cursor.old) }
{
    let count = cursor.scope_len();
    let clauses = for_clauses(alloc, cursor, depth)?;
    let body = part(alloc, cursor, depth)?;
    let tree = Stmt::For {
        first: clauses.first.into_inner(),
        second: clauses.second,
        third: clauses.third,
        body,
        lines: clauses.lines,
    };
    let tree = Boxed::new(alloc, tree)?;
    cursor.leave(count);
    Ok(tree)
}

// A statement that begins with a keyword.
#[cycle(stmt)]
fn keyword_stmt(
    alloc: Global,
    cursor: &mut Cursor<'_>,
    depth: u32,
    keyword: Keyword,
) -> Result<Boxed<Stmt>, Fault>
    requires { depth < 2 ^ 31 }
    ensures { Answers (λ s. stmt_view s) result cursor.new (reader.keyword_stmt (reader.stmt depth) depth keyword cursor.old) }
{
    match keyword {
        Keyword::Case => case_stmt(alloc, cursor, depth),
        Keyword::Default => default_stmt(alloc, cursor, depth),
        Keyword::If => if_stmt(alloc, cursor, depth),
        Keyword::Switch => switch_stmt(alloc, cursor, depth),
        Keyword::While => while_stmt(alloc, cursor, depth),
        Keyword::Do => do_stmt(alloc, cursor, depth),
        Keyword::For => for_stmt(alloc, cursor, depth),
        Keyword::Goto => goto_stmt(alloc, cursor),
        Keyword::Continue => continue_stmt(alloc, cursor),
        Keyword::Break => break_stmt(alloc, cursor),
        Keyword::Return => return_stmt(alloc, cursor, depth),
        _ => expr_stmt(alloc, cursor, depth),
    }
}

// A statement, at most `depth` nodes deep.
#[cycle(stmt)]
#[tactic(auto, using(crate::proofs::Turns::stmt_none, crate::proofs::Turns::stmt_some), unfolding(crate::specs::Stmts::stmt_from))]
fn stmt(alloc: Global, cursor: &mut Cursor<'_>, depth: u32) -> Result<Boxed<Stmt>, Fault>
    requires { depth < 2 ^ 31 }
    ensures { Answers (λ s. stmt_view s) result cursor.new (reader.stmt depth cursor.old) }
{
    if depth == 0 {
        return Err(cursor.no_tree());
    }
    if sees_label(cursor) {
        return label(alloc, cursor, depth - 1);
    }
    if cursor.sees(Punct::LeftBrace) {
        return block_from(alloc, cursor, depth - 1);
    }
    match cursor.peek() {
        Sight::Key(keyword) => keyword_stmt(alloc, cursor, depth - 1, keyword),
        _ => expr_stmt(alloc, cursor, depth - 1),
    }
}

/// Reads a block, at most `depth` nodes deep (6.8.2).
#[tactic(auto, using(crate::proofs::Turns::block_none, crate::proofs::Turns::block_some))]
pub fn block(alloc: Global, cursor: &mut Cursor<'_>, depth: u32) -> Result<Boxed<Stmt>, Fault>
    requires { depth < 2 ^ 31 }
    ensures { Answers (λ s. stmt_view s) result cursor.new (units.block depth cursor.old) }
{
    if depth == 0 {
        return Err(cursor.no_tree());
    }
    block_from(alloc, cursor, depth - 1)
}
