//! Declarations (ISO C99, 6.7).

ghost use Rattle.std.specs.Prelude.{◌≡◌, ◌<◌, ◌^◌, map};
ghost use Rattle.straight_parse.specs.Declarations as reader;
ghost use Rattle.straight_parse.specs.Declarators.{measured_declarator};
ghost use Rattle.straight_parse.specs.Lists as lists;
ghost use Rattle.straight_parse.specs.Lists.{list_read};
ghost use Rattle.straight_parse.specs.Reading.{Answers};
ghost use Rattle.straight_tree.specs.Views.{decl_view, declarator_view, init_declarator_view, specs_view};

use crate::cursor::Cursor;
use crate::declarators::declarator;
use crate::exprs::expr;
use crate::fault::Fault;
use crate::listed::Listed;
use crate::measured::Measured;
use crate::nodes::{ReadDeclarator, one_line};
use cr_base::{Boxed, Items};
use cx_lex::Punct;
use std::alloc::Global;
use straight_tree::{Decl, Declarator, InitDeclarator, Initialiser, Specs};

// The initialiser of a declarator (6.7.8).
#[tactic(auto, unfolding(crate::specs::Declarations::init, crate::specs::Reading::bind))]
fn init(
    alloc: Global,
    cursor: &mut Cursor<'_>,
    depth: u32,
    declarator: Boxed<Declarator>,
) -> Result<Boxed<InitDeclarator>, Fault>
    requires { depth < 2 ^ 31 }
    ensures { Answers (λ d. init_declarator_view d) result cursor.new (reader.init depth (declarator_view declarator) cursor.old) }
{
    let line = cursor.mark(Punct::Equal)?;
    let lines = one_line(alloc, line)?;
    let read = expr(alloc, cursor, depth, 2)?;
    Ok(Boxed::new(
        alloc,
        InitDeclarator {
            declarator: declarator.into_inner(),
            init: Some(Initialiser::Expr(read.tree.into_inner())),
            lines,
        },
    )?)
}

// A declarator that was read, with its initialiser, where one is there.
#[tactic(auto, unfolding(crate::specs::Declarations::behind_declarator, crate::specs::Reading::bind))]
fn behind_declarator(
    alloc: Global,
    cursor: &mut Cursor<'_>,
    depth: u32,
    left: ReadDeclarator,
) -> Result<Boxed<InitDeclarator>, Fault>
    requires { depth < 2 ^ 31 }
    ensures { Answers (λ d. reader.unmeasured (init_declarator_view d)) result cursor.new
        (reader.behind_declarator depth (measured_declarator (declarator_view left.tree) left.depth) cursor.old) }
{
    if left.depth >= depth {
        return Err(Fault::NoTree);
    }
    if cursor.sees(Punct::Equal) {
        return init(alloc, cursor, depth - 1, left.tree);
    }
    Ok(Boxed::new(
        alloc,
        InitDeclarator {
            declarator: left.tree.into_inner(),
            init: None,
            lines: Items::new(alloc),
        },
    )?)
}

#[tactic(auto, unfolding(crate::specs::Declarations::init_declarator, crate::specs::Reading::bind))]
fn init_declarator(
    alloc: Global,
    cursor: &mut Cursor<'_>,
    depth: u32,
) -> Result<Boxed<InitDeclarator>, Fault>
    requires { depth < 2 ^ 31 }
    ensures { Answers (λ d. reader.unmeasured (init_declarator_view d)) result cursor.new (reader.init_declarator depth cursor.old) }
{
    let left = declarator(alloc, cursor, depth)?;
    behind_declarator(alloc, cursor, depth, left)
}

// A comma and the declarator behind it.
#[tactic(auto, unfolding(crate::specs::Lists::taking, crate::specs::Lists::comma_item, crate::specs::Reading::bind))]
fn next_declarator(
    alloc: Global,
    cursor: &mut Cursor<'_>,
    depth: u32,
    list: Listed<InitDeclarator>,
) -> Result<Listed<InitDeclarator>, Fault>
    requires { depth < 2 ^ 31 }
    ensures { Answers (λ l. list_read (map init_declarator_view l.list) l.depth l.lines) result cursor.new
        (lists.next_item (reader.init_declarator depth) (list_read (map init_declarator_view list.list) list.depth list.lines) cursor.old) }
{
    let mut list = list;
    list.push_line(cursor.mark(Punct::Comma)?)?;
    let tree = init_declarator(alloc, cursor, depth)?;
    list.push_boxed(Measured { tree, depth: 0 })?;
    Ok(list)
}

// The declarators behind the first, each behind a comma.
#[tactic(auto, using(crate::proofs::Turns::many_out, crate::proofs::Turns::many_stop, crate::proofs::Turns::many_goes), unfolding(crate::specs::Lists::many_ahead, crate::specs::Reading::bind))]
fn declarators_behind(
    alloc: Global,
    cursor: &mut Cursor<'_>,
    depth: u32,
    list: Listed<InitDeclarator>,
) -> Result<Listed<InitDeclarator>, Fault>
    requires { depth < 2 ^ 31 }
    ensures { Answers (λ l. list_read (map init_declarator_view l.list) l.depth l.lines) result cursor.new
        (lists.behind_commas (reader.init_declarator depth) (list_read (map init_declarator_view list.list) list.depth list.lines) cursor.old) }
{
    let mut list = list;
    for _turn in 0..cursor.turns() {
        if !cursor.sees(Punct::Comma) {
            return Ok(list);
        }
        list = next_declarator(alloc, cursor, depth, list)?;
    }
    Err(Fault::NoTree)
}

/// Reads the rest of a declaration (6.7), from behind its first declarator on. Each declarator with its
/// initialiser is at most `depth` nodes deep.
#[tactic(auto, unfolding(crate::specs::Declarations::declaration, crate::specs::Reading::bind))]
pub fn declaration(
    alloc: Global,
    cursor: &mut Cursor<'_>,
    depth: u32,
    specs: Specs,
    left: ReadDeclarator,
) -> Result<Decl, Fault>
    requires { depth < 2 ^ 31 }
    ensures { Answers (λ d. decl_view d) result cursor.new
        (reader.declaration depth (specs_view specs) (measured_declarator (declarator_view left.tree) left.depth) cursor.old) }
{
    let tree = behind_declarator(alloc, cursor, depth, left)?;
    let mut list = Listed::new(alloc, Items::new(alloc));
    list.push_boxed(Measured { tree, depth: 0 })?;
    let mut list = declarators_behind(alloc, cursor, depth, list)?;
    list.push_line(cursor.mark(Punct::Semicolon)?)?;
    Ok(Decl {
        specs,
        list: list.list,
        lines: list.lines,
    })
}
