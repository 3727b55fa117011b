//! Declarations (ISO C99, 6.7).

ghost use Rattle.std.specs.Prelude.{◌≡◌, ◌≤◌, ◌<◌, ◌^◌, map, [], ◌∷◌};
ghost use Rattle.cx_cursor.specs.Lists as lists;
ghost use Rattle.cx_cursor.specs.Lists.{list_read};
ghost use Rattle.cx_cursor.specs.Reading.{Answers};
ghost use Rattle.cx_stmt.specs.Declarations as reader;
ghost use Rattle.cx_tree.specs.Depth.{declarator_depth};
ghost use Rattle.cx_tree.specs.Views.{decl_view, declarator_view, init_declarator_view, spec_view, specs as spec_trees};

use cr_base::{Boxed, Items};
use cx_cursor::{Cursor, Fault, Listed, Measured, one_line};
use cx_declare::{declarator, initialiser, specs_from};
use cx_expr::ReadDeclarator;
use cx_lex::Punct;
use cx_tree::{Decl, Declarator, InitDeclarator, Spec};
use cx_words::{Form, declare};
use std::alloc::Global;

// A declarator with its initialiser, where one is there.
#[tactic(auto, unfolding(crate::specs::Declarations::init_or_none, crate::specs::Declarations::init, cx_cursor::specs::Reading::bind))]
fn init_or_none(
    alloc: Global,
    cursor: &mut Cursor<'_>,
    depth: u32,
    declarator: Boxed<Declarator>,
) -> Result<Boxed<InitDeclarator>, Fault>
    requires { depth < 2 ^ 31 }
    ensures { Answers (λ d. init_declarator_view d) result cursor.new (reader.init_or_none depth (declarator_view declarator) cursor.old) }
{
    if cursor.sees(Punct::Equal) {
        let lines = one_line(alloc, cursor.mark(Punct::Equal)?)?;
        let init = initialiser(alloc, cursor, depth)?;
        let tree = InitDeclarator {
            declarator,
            init: Some(init.tree),
            lines,
        };
        return Ok(Boxed::new(alloc, tree)?);
    }
    let tree = InitDeclarator {
        declarator,
        init: None,
        lines: Items::new(alloc),
    };
    Ok(Boxed::new(alloc, tree)?)
}

// What stands behind a declarator under these specifiers, whose name is in scope from here on.
#[tactic(auto, unfolding(crate::specs::Declarations::behind_declarator, cx_cursor::specs::Reading::bind))]
fn behind_declarator(
    alloc: Global,
    cursor: &mut Cursor<'_>,
    depth: u32,
    specs: &[Spec],
    declarator: ReadDeclarator,
) -> Result<Boxed<InitDeclarator>, Fault>
    requires depth { depth < 2 ^ 31 }
    requires measured { declarator.depth ≡ declarator_depth (declarator_view declarator.tree) }
    ensures { Answers (λ d. init_declarator_view d) result cursor.new
        (reader.behind_declarator depth (spec_trees (map spec_view specs.now)) (declarator_view declarator.tree) cursor.old) }
{
    if declarator.depth >= depth {
        return Err(cursor.no_tree());
    }
    declare(cursor, specs, declarator.tree.get())?;
    init_or_none(alloc, cursor, depth - 1, declarator.tree)
}

// A comma and the declarator behind it.
#[tactic(auto, unfolding(crate::specs::Declarations::init_declarator, cx_cursor::specs::Lists::taking, cx_cursor::specs::Lists::comma_item, cx_cursor::specs::Reading::bind))]
fn next_declarator(
    alloc: Global,
    cursor: &mut Cursor<'_>,
    depth: u32,
    specs: &[Spec],
    list: Listed<InitDeclarator>,
) -> Result<Listed<InitDeclarator>, Fault>
    requires { depth < 2 ^ 31 }
    ensures { Answers (λ l. list_read (map init_declarator_view l.list) l.lines) result cursor.new
        (lists.next_item (reader.init_declarator depth (spec_trees (map spec_view specs.now))) (list_read (map init_declarator_view list.list) list.lines) cursor.old) }
{
    let mut list = list;
    list.push_line(cursor.mark(Punct::Comma)?)?;
    let read = declarator(alloc, cursor, depth, Form::Named)?;
    let tree = behind_declarator(alloc, cursor, depth, specs, read)?;
    list.push(Measured { tree, depth: 0 })?;
    Ok(list)
}

// The declarators behind the first, each behind a comma.
#[tactic(auto, using(cx_cursor::proofs::Turns::many_out, cx_cursor::proofs::Turns::many_stop, cx_cursor::proofs::Turns::many_goes), unfolding(cx_cursor::specs::Lists::many_ahead, cx_cursor::specs::Reading::bind))]
fn declarators_behind(
    alloc: Global,
    cursor: &mut Cursor<'_>,
    depth: u32,
    specs: &[Spec],
    list: Listed<InitDeclarator>,
) -> Result<Listed<InitDeclarator>, Fault>
    requires { depth < 2 ^ 31 }
    ensures { Answers (λ l. list_read (map init_declarator_view l.list) l.lines) result cursor.new
        (lists.behind_commas (reader.init_declarator depth (spec_trees (map spec_view specs.now))) (list_read (map init_declarator_view list.list) list.lines) cursor.old) }
{
    let mut list = list;
    for _turn in 0..cursor.turns() {
        if !cursor.sees(Punct::Comma) {
            return Ok(list);
        }
        list = next_declarator(alloc, cursor, depth, specs, list)?;
    }
    Err(cursor.no_tree())
}

/// Reads the rest of a declaration, from behind its first declarator on. Each declarator with its initialiser
/// is at most `depth` nodes deep.
#[tactic(auto, unfolding(crate::specs::Declarations::behind_first, cx_cursor::specs::Reading::bind))]
pub fn behind_first(
    alloc: Global,
    cursor: &mut Cursor<'_>,
    depth: u32,
    specs: Items<Spec>,
    first: ReadDeclarator,
) -> Result<Boxed<Decl>, Fault>
    requires depth { depth < 2 ^ 31 }
    requires measured { first.depth ≡ declarator_depth (declarator_view first.tree) }
    ensures { Answers (λ d. decl_view d) result cursor.new
        (reader.behind_first depth (spec_trees (map spec_view specs)) (declarator_view first.tree) cursor.old) }
{
    let tree = behind_declarator(alloc, cursor, depth, specs.as_slice(), first)?;
    let mut list = Listed::new(alloc, Items::new(alloc));
    list.push(Measured { tree, depth: 0 })?;
    let mut list = declarators_behind(alloc, cursor, depth, specs.as_slice(), list)?;
    list.push_line(cursor.mark(Punct::Semicolon)?)?;
    let decl = Decl {
        specs,
        list: list.list,
        lines: list.lines,
    };
    Ok(Boxed::new(alloc, decl)?)
}

/// Reads the end of a declaration without declarators.
#[tactic(auto, unfolding(crate::specs::Declarations::no_declarators, cx_cursor::specs::Reading::bind))]
pub fn no_declarators(
    alloc: Global,
    cursor: &mut Cursor<'_>,
    specs: Items<Spec>,
) -> Result<Boxed<Decl>, Fault>
    ensures { Answers (λ d. decl_view d) result cursor.new (reader.no_declarators (spec_trees (map spec_view specs)) cursor.old) }
{
    let lines = one_line(alloc, cursor.mark(Punct::Semicolon)?)?;
    let decl = Decl {
        specs,
        list: Items::new(alloc),
        lines,
    };
    Ok(Boxed::new(alloc, decl)?)
}

/// Reads a declaration, at most `depth` nodes deep (6.7).
#[tactic(auto, using(crate::proofs::Turns::decl_none, crate::proofs::Turns::decl_some), unfolding(crate::specs::Declarations::decl_from, crate::specs::Declarations::behind_specs, cx_cursor::specs::Reading::bind))]
pub fn decl(alloc: Global, cursor: &mut Cursor<'_>, depth: u32) -> Result<Boxed<Decl>, Fault>
    requires { depth < 2 ^ 31 }
    ensures { Answers (λ d. decl_view d) result cursor.new (reader.decl depth cursor.old) }
{
    if depth == 0 {
        return Err(cursor.no_tree());
    }
    let specs = specs_from(alloc, cursor, depth - 1, true)?;
    if cursor.sees(Punct::Semicolon) {
        return no_declarators(alloc, cursor, specs.list);
    }
    let first = declarator(alloc, cursor, depth - 1, Form::Named)?;
    behind_first(alloc, cursor, depth - 1, specs.list, first)
}
