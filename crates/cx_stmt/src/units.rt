//! Units (ISO C99, 6.9).

ghost use Rattle.std.specs.Prelude.{◌≡◌, ◌<◌, ◌^◌, map, drop, ◌++◌, OnOk};
ghost use Rattle.cx_cursor.specs.Lists.{many_ahead, taking};
ghost use Rattle.cx_cursor.specs.Reading.{Answers, at};
ghost use Rattle.cx_cursor.specs.Scopes.{bound};
ghost use Rattle.cx_expr.specs.Below.{declarator_read};
ghost use Rattle.cx_stmt.specs.Units as reader;
ghost use Rattle.cx_tree.specs.Depth.{declarator_depth};
ghost use Rattle.cx_tree.specs.Views.{declarator_view, external_view, spec_view, specs as spec_trees, stmt_view, unit_view};

use crate::declarations::{behind_first, no_declarators};
use crate::stmts::block;
use cr_base::{Boxed, Items, Memory};
use cx_cursor::{Bound, Cursor, Fault};
use cx_declare::{declarator, specs_from};
use cx_expr::ReadDeclarator;
use cx_lex::Punct;
use cx_tree::{Definition, External, Spec, Stmt, Unit};
use cx_words::{Form, declare};
use std::alloc::Global;

// Declares names again. Refused only for want of memory.
fn declare_all(cursor: &mut Cursor<'_>, declared: &[Bound]) -> Result<(), Memory>
    ensures { OnOk result (cursor.new ≡ at cursor.old.tokens (cursor.old.names ++ map bound declared.now)) }
{
    for index in 0..declared.len() {
        let one = &declared[index];
        cursor.declare(&one.name, one.is_type)?;
    }
    Ok(())
}

// The body of a function, in which what its parameters declare is in scope (6.2.1p4).
#[tactic(auto, unfolding(crate::specs::Units::body, cx_cursor::specs::Reading::scoped, cx_cursor::specs::Reading::bind))]
fn body(
    alloc: Global,
    cursor: &mut Cursor<'_>,
    depth: u32,
    own: &[Bound],
) -> Result<Boxed<Stmt>, Fault>
    requires { depth < 2 ^ 31 }
    ensures { Answers (λ s. stmt_view s) result cursor.new (reader.body depth (map bound own.now) cursor.old) }
{
    let count = cursor.scope_len();
    declare_all(cursor, own)?;
    let body = block(alloc, cursor, depth)?;
    cursor.leave(count);
    Ok(body)
}

// A function definition, whose specifiers and declarator were read (6.9.1).
#[tactic(auto, unfolding(crate::specs::Units::definition, cx_cursor::specs::Reading::bind))]
fn definition(
    alloc: Global,
    cursor: &mut Cursor<'_>,
    depth: u32,
    specs: Items<Spec>,
    read: ReadDeclarator,
) -> Result<External, Fault>
    requires { depth < 2 ^ 31 }
    ensures { Answers (λ e. external_view e) result cursor.new
        (reader.definition depth (spec_trees (map spec_view specs)) (declarator_read (declarator_view read.tree) (map bound read.own)) cursor.old) }
{
    declare(cursor, specs.as_slice(), read.tree.get())?;
    let body = body(alloc, cursor, depth, read.own.as_slice())?;
    let definition = Definition {
        specs,
        declarator: read.tree,
        body,
        lines: Items::new(alloc),
    };
    Ok(External::Function(Boxed::new(alloc, definition)?))
}

// What stands behind the specifiers and a declarator.
#[tactic(auto, unfolding(crate::specs::Units::behind_declarator, cx_cursor::specs::Reading::bind))]
fn behind_declarator(
    alloc: Global,
    cursor: &mut Cursor<'_>,
    depth: u32,
    specs: Items<Spec>,
    read: ReadDeclarator,
) -> Result<External, Fault>
    requires depth { depth < 2 ^ 31 }
    requires measured { read.depth ≡ declarator_depth (declarator_view read.tree) }
    ensures { Answers (λ e. external_view e) result cursor.new
        (reader.behind_declarator depth (spec_trees (map spec_view specs)) (declarator_read (declarator_view read.tree) (map bound read.own)) cursor.old) }
{
    if cursor.sees(Punct::LeftBrace) {
        return definition(alloc, cursor, depth, specs, read);
    }
    let decl = behind_first(alloc, cursor, depth, specs, read)?;
    Ok(External::Declaration(decl))
}

// An external declaration (6.9) whose parts are at most `depth` nodes deep.
#[tactic(auto, unfolding(crate::specs::Units::external, crate::specs::Units::behind_specs, cx_cursor::specs::Reading::bind))]
fn external(alloc: Global, cursor: &mut Cursor<'_>, depth: u32) -> Result<External, Fault>
    requires { depth < 2 ^ 31 }
    ensures { Answers (λ e. external_view e) result cursor.new (reader.external depth cursor.old) }
{
    let specs = specs_from(alloc, cursor, depth, true)?;
    if cursor.sees(Punct::Semicolon) {
        let decl = no_declarators(alloc, cursor, specs.list)?;
        return Ok(External::Declaration(decl));
    }
    let read = declarator(alloc, cursor, depth, Form::Named)?;
    behind_declarator(alloc, cursor, depth, specs.list, read)
}

// One more external declaration.
#[tactic(auto, unfolding(cx_cursor::specs::Lists::taking, cx_cursor::specs::Lists::comma_item, cx_cursor::specs::Reading::bind))]
fn next_external(
    alloc: Global,
    cursor: &mut Cursor<'_>,
    depth: u32,
    parts: Items<External>,
) -> Result<Items<External>, Fault>
    requires { depth < 2 ^ 31 }
    ensures { Answers (λ l. map external_view l) result cursor.new
        (taking (reader.external depth) reader.with_external (map external_view parts) cursor.old) }
{
    let mut parts = parts;
    parts.push(external(alloc, cursor, depth)?)?;
    Ok(parts)
}

// The external declarations up to the end.
#[tactic(auto, using(cx_cursor::proofs::Turns::many_out, cx_cursor::proofs::Turns::many_stop, cx_cursor::proofs::Turns::many_goes), unfolding(cx_cursor::specs::Lists::many_ahead, cx_cursor::specs::Reading::bind))]
fn externals_behind(
    alloc: Global,
    cursor: &mut Cursor<'_>,
    depth: u32,
    parts: Items<External>,
) -> Result<Items<External>, Fault>
    requires { depth < 2 ^ 31 }
    ensures { Answers (λ l. map external_view l) result cursor.new
        (many_ahead reader.at_end (taking (reader.external depth) reader.with_external) (map external_view parts) cursor.old) }
{
    let mut parts = parts;
    for _turn in 0..cursor.turns() {
        if cursor.peek().shows_end() {
            return Ok(parts);
        }
        parts = next_external(alloc, cursor, depth, parts)?;
    }
    Err(cursor.no_tree())
}

/// Reads one external declaration or more, up to the end of the tokens, each with parts that are at most
/// `depth` nodes deep (6.9).
#[tactic(auto, unfolding(crate::specs::Units::unit, cx_cursor::specs::Reading::bind))]
pub fn read_unit(alloc: Global, cursor: &mut Cursor<'_>, depth: u32) -> Result<Unit, Fault>
    requires { depth < 2 ^ 31 }
    ensures { Answers (λ u. unit_view u) result cursor.new (reader.unit depth cursor.old) }
{
    let first = next_external(alloc, cursor, depth, Items::new(alloc))?;
    let parts = externals_behind(alloc, cursor, depth, first)?;
    Ok(Unit {
        parts,
        lines: Items::new(alloc),
    })
}
