//! Units (ISO C99, 6.9).

ghost use Rattle.std.specs.Prelude.{◌≡◌, ◌<◌, ◌^◌, map};
ghost use Rattle.straight_parse.specs.Declarators.{measured_declarator};
ghost use Rattle.straight_parse.specs.Lists as lists;
ghost use Rattle.straight_parse.specs.Reading.{Answers};
ghost use Rattle.straight_parse.specs.Units as reader;
ghost use Rattle.straight_tree.specs.Views.{declarator_view, external_view, specs_view, unit_view};

use crate::cursor::Cursor;
use crate::declarations::declaration;
use crate::declarators::{declarator, specs};
use crate::fault::Fault;
use crate::nodes::{ReadDeclarator, one_line};
use crate::sight::Sight;
use crate::stmts::block;
use cr_base::{Boxed, Items};
use cx_lex::Punct;
use std::alloc::Global;
use straight_tree::{Decl, Declarator, External, Specs, Unit};

// The body of a function (6.9.1) whose declarator was read.
#[tactic(auto, unfolding(crate::specs::Units::definition, crate::specs::Reading::bind))]
fn definition(
    alloc: Global,
    cursor: &mut Cursor<'_>,
    depth: u32,
    specs: Specs,
    declarator: Boxed<Declarator>,
) -> Result<External, Fault>
    requires { depth < 2 ^ 31 }
    ensures { Answers (λ e. external_view e) result cursor.new
        (reader.definition depth (specs_view specs) (declarator_view declarator) cursor.old) }
{
    let body = block(alloc, cursor, depth)?;
    Ok(External::Function {
        specs,
        declarator: declarator.into_inner(),
        body,
        lines: Items::new(alloc),
    })
}

// What stands behind the specifiers and the first declarator.
#[tactic(auto, unfolding(crate::specs::Units::behind_first, crate::specs::Reading::bind))]
fn behind_first(
    alloc: Global,
    cursor: &mut Cursor<'_>,
    depth: u32,
    specs: Specs,
    left: ReadDeclarator,
) -> Result<External, Fault>
    requires { depth < 2 ^ 31 }
    ensures { Answers (λ e. external_view e) result cursor.new
        (reader.behind_first depth (specs_view specs) (measured_declarator (declarator_view left.tree) left.depth) cursor.old) }
{
    if cursor.sees(Punct::LeftBrace) {
        return definition(alloc, cursor, depth, specs, left.tree);
    }
    let decl = declaration(alloc, cursor, depth, specs, left)?;
    Ok(External::Decl(decl))
}

// A declaration without declarator (6.7).
#[tactic(auto, unfolding(crate::specs::Units::no_declarator, crate::specs::Reading::bind))]
fn no_declarator(alloc: Global, cursor: &mut Cursor<'_>, specs: Specs) -> Result<External, Fault>
    ensures { Answers (λ e. external_view e) result cursor.new (reader.no_declarator (specs_view specs) cursor.old) }
{
    let last = cursor.mark(Punct::Semicolon)?;
    let lines = one_line(alloc, last)?;
    Ok(External::Decl(Decl {
        specs,
        list: Items::new(alloc),
        lines,
    }))
}

#[tactic(auto, unfolding(crate::specs::Units::behind_specs, crate::specs::Reading::bind))]
fn behind_specs(
    alloc: Global,
    cursor: &mut Cursor<'_>,
    depth: u32,
    specs: Specs,
) -> Result<External, Fault>
    requires { depth < 2 ^ 31 }
    ensures { Answers (λ e. external_view e) result cursor.new (reader.behind_specs depth (specs_view specs) cursor.old) }
{
    if cursor.sees(Punct::Semicolon) {
        return no_declarator(alloc, cursor, specs);
    }
    let left = declarator(alloc, cursor, depth)?;
    behind_first(alloc, cursor, depth, specs, left)
}

// An external declaration (6.9) whose parts are at most `depth` nodes deep.
#[tactic(auto, unfolding(crate::specs::Units::external, crate::specs::Reading::bind))]
fn external(alloc: Global, cursor: &mut Cursor<'_>, depth: u32) -> Result<External, Fault>
    requires { depth < 2 ^ 31 }
    ensures { Answers (λ e. external_view e) result cursor.new (reader.external depth cursor.old) }
{
    let specs = specs(alloc, cursor, depth)?;
    behind_specs(alloc, cursor, depth, specs)
}

fn at_end(sight: Sight) -> bool
    ensures { result ≡ reader.at_end sight }
{
    matches!(sight, Sight::End)
}

// One more external declaration.
#[tactic(auto, unfolding(crate::specs::Lists::taking, crate::specs::Reading::bind))]
fn next_external(
    alloc: Global,
    cursor: &mut Cursor<'_>,
    depth: u32,
    parts: Items<External>,
) -> Result<Items<External>, Fault>
    requires { depth < 2 ^ 31 }
    ensures { Answers (λ l. map external_view l) result cursor.new
        (lists.taking (reader.external depth) reader.with_external (map external_view parts) cursor.old) }
{
    let mut parts = parts;
    let next = external(alloc, cursor, depth)?;
    parts.push(next)?;
    Ok(parts)
}

// The external declarations up to the end.
#[tactic(auto, using(crate::proofs::Turns::many_out, crate::proofs::Turns::many_stop, crate::proofs::Turns::many_goes), unfolding(crate::specs::Lists::many_ahead, crate::specs::Reading::bind))]
fn externals_behind(
    alloc: Global,
    cursor: &mut Cursor<'_>,
    depth: u32,
    parts: Items<External>,
) -> Result<Items<External>, Fault>
    requires { depth < 2 ^ 31 }
    ensures { Answers (λ l. map external_view l) result cursor.new
        (lists.many_ahead reader.at_end (lists.taking (reader.external depth) reader.with_external) (map external_view parts) cursor.old) }
{
    let mut parts = parts;
    for _turn in 0..cursor.turns() {
        if at_end(cursor.peek()) {
            return Ok(parts);
        }
        parts = next_external(alloc, cursor, depth, parts)?;
    }
    Err(Fault::NoTree)
}

/// Reads one external declaration or more, up to the end of the tokens, each with parts that are at
/// most `depth` nodes deep (6.9).
#[tactic(auto, unfolding(crate::specs::Units::unit, crate::specs::Reading::bind))]
pub fn read_unit(alloc: Global, cursor: &mut Cursor<'_>, depth: u32) -> Result<Unit, Fault>
    requires { depth < 2 ^ 31 }
    ensures { Answers (λ u. unit_view u) result cursor.new (reader.unit depth cursor.old) }
{
    let first = next_external(alloc, cursor, depth, Items::new(alloc))?;
    let parts = externals_behind(alloc, cursor, depth, first)?;
    Ok(Unit {
        parts,
        lines: Items::new(alloc),
    })
}
