//! Specifiers and qualifiers (ISO C99, 6.7 to 6.7.4).

ghost use Rattle.std.specs.Prelude.{not, ◌≡◌, ◌≤◌, ◌<◌, ◌^◌, ◌++◌, suc, map, option_map, IfOk, [], ◌∷◌};
ghost use Rattle.cx_cursor.specs.Lists as lists;
ghost use Rattle.cx_cursor.specs.Lists.{list_read, many_ahead, taking};
ghost use Rattle.cx_cursor.specs.Reading.{Answers};
ghost use Rattle.cx_cursor.specs.Sights.{sight};
ghost use Rattle.cx_expr.specs.Asked.{IsBelow};
ghost use Rattle.cx_expr.specs.Knot.{readers};
ghost use Rattle.cx_expr.specs.Specifiers as reader;
ghost use Rattle.cx_expr.specs.Specifiers.{specs_read};
ghost use Rattle.cx_tree.specs.Names.{is_type_specifier};
ghost use Rattle.cx_tree.specs.Trees as tree;
ghost use Rattle.cx_tree.specs.Depth.{spec_depth, specs_depth};
ghost use Rattle.cx_tree.specs.Views.{spec_view, specs as spec_trees};

use crate::enumerators::enum_behind;
use crate::members::record_behind;
use cr_base::{Items, Memory};
use cx_cursor::{Cursor, Fault, Sight, one_line};
use cx_expr::below::spec;
use cx_expr::{Found, ReadSpec, Wanted, spec_of};
use cx_lex::Keyword;
use cx_tree::Spec;
use cx_words::{begins_spec, is_type_spec, stops_specs};
use std::alloc::Global;

/// Specifiers that were read: the list, the depth of the deepest, and whether a type specifier is among
/// them.
#[derive(Drop)]
pub struct ReadSpecs {
    pub list: Items<Spec>,
    pub depth: u32,
    pub typed: bool,
}

// A keyword that is a whole specifier (6.7.1 to 6.7.4).
fn key_of(alloc: Global, word: Keyword, line: u32) -> Result<ReadSpec, Memory>
    ensures tree { IfOk result (λ r. spec_view r.tree ≡ tree.Key word (line ∷ [])) }
    ensures deep { IfOk result (λ r. r.depth ≡ 1) }
{
    let lines = one_line(alloc, line)?;
    spec_of(alloc, Spec::Key { word, lines }, 1)
}

// What stands behind a keyword that begins a specifier.
fn spec_behind<F: Fn(&mut Cursor<'_>, u32, Wanted) -> Result<Found, Fault>>(
    alloc: Global,
    cursor: &mut Cursor<'_>,
    depth: u32,
    below: &F,
    word: Keyword,
    line: u32,
) -> Result<ReadSpec, Fault>
    requires parts { IsBelow (F.pre below.now) (F.post below.now) depth }
    requires depth { depth < 2 ^ 31 }
    ensures reads { Answers (λ r. spec_view r.tree) result cursor.new (reader.spec_behind (readers depth) word line cursor.old) }
    ensures depth { IfOk result (λ r. r.depth ≡ spec_depth (spec_view r.tree)) }
    ensures within { IfOk result (λ r. r.depth ≤ suc depth) }
{
    match word {
        Keyword::Struct => record_behind(alloc, cursor, depth, below, false, line),
        Keyword::Union => record_behind(alloc, cursor, depth, below, true, line),
        Keyword::Enum => enum_behind(alloc, cursor, depth, below, line),
        _ => {
            if !begins_spec(true, word) {
                return Err(cursor.no_tree());
            }
            Ok(key_of(alloc, word, line)?)
        }
    }
}

#[tactic(auto, unfolding(cx_expr::specs::Specifiers::key_spec, cx_cursor::specs::Reading::bind))]
fn key_spec<F: Fn(&mut Cursor<'_>, u32, Wanted) -> Result<Found, Fault>>(
    alloc: Global,
    cursor: &mut Cursor<'_>,
    depth: u32,
    below: &F,
) -> Result<ReadSpec, Fault>
    requires parts { IsBelow (F.pre below.now) (F.post below.now) depth }
    requires depth { depth < 2 ^ 31 }
    ensures reads { Answers (λ r. spec_view r.tree) result cursor.new (reader.key_spec (readers depth) cursor.old) }
    ensures depth { IfOk result (λ r. r.depth ≡ spec_depth (spec_view r.tree)) }
    ensures within { IfOk result (λ r. r.depth ≤ suc depth) }
{
    let (word, line) = cursor.keyword()?;
    spec_behind(alloc, cursor, depth, below, word, line)
}

// A typedef name (6.7.7).
#[tactic(auto, unfolding(cx_expr::specs::Specifiers::typedef_spec, cx_cursor::specs::Reading::bind))]
fn typedef_spec(alloc: Global, cursor: &mut Cursor<'_>) -> Result<ReadSpec, Fault>
    ensures reads { Answers (λ r. spec_view r.tree) result cursor.new (reader.typedef_spec cursor.old) }
    ensures depth { IfOk result (λ r. r.depth ≡ spec_depth (spec_view r.tree)) }
    ensures within { IfOk result (λ r. r.depth ≤ 1) }
{
    let (name, line) = cursor.word()?;
    let lines = one_line(alloc, line)?;
    Ok(spec_of(alloc, Spec::Typedef { name, lines }, 1)?)
}

/// Reads a specifier whose parts are at most `depth` nodes deep.
#[tactic(auto, unfolding(cx_expr::specs::Specifiers::spec_from))]
pub fn spec_from<F: Fn(&mut Cursor<'_>, u32, Wanted) -> Result<Found, Fault>>(
    alloc: Global,
    cursor: &mut Cursor<'_>,
    depth: u32,
    below: &F,
) -> Result<ReadSpec, Fault>
    requires parts { IsBelow (F.pre below.now) (F.post below.now) depth }
    requires depth { depth < 2 ^ 31 }
    ensures reads { Answers (λ r. spec_view r.tree) result cursor.new (reader.spec_from (readers depth) cursor.old) }
    ensures depth { IfOk result (λ r. r.depth ≡ spec_depth (spec_view r.tree)) }
    ensures within { IfOk result (λ r. r.depth ≤ suc depth) }
{
    match cursor.peek() {
        Sight::TypeWord => typedef_spec(alloc, cursor),
        Sight::Key(_) => key_spec(alloc, cursor, depth, below),
        _ => Err(cursor.no_tree()),
    }
}

// One more specifier.
#[tactic(auto, unfolding(cx_cursor::specs::Lists::taking, cx_cursor::specs::Lists::comma_item, cx_cursor::specs::Reading::bind))]
fn next_spec<F: Fn(&mut Cursor<'_>, u32, Wanted) -> Result<Found, Fault>>(
    alloc: Global,
    cursor: &mut Cursor<'_>,
    depth: u32,
    below: &F,
    specs: ReadSpecs,
) -> Result<ReadSpecs, Fault>
    requires parts { IsBelow (F.pre below.now) (F.post below.now) depth }
    requires depth { depth < 2 ^ 31 }
    requires measured { specs.depth ≡ specs_depth (spec_trees (map spec_view specs.list)) }
    requires within { specs.depth ≤ depth }
    ensures reads { Answers (λ s. specs_read (map spec_view s.list) s.typed) result cursor.new
        (taking (readers depth).spec reader.with_spec (specs_read (map spec_view specs.list) specs.typed) cursor.old) }
    ensures depth { IfOk result (λ s. s.depth ≡ specs_depth (spec_trees (map spec_view s.list))) }
    ensures within { IfOk result (λ s. s.depth ≤ depth) }
{
    let mut specs = specs;
    let next = spec(cursor, depth, below)?;
    specs.typed = specs.typed || is_type_spec(next.tree.get());
    specs.depth = specs.depth.max(next.depth);
    specs.list.push(next.tree.into_inner())?;
    Ok(specs)
}

/// Reads one specifier or more, each at most `depth` nodes deep: of any declaration where `all`, or else of a
/// member or of a type name (6.7, 6.7.2.1).
#[tactic(auto, using(cx_cursor::proofs::Turns::many_out, cx_cursor::proofs::Turns::many_stop, cx_cursor::proofs::Turns::many_goes), unfolding(cx_expr::specs::Specifiers::specs_from, cx_cursor::specs::Lists::many_ahead, cx_cursor::specs::Reading::bind))]
pub fn specs_from<F: Fn(&mut Cursor<'_>, u32, Wanted) -> Result<Found, Fault>>(
    alloc: Global,
    cursor: &mut Cursor<'_>,
    depth: u32,
    below: &F,
    all: bool,
) -> Result<ReadSpecs, Fault>
    requires parts { IsBelow (F.pre below.now) (F.post below.now) depth }
    requires depth { depth < 2 ^ 31 }
    ensures reads { Answers (λ s. specs_read (map spec_view s.list) s.typed) result cursor.new (reader.specs_from (readers depth) all cursor.old) }
    ensures depth { IfOk result (λ s. s.depth ≡ specs_depth (spec_trees (map spec_view s.list))) }
    ensures within { IfOk result (λ s. s.depth ≤ depth) }
{
    let mut specs = ReadSpecs {
        list: Items::new(alloc),
        depth: 0,
        typed: false,
    };
    if stops_specs(all, false, cursor) {
        return Err(cursor.no_tree());
    }
    for _turn in 0..cursor.turns() {
        if stops_specs(all, specs.typed, cursor) {
            return Ok(specs);
        }
        specs = next_spec(alloc, cursor, depth, below, specs)?;
    }
    Err(cursor.no_tree())
}
