//! Enumerations (ISO C99, 6.7.2.2).

ghost use Rattle.std.specs.Prelude.{◌≡◌, ◌≤◌, ◌<◌, ◌^◌, ◌++◌, suc, map, option_map, IfOk, OnOk, false, [], ◌∷◌};
ghost use Rattle.cx_cursor.specs.Lists as lists;
ghost use Rattle.cx_cursor.specs.Lists.{list_read, many_ahead, taking};
ghost use Rattle.cx_cursor.specs.Reading.{Answers, at};
ghost use Rattle.cx_cursor.specs.Scopes.{binding};
ghost use Rattle.cx_expr.specs.Asked.{IsBelow};
ghost use Rattle.cx_expr.specs.Knot.{readers};
ghost use Rattle.cx_expr.specs.Specifiers as reader;
ghost use Rattle.cx_expr.specs.Specifiers.{braced_read, name_of};
ghost use Rattle.cx_tree.specs.Depth.{enumerator_depth, enumerators_depth, spec_depth};
ghost use Rattle.cx_tree.specs.Trees as tree;
ghost use Rattle.cx_tree.specs.Views.{enumerator_view, enumerators, option_enumerators, spec_view};

use cr_base::{Boxed, Items, Memory, Name};
use cx_cursor::{Cursor, Fault, Listed, Measured, one_line, two_lines};
use cx_expr::below::expr;
use cx_expr::{Found, ReadEnumerator, ReadSpec, Wanted, spec_of};
use cx_lex::Punct;
use cx_tree::{Enumerator, Spec};
use cx_words::level::CONDITIONAL;
use cx_words::no_further;
use std::alloc::Global;

// An enumerator in a box, declared as an ordinary name.
fn declared(
    alloc: Global,
    cursor: &mut Cursor<'_>,
    enumerator: Enumerator,
    depth: u32,
) -> Result<ReadEnumerator, Memory>
    ensures tree { IfOk result (λ r. enumerator_view r.tree ≡ enumerator_view enumerator) }
    ensures deep { IfOk result (λ r. r.depth ≡ depth) }
    ensures scope { OnOk result (cursor.new ≡ at cursor.old.tokens (cursor.old.names ++ binding (name_of (enumerator_view enumerator)) false ∷ [])) }
{
    cursor.declare(&enumerator.name, false)?;
    let tree = Boxed::new(alloc, enumerator)?;
    Ok(Measured { tree, depth })
}

// An enumerator with a value.
#[tactic(auto, unfolding(cx_expr::specs::Specifiers::enumerator_value, cx_cursor::specs::Reading::bind))]
fn enumerator_value<F: Fn(&mut Cursor<'_>, u32, Wanted) -> Result<Found, Fault>>(
    alloc: Global,
    cursor: &mut Cursor<'_>,
    depth: u32,
    below: &F,
    name: Name,
    line: u32,
) -> Result<ReadEnumerator, Fault>
    requires parts { IsBelow (F.pre below.now) (F.post below.now) depth }
    requires depth { depth < 2 ^ 31 }
    ensures reads { Answers (λ r. enumerator_view r.tree) result cursor.new (reader.enumerator_value (readers depth) name line cursor.old) }
    ensures depth { IfOk result (λ r. r.depth ≡ enumerator_depth (enumerator_view r.tree)) }
    ensures within { IfOk result (λ r. r.depth ≤ suc depth) }
{
    let lines = two_lines(alloc, line, cursor.mark(Punct::Equal)?)?;
    let value = expr(cursor, depth, below, CONDITIONAL)?;
    let depth = value.depth + 1;
    let enumerator = Enumerator {
        name,
        value: Some(value.tree),
        lines,
    };
    Ok(declared(alloc, cursor, enumerator, depth)?)
}

// An enumerator whose value is at most `depth` nodes deep.
#[tactic(auto, unfolding(cx_expr::specs::Specifiers::enumerator_from, cx_cursor::specs::Reading::bind))]
fn enumerator_from<F: Fn(&mut Cursor<'_>, u32, Wanted) -> Result<Found, Fault>>(
    alloc: Global,
    cursor: &mut Cursor<'_>,
    depth: u32,
    below: &F,
) -> Result<ReadEnumerator, Fault>
    requires parts { IsBelow (F.pre below.now) (F.post below.now) depth }
    requires depth { depth < 2 ^ 31 }
    ensures reads { Answers (λ r. enumerator_view r.tree) result cursor.new (reader.enumerator_from (readers depth) cursor.old) }
    ensures depth { IfOk result (λ r. r.depth ≡ enumerator_depth (enumerator_view r.tree)) }
    ensures within { IfOk result (λ r. r.depth ≤ suc depth) }
{
    let (name, line) = cursor.word()?;
    if cursor.sees(Punct::Equal) {
        return enumerator_value(alloc, cursor, depth, below, name, line);
    }
    let lines = one_line(alloc, line)?;
    let enumerator = Enumerator {
        name,
        value: None,
        lines,
    };
    Ok(declared(alloc, cursor, enumerator, 1)?)
}

// An enumerator, at most `depth` nodes deep.
#[tactic(auto, using(cx_expr::proofs::Turns::enumerator_none, cx_expr::proofs::Turns::enumerator_some, cx_expr::proofs::Shallow::shallower))]
fn enumerator<F: Fn(&mut Cursor<'_>, u32, Wanted) -> Result<Found, Fault>>(
    alloc: Global,
    cursor: &mut Cursor<'_>,
    depth: u32,
    below: &F,
) -> Result<ReadEnumerator, Fault>
    requires parts { IsBelow (F.pre below.now) (F.post below.now) depth }
    requires depth { depth < 2 ^ 31 }
    ensures reads { Answers (λ r. enumerator_view r.tree) result cursor.new ((readers depth).enumerator cursor.old) }
    ensures depth { IfOk result (λ r. r.depth ≡ enumerator_depth (enumerator_view r.tree)) }
    ensures within { IfOk result (λ r. r.depth ≤ depth) }
{
    if depth == 0 {
        return Err(cursor.no_tree());
    }
    enumerator_from(alloc, cursor, depth - 1, below)
}

// A comma and the enumerator behind it.
#[tactic(auto, unfolding(cx_cursor::specs::Lists::taking, cx_cursor::specs::Lists::comma_item, cx_cursor::specs::Reading::bind))]
fn next_enumerator<F: Fn(&mut Cursor<'_>, u32, Wanted) -> Result<Found, Fault>>(
    alloc: Global,
    cursor: &mut Cursor<'_>,
    depth: u32,
    below: &F,
    list: Listed<Enumerator>,
) -> Result<Listed<Enumerator>, Fault>
    requires parts { IsBelow (F.pre below.now) (F.post below.now) depth }
    requires depth { depth < 2 ^ 31 }
    requires measured { list.depth ≡ enumerators_depth (enumerators (map enumerator_view list.list)) }
    requires within { list.depth ≤ depth }
    ensures reads { Answers (λ l. list_read (map enumerator_view l.list) l.lines) result cursor.new
        (lists.next_item (readers depth).enumerator (list_read (map enumerator_view list.list) list.lines) cursor.old) }
    ensures depth { IfOk result (λ l. l.depth ≡ enumerators_depth (enumerators (map enumerator_view l.list))) }
    ensures within { IfOk result (λ l. l.depth ≤ depth) }
{
    let mut list = list;
    list.push_line(cursor.mark(Punct::Comma)?)?;
    let one = enumerator(alloc, cursor, depth, below)?;
    list.push(one)?;
    Ok(list)
}

// The enumerators behind the first.
#[tactic(auto, using(cx_cursor::proofs::Turns::many_out, cx_cursor::proofs::Turns::many_stop, cx_cursor::proofs::Turns::many_goes), unfolding(cx_cursor::specs::Lists::many_ahead, cx_cursor::specs::Reading::bind))]
fn enumerators_behind<F: Fn(&mut Cursor<'_>, u32, Wanted) -> Result<Found, Fault>>(
    alloc: Global,
    cursor: &mut Cursor<'_>,
    depth: u32,
    below: &F,
    list: Listed<Enumerator>,
) -> Result<Listed<Enumerator>, Fault>
    requires parts { IsBelow (F.pre below.now) (F.post below.now) depth }
    requires depth { depth < 2 ^ 31 }
    requires measured { list.depth ≡ enumerators_depth (enumerators (map enumerator_view list.list)) }
    requires within { list.depth ≤ depth }
    ensures reads { Answers (λ l. list_read (map enumerator_view l.list) l.lines) result cursor.new
        (many_ahead reader.no_further (lists.next_item (readers depth).enumerator) (list_read (map enumerator_view list.list) list.lines) cursor.old) }
    ensures depth { IfOk result (λ l. l.depth ≡ enumerators_depth (enumerators (map enumerator_view l.list))) }
    ensures within { IfOk result (λ l. l.depth ≤ depth) }
{
    let mut list = list;
    for _turn in 0..cursor.turns() {
        if no_further(cursor) {
            return Ok(list);
        }
        list = next_enumerator(alloc, cursor, depth, below, list)?;
    }
    Err(cursor.no_tree())
}

// ReadEnumerators in braces that were read, the depth of the deepest, whether a comma stands behind the last,
// and the lines of the list's own tokens.
#[derive(Drop)]
struct ReadEnumerators {
    list: Items<Enumerator>,
    depth: u32,
    last_comma: bool,
    lines: Items<u32>,
}

// The end of a list in braces, behind its enumerators.
#[tactic(auto, unfolding(cx_expr::specs::Specifiers::closing_brace, cx_cursor::specs::Reading::bind))]
fn closed(cursor: &mut Cursor<'_>, list: Listed<Enumerator>) -> Result<ReadEnumerators, Fault>
    ensures reads { Answers (λ e. braced_read (map enumerator_view e.list) e.last_comma e.lines) result cursor.new
        (reader.closing_brace (list_read (map enumerator_view list.list) list.lines) cursor.old) }
    ensures depth { IfOk result (λ e. e.depth ≡ list.depth) }
    ensures list { IfOk result (λ e. e.list ≡ list.list) }
{
    let mut list = list;
    let last_comma = cursor.sees(Punct::Comma);
    if last_comma {
        list.push_line(cursor.mark(Punct::Comma)?)?;
    }
    list.push_line(cursor.mark(Punct::RightBrace)?)?;
    let Listed { list, depth, lines } = list;
    Ok(ReadEnumerators {
        list,
        depth,
        last_comma,
        lines,
    })
}

// One enumerator or more in braces, with the lines of these behind those given.
#[tactic(auto, unfolding(cx_expr::specs::Specifiers::braced, cx_expr::specs::Specifiers::items_in, cx_cursor::specs::Reading::bind))]
fn enumerators<F: Fn(&mut Cursor<'_>, u32, Wanted) -> Result<Found, Fault>>(
    alloc: Global,
    cursor: &mut Cursor<'_>,
    depth: u32,
    below: &F,
    lines: Items<u32>,
) -> Result<ReadEnumerators, Fault>
    requires parts { IsBelow (F.pre below.now) (F.post below.now) depth }
    requires depth { depth < 2 ^ 31 }
    ensures reads { Answers (λ e. braced_read (map enumerator_view e.list) e.last_comma e.lines) result cursor.new
        (reader.braced (readers depth).enumerator lines cursor.old) }
    ensures depth { IfOk result (λ e. e.depth ≡ enumerators_depth (enumerators (map enumerator_view e.list))) }
    ensures within { IfOk result (λ e. e.depth ≤ depth) }
{
    let mut list = Listed::new(alloc, lines);
    list.push_line(cursor.mark(Punct::LeftBrace)?)?;
    let one = enumerator(alloc, cursor, depth, below)?;
    list.push(one)?;
    let list = enumerators_behind(alloc, cursor, depth, below, list)?;
    closed(cursor, list)
}

// An enumeration, with its enumerators or without.
fn enum_node(
    alloc: Global,
    tag: Option<Name>,
    list: Option<Items<Enumerator>>,
    last_comma: bool,
    lines: Items<u32>,
    depth: u32,
) -> Result<ReadSpec, Memory>
    ensures tree { IfOk result (λ r. spec_view r.tree ≡ tree.Enum tag (option_enumerators (option_map (map enumerator_view) list)) last_comma lines) }
    ensures deep { IfOk result (λ r. r.depth ≡ depth) }
{
    let spec = Spec::Enum {
        tag,
        list,
        last_comma,
        lines,
    };
    spec_of(alloc, spec, depth)
}

// An enumeration with its enumerators.
fn enum_of(alloc: Global, tag: Option<Name>, read: ReadEnumerators) -> Result<ReadSpec, Memory>
    requires { read.depth < 2 ^ 31 }
    ensures tree { IfOk result (λ r. spec_view r.tree ≡ reader.enum_with tag (braced_read (map enumerator_view read.list) read.last_comma read.lines)) }
    ensures deep { IfOk result (λ r. r.depth ≡ suc read.depth) }
{
    let ReadEnumerators {
        list,
        depth,
        last_comma,
        lines,
    } = read;
    enum_node(alloc, tag, Some(list), last_comma, lines, depth + 1)
}

// What stands behind `enum` and a tag.
#[tactic(auto, unfolding(cx_expr::specs::Specifiers::enum_tagged, cx_cursor::specs::Reading::bind))]
fn enum_tagged<F: Fn(&mut Cursor<'_>, u32, Wanted) -> Result<Found, Fault>>(
    alloc: Global,
    cursor: &mut Cursor<'_>,
    depth: u32,
    below: &F,
    line: u32,
) -> Result<ReadSpec, Fault>
    requires parts { IsBelow (F.pre below.now) (F.post below.now) depth }
    requires depth { depth < 2 ^ 31 }
    ensures reads { Answers (λ r. spec_view r.tree) result cursor.new (reader.enum_tagged (readers depth) line cursor.old) }
    ensures depth { IfOk result (λ r. r.depth ≡ spec_depth (spec_view r.tree)) }
    ensures within { IfOk result (λ r. r.depth ≤ suc depth) }
{
    let (name, last) = cursor.word()?;
    let lines = two_lines(alloc, line, last)?;
    if cursor.sees(Punct::LeftBrace) {
        let read = enumerators(alloc, cursor, depth, below, lines)?;
        return Ok(enum_of(alloc, Some(name), read)?);
    }
    let spec = Spec::Enum {
        tag: Some(name),
        list: None,
        last_comma: false,
        lines,
    };
    Ok(spec_of(alloc, spec, 1)?)
}

/// What stands behind `enum`.
#[tactic(auto, unfolding(cx_expr::specs::Specifiers::enum_behind, cx_expr::specs::Specifiers::enum_untagged, cx_cursor::specs::Reading::bind))]
pub fn enum_behind<F: Fn(&mut Cursor<'_>, u32, Wanted) -> Result<Found, Fault>>(
    alloc: Global,
    cursor: &mut Cursor<'_>,
    depth: u32,
    below: &F,
    line: u32,
) -> Result<ReadSpec, Fault>
    requires parts { IsBelow (F.pre below.now) (F.post below.now) depth }
    requires depth { depth < 2 ^ 31 }
    ensures reads { Answers (λ r. spec_view r.tree) result cursor.new (reader.enum_behind (readers depth) line cursor.old) }
    ensures depth { IfOk result (λ r. r.depth ≡ spec_depth (spec_view r.tree)) }
    ensures within { IfOk result (λ r. r.depth ≤ suc depth) }
{
    if cursor.peek().shows_word() {
        return enum_tagged(alloc, cursor, depth, below, line);
    }
    let lines = one_line(alloc, line)?;
    let read = enumerators(alloc, cursor, depth, below, lines)?;
    Ok(enum_of(alloc, None, read)?)
}
