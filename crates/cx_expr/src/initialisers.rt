//! Initialisers (ISO C99, 6.7.8).

ghost use Rattle.std.specs.Prelude.{◌≡◌, ◌≤◌, ◌<◌, ◌^◌, ◌++◌, suc, map, IfOk, [], ◌∷◌};
ghost use Rattle.cx_cursor.specs.Lists as lists;
ghost use Rattle.cx_cursor.specs.Lists.{list_read, many_ahead, taking};
ghost use Rattle.cx_cursor.specs.Reading.{Answers};
ghost use Rattle.cx_expr.specs.Asked.{IsBelow};
ghost use Rattle.cx_expr.specs.Knot.{readers};
ghost use Rattle.cx_expr.specs.Initialisers as reader;
ghost use Rattle.cx_expr.specs.Specifiers as braces;
ghost use Rattle.cx_expr.specs.Specifiers.{braced_read};
ghost use Rattle.cx_tree.specs.Depth.{designator_depth, designators_depth, entries_depth, entry_depth, initialiser_depth, initialiser_list_depth};
ghost use Rattle.cx_tree.specs.Views.{designator_view, designators, entries, entry_view, initialiser_list_view, initialiser_view};

use crate::below::{expr, list};
use crate::nodes::{ReadDesignator, ReadEntry, ReadInitialiser, ReadList};
use crate::wanted::{Found, Wanted};
use cr_base::{Boxed, Items, Memory};
use cx_cursor::{Cursor, Fault, Listed, Measured, one_line, two_lines};
use cx_lex::Punct;
use cx_tree::{Designator, Entry, Initialiser, InitialiserList};
use cx_words::level::{ASSIGNMENT, CONDITIONAL};
use cx_words::{no_further, sees_designator};
use std::alloc::Global;

/// Reads an initialiser, at most `depth` nodes deep (6.7.8).
#[tactic(auto, unfolding(crate::specs::Initialisers::initialiser, cx_cursor::specs::Reading::bind))]
pub fn initialiser<F: Fn(&mut Cursor<'_>, u32, Wanted) -> Result<Found, Fault>>(
    alloc: Global,
    cursor: &mut Cursor<'_>,
    depth: u32,
    below: &F,
) -> Result<ReadInitialiser, Fault>
    requires parts { IsBelow (F.pre below.now) (F.post below.now) depth }
    requires depth { depth < 2 ^ 31 }
    ensures reads { Answers (λ r. initialiser_view r.tree) result cursor.new (reader.initialiser (readers depth) cursor.old) }
    ensures depth { IfOk result (λ r. r.depth ≡ initialiser_depth (initialiser_view r.tree)) }
    ensures within { IfOk result (λ r. r.depth ≤ depth) }
{
    if cursor.sees(Punct::LeftBrace) {
        let list = list(cursor, depth, below)?;
        let depth = list.depth;
        let tree = Boxed::new(alloc, Initialiser::Braced(list.tree))?;
        return Ok(Measured { tree, depth });
    }
    let single = expr(cursor, depth, below, ASSIGNMENT)?;
    let depth = single.depth;
    let tree = Boxed::new(alloc, Initialiser::Single(single.tree))?;
    Ok(Measured { tree, depth })
}

fn designator_of(alloc: Global, tree: Designator, depth: u32) -> Result<ReadDesignator, Memory>
    ensures tree { IfOk result (λ r. designator_view r.tree ≡ designator_view tree) }
    ensures deep { IfOk result (λ r. r.depth ≡ depth) }
{
    let tree = Boxed::new(alloc, tree)?;
    Ok(Measured { tree, depth })
}

// `[ at ]`
#[tactic(auto, unfolding(crate::specs::Initialisers::element, cx_cursor::specs::Reading::bind))]
fn element<F: Fn(&mut Cursor<'_>, u32, Wanted) -> Result<Found, Fault>>(
    alloc: Global,
    cursor: &mut Cursor<'_>,
    depth: u32,
    below: &F,
) -> Result<ReadDesignator, Fault>
    requires parts { IsBelow (F.pre below.now) (F.post below.now) depth }
    requires depth { depth < 2 ^ 31 }
    ensures reads { Answers (λ r. designator_view r.tree) result cursor.new (reader.element (readers depth) cursor.old) }
    ensures depth { IfOk result (λ r. r.depth ≡ designator_depth (designator_view r.tree)) }
    ensures within { IfOk result (λ r. r.depth ≤ suc depth) }
{
    let first = cursor.mark(Punct::LeftBracket)?;
    let at = expr(cursor, depth, below, CONDITIONAL)?;
    let lines = two_lines(alloc, first, cursor.mark(Punct::RightBracket)?)?;
    let depth = at.depth + 1;
    let at = at.tree;
    Ok(designator_of(alloc, Designator::Element { at, lines }, depth)?)
}

// `. name`
#[tactic(auto, unfolding(crate::specs::Initialisers::member, cx_cursor::specs::Reading::bind))]
fn member(alloc: Global, cursor: &mut Cursor<'_>) -> Result<ReadDesignator, Fault>
    ensures reads { Answers (λ r. designator_view r.tree) result cursor.new (reader.member cursor.old) }
    ensures depth { IfOk result (λ r. r.depth ≡ designator_depth (designator_view r.tree)) }
    ensures within { IfOk result (λ r. r.depth ≤ 1) }
{
    let first = cursor.mark(Punct::Dot)?;
    let (name, last) = cursor.word()?;
    let lines = two_lines(alloc, first, last)?;
    Ok(designator_of(alloc, Designator::Member { name, lines }, 1)?)
}

// A designator, at most `depth` nodes deep.
#[tactic(auto, using(crate::proofs::Turns::designator_none, crate::proofs::Turns::designator_some, crate::proofs::Shallow::shallower), unfolding(crate::specs::Initialisers::designator_from))]
fn designator<F: Fn(&mut Cursor<'_>, u32, Wanted) -> Result<Found, Fault>>(
    alloc: Global,
    cursor: &mut Cursor<'_>,
    depth: u32,
    below: &F,
) -> Result<ReadDesignator, Fault>
    requires parts { IsBelow (F.pre below.now) (F.post below.now) depth }
    requires depth { depth < 2 ^ 31 }
    ensures reads { Answers (λ r. designator_view r.tree) result cursor.new ((readers depth).designator cursor.old) }
    ensures depth { IfOk result (λ r. r.depth ≡ designator_depth (designator_view r.tree)) }
    ensures within { IfOk result (λ r. r.depth ≤ depth) }
{
    if depth == 0 {
        return Err(cursor.no_tree());
    }
    if cursor.sees(Punct::LeftBracket) {
        return element(alloc, cursor, depth - 1, below);
    }
    member(alloc, cursor)
}

// One more designator.
#[tactic(auto, unfolding(cx_cursor::specs::Lists::taking, cx_cursor::specs::Lists::comma_item, cx_cursor::specs::Reading::bind))]
fn next_designator<F: Fn(&mut Cursor<'_>, u32, Wanted) -> Result<Found, Fault>>(
    alloc: Global,
    cursor: &mut Cursor<'_>,
    depth: u32,
    below: &F,
    list: Listed<Designator>,
) -> Result<Listed<Designator>, Fault>
    requires parts { IsBelow (F.pre below.now) (F.post below.now) depth }
    requires depth { depth < 2 ^ 31 }
    requires measured { list.depth ≡ designators_depth (designators (map designator_view list.list)) }
    requires within { list.depth ≤ depth }
    ensures reads { Answers (λ l. map designator_view l.list) result cursor.new
        (taking (readers depth).designator reader.with_designator (map designator_view list.list) cursor.old) }
    ensures lines { IfOk result (λ l. l.lines ≡ list.lines) }
    ensures depth { IfOk result (λ l. l.depth ≡ designators_depth (designators (map designator_view l.list))) }
    ensures within { IfOk result (λ l. l.depth ≤ depth) }
{
    let mut list = list;
    let one = designator(alloc, cursor, depth, below)?;
    list.push(one)?;
    Ok(list)
}

// The designators behind the first.
#[tactic(auto, using(cx_cursor::proofs::Turns::many_out, cx_cursor::proofs::Turns::many_stop, cx_cursor::proofs::Turns::many_goes), unfolding(cx_cursor::specs::Lists::many_ahead, cx_cursor::specs::Reading::bind))]
fn designators_behind<F: Fn(&mut Cursor<'_>, u32, Wanted) -> Result<Found, Fault>>(
    alloc: Global,
    cursor: &mut Cursor<'_>,
    depth: u32,
    below: &F,
    list: Listed<Designator>,
) -> Result<Listed<Designator>, Fault>
    requires parts { IsBelow (F.pre below.now) (F.post below.now) depth }
    requires depth { depth < 2 ^ 31 }
    requires measured { list.depth ≡ designators_depth (designators (map designator_view list.list)) }
    requires within { list.depth ≤ depth }
    ensures reads { Answers (λ l. map designator_view l.list) result cursor.new
        (many_ahead reader.no_designator (taking (readers depth).designator reader.with_designator) (map designator_view list.list) cursor.old) }
    ensures lines { IfOk result (λ l. l.lines ≡ list.lines) }
    ensures depth { IfOk result (λ l. l.depth ≡ designators_depth (designators (map designator_view l.list))) }
    ensures within { IfOk result (λ l. l.depth ≤ depth) }
{
    let mut list = list;
    for _turn in 0..cursor.turns() {
        if !sees_designator(cursor) {
            return Ok(list);
        }
        list = next_designator(alloc, cursor, depth, below, list)?;
    }
    Err(cursor.no_tree())
}

// Designators, `=` and an initialiser.
#[tactic(auto, unfolding(crate::specs::Initialisers::designated, cx_cursor::specs::Reading::bind))]
fn designated<F: Fn(&mut Cursor<'_>, u32, Wanted) -> Result<Found, Fault>>(
    alloc: Global,
    cursor: &mut Cursor<'_>,
    depth: u32,
    below: &F,
) -> Result<ReadEntry, Fault>
    requires parts { IsBelow (F.pre below.now) (F.post below.now) depth }
    requires depth { depth < 2 ^ 31 }
    ensures reads { Answers (λ r. entry_view r.tree) result cursor.new (reader.designated (readers depth) cursor.old) }
    ensures depth { IfOk result (λ r. r.depth ≡ entry_depth (entry_view r.tree)) }
    ensures within { IfOk result (λ r. r.depth ≤ suc depth) }
{
    let list = Listed::new(alloc, Items::new(alloc));
    let list = next_designator(alloc, cursor, depth, below, list)?;
    let mut list = designators_behind(alloc, cursor, depth, below, list)?;
    list.push_line(cursor.mark(Punct::Equal)?)?;
    let init = initialiser(alloc, cursor, depth, below)?;
    let depth = list.depth.max(init.depth) + 1;
    let entry = Entry {
        designators: list.list,
        init: init.tree,
        lines: list.lines,
    };
    let tree = Boxed::new(alloc, entry)?;
    Ok(Measured { tree, depth })
}

// An initialiser of a list, with its designators, whose parts are at most `depth` nodes deep.
#[tactic(auto, unfolding(crate::specs::Initialisers::entry_from, cx_cursor::specs::Reading::bind))]
fn entry_from<F: Fn(&mut Cursor<'_>, u32, Wanted) -> Result<Found, Fault>>(
    alloc: Global,
    cursor: &mut Cursor<'_>,
    depth: u32,
    below: &F,
) -> Result<ReadEntry, Fault>
    requires parts { IsBelow (F.pre below.now) (F.post below.now) depth }
    requires depth { depth < 2 ^ 31 }
    ensures reads { Answers (λ r. entry_view r.tree) result cursor.new (reader.entry_from (readers depth) cursor.old) }
    ensures depth { IfOk result (λ r. r.depth ≡ entry_depth (entry_view r.tree)) }
    ensures within { IfOk result (λ r. r.depth ≤ suc depth) }
{
    if sees_designator(cursor) {
        return designated(alloc, cursor, depth, below);
    }
    let init = initialiser(alloc, cursor, depth, below)?;
    let depth = init.depth + 1;
    let entry = Entry {
        designators: Items::new(alloc),
        init: init.tree,
        lines: Items::new(alloc),
    };
    let tree = Boxed::new(alloc, entry)?;
    Ok(Measured { tree, depth })
}

// An initialiser in a list, at most `depth` nodes deep.
#[tactic(auto, using(crate::proofs::Turns::entry_none, crate::proofs::Turns::entry_some, crate::proofs::Shallow::shallower))]
fn entry<F: Fn(&mut Cursor<'_>, u32, Wanted) -> Result<Found, Fault>>(
    alloc: Global,
    cursor: &mut Cursor<'_>,
    depth: u32,
    below: &F,
) -> Result<ReadEntry, Fault>
    requires parts { IsBelow (F.pre below.now) (F.post below.now) depth }
    requires depth { depth < 2 ^ 31 }
    ensures reads { Answers (λ r. entry_view r.tree) result cursor.new ((readers depth).entry cursor.old) }
    ensures depth { IfOk result (λ r. r.depth ≡ entry_depth (entry_view r.tree)) }
    ensures within { IfOk result (λ r. r.depth ≤ depth) }
{
    if depth == 0 {
        return Err(cursor.no_tree());
    }
    entry_from(alloc, cursor, depth - 1, below)
}

// A comma and the entry behind it.
#[tactic(auto, unfolding(cx_cursor::specs::Lists::taking, cx_cursor::specs::Lists::comma_item, cx_cursor::specs::Reading::bind))]
fn next_entry<F: Fn(&mut Cursor<'_>, u32, Wanted) -> Result<Found, Fault>>(
    alloc: Global,
    cursor: &mut Cursor<'_>,
    depth: u32,
    below: &F,
    list: Listed<Entry>,
) -> Result<Listed<Entry>, Fault>
    requires parts { IsBelow (F.pre below.now) (F.post below.now) depth }
    requires depth { depth < 2 ^ 31 }
    requires measured { list.depth ≡ entries_depth (entries (map entry_view list.list)) }
    requires within { list.depth ≤ depth }
    ensures reads { Answers (λ l. list_read (map entry_view l.list) l.lines) result cursor.new
        (lists.next_item (readers depth).entry (list_read (map entry_view list.list) list.lines) cursor.old) }
    ensures depth { IfOk result (λ l. l.depth ≡ entries_depth (entries (map entry_view l.list))) }
    ensures within { IfOk result (λ l. l.depth ≤ depth) }
{
    let mut list = list;
    list.push_line(cursor.mark(Punct::Comma)?)?;
    let one = entry(alloc, cursor, depth, below)?;
    list.push(one)?;
    Ok(list)
}

// The entries behind the first.
#[tactic(auto, using(cx_cursor::proofs::Turns::many_out, cx_cursor::proofs::Turns::many_stop, cx_cursor::proofs::Turns::many_goes), unfolding(cx_cursor::specs::Lists::many_ahead, cx_cursor::specs::Reading::bind))]
fn entries_behind<F: Fn(&mut Cursor<'_>, u32, Wanted) -> Result<Found, Fault>>(
    alloc: Global,
    cursor: &mut Cursor<'_>,
    depth: u32,
    below: &F,
    list: Listed<Entry>,
) -> Result<Listed<Entry>, Fault>
    requires parts { IsBelow (F.pre below.now) (F.post below.now) depth }
    requires depth { depth < 2 ^ 31 }
    requires measured { list.depth ≡ entries_depth (entries (map entry_view list.list)) }
    requires within { list.depth ≤ depth }
    ensures reads { Answers (λ l. list_read (map entry_view l.list) l.lines) result cursor.new
        (many_ahead braces.no_further (lists.next_item (readers depth).entry) (list_read (map entry_view list.list) list.lines) cursor.old) }
    ensures depth { IfOk result (λ l. l.depth ≡ entries_depth (entries (map entry_view l.list))) }
    ensures within { IfOk result (λ l. l.depth ≤ depth) }
{
    let mut list = list;
    for _turn in 0..cursor.turns() {
        if no_further(cursor) {
            return Ok(list);
        }
        list = next_entry(alloc, cursor, depth, below, list)?;
    }
    Err(cursor.no_tree())
}

// Entries in braces that were read, whether a comma stands behind the last, and the lines of the list's own
// tokens.
#[derive(Drop)]
struct ReadEntries {
    list: Items<Entry>,
    last_comma: bool,
    lines: Items<u32>,
}

// The end of a list in braces, behind its entries.
#[tactic(auto, unfolding(crate::specs::Specifiers::closing_brace, cx_cursor::specs::Reading::bind))]
fn closed(cursor: &mut Cursor<'_>, entries: Listed<Entry>) -> Result<ReadEntries, Fault>
    ensures reads { Answers (λ l. braced_read (map entry_view l.list) l.last_comma l.lines) result cursor.new
        (braces.closing_brace (list_read (map entry_view entries.list) entries.lines) cursor.old) }
    ensures list { IfOk result (λ l. l.list ≡ entries.list) }
{
    let mut list = entries;
    let last_comma = cursor.sees(Punct::Comma);
    if last_comma {
        list.push_line(cursor.mark(Punct::Comma)?)?;
    }
    list.push_line(cursor.mark(Punct::RightBrace)?)?;
    Ok(ReadEntries {
        list: list.list,
        last_comma,
        lines: list.lines,
    })
}

// The entries in braces.
#[tactic(auto, unfolding(crate::specs::Specifiers::items_in, cx_cursor::specs::Reading::bind))]
fn braced<F: Fn(&mut Cursor<'_>, u32, Wanted) -> Result<Found, Fault>>(
    alloc: Global,
    cursor: &mut Cursor<'_>,
    depth: u32,
    below: &F,
) -> Result<Listed<Entry>, Fault>
    requires parts { IsBelow (F.pre below.now) (F.post below.now) depth }
    requires depth { depth < 2 ^ 31 }
    ensures reads { Answers (λ l. list_read (map entry_view l.list) l.lines) result cursor.new (braces.items_in (readers depth).entry [] cursor.old) }
    ensures depth { IfOk result (λ l. l.depth ≡ entries_depth (entries (map entry_view l.list))) }
    ensures within { IfOk result (λ l. l.depth ≤ depth) }
{
    let mut list = Listed::new(alloc, one_line(alloc, cursor.mark(Punct::LeftBrace)?)?);
    let one = entry(alloc, cursor, depth, below)?;
    list.push(one)?;
    entries_behind(alloc, cursor, depth, below, list)
}

/// Reads a list of initialisers in braces whose parts are at most `depth` nodes deep.
#[tactic(auto, unfolding(crate::specs::Initialisers::list_from, crate::specs::Specifiers::braced, cx_cursor::specs::Reading::bind))]
pub fn list_from<F: Fn(&mut Cursor<'_>, u32, Wanted) -> Result<Found, Fault>>(
    alloc: Global,
    cursor: &mut Cursor<'_>,
    depth: u32,
    below: &F,
) -> Result<ReadList, Fault>
    requires parts { IsBelow (F.pre below.now) (F.post below.now) depth }
    requires depth { depth < 2 ^ 31 }
    ensures reads { Answers (λ r. initialiser_list_view r.tree) result cursor.new (reader.list_from (readers depth) cursor.old) }
    ensures depth { IfOk result (λ r. r.depth ≡ initialiser_list_depth (initialiser_list_view r.tree)) }
    ensures within { IfOk result (λ r. r.depth ≤ suc depth) }
{
    let entries = braced(alloc, cursor, depth, below)?;
    let depth = entries.depth + 1;
    let read = closed(cursor, entries)?;
    let list = InitialiserList {
        entries: read.list,
        last_comma: read.last_comma,
        lines: read.lines,
    };
    let tree = Boxed::new(alloc, list)?;
    Ok(Measured { tree, depth })
}
