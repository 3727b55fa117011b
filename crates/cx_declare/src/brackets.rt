//! Qualifiers, and the brackets of arrays (ISO C99, 6.7.3 and 6.7.5.2).

ghost use Rattle.std.specs.Prelude.{◌≡◌, ◌≤◌, ◌<◌, ◌^◌, ◌++◌, suc, map, not, max, IfOk, [], ◌∷◌};
ghost use Rattle.cx_cursor.specs.Lists as lists;
ghost use Rattle.cx_cursor.specs.Lists.{list_read, many_ahead, taking};
ghost use Rattle.cx_cursor.specs.Reading.{Answers};
ghost use Rattle.cx_expr.specs.Declarators as reader;
ghost use Rattle.cx_expr.specs.Asked.{IsBelow};
ghost use Rattle.cx_expr.specs.Knot.{readers};
ghost use Rattle.cx_cursor.specs.Sights.{keyword, sight};
ghost use Rattle.cx_expr.specs.Declarators.{brackets_read, qualifiers_read};
ghost use Rattle.cx_tree.specs.Depth.{brackets_depth};
ghost use Rattle.cx_tree.specs.Views.{brackets_view};

use cr_base::Items;
use cx_cursor::{Cursor, Fault};
use cx_expr::below::expr;
use cx_expr::{Found, Wanted};
use cx_lex::{Keyword, Punct};
use cx_tree::Brackets;
use cx_words::level::ASSIGNMENT;
use cx_words::{is_no_qualifier, sees_star};
use std::alloc::Global;

/// Qualifiers that were read, and the lines of the tokens up to behind them.
#[derive(Drop)]
pub struct ReadQualifiers {
    pub list: Items<Keyword>,
    pub lines: Items<u32>,
}

/// What stands in brackets, the depth of its length (0 where there is none), and the lines of the tokens
/// that aren't the length's.
#[derive(Drop)]
pub struct ReadBrackets {
    pub brackets: Brackets,
    pub depth: u32,
    pub lines: Items<u32>,
}

// One more qualifier.
#[tactic(auto, unfolding(cx_cursor::specs::Lists::taking, cx_cursor::specs::Lists::comma_item, cx_cursor::specs::Reading::bind))]
fn next_qualifier(cursor: &mut Cursor<'_>, all: ReadQualifiers) -> Result<ReadQualifiers, Fault>
    ensures { Answers (λ q. qualifiers_read q.list q.lines) result cursor.new
        (taking keyword reader.with_qualifier (qualifiers_read all.list all.lines) cursor.old) }
{
    let mut all = all;
    let (word, line) = cursor.keyword()?;
    all.list.push(word)?;
    all.lines.push(line)?;
    Ok(all)
}

// The qualifiers that follow.
#[tactic(auto, using(cx_cursor::proofs::Turns::many_out, cx_cursor::proofs::Turns::many_stop, cx_cursor::proofs::Turns::many_goes), unfolding(cx_cursor::specs::Lists::many_ahead, cx_cursor::specs::Reading::bind))]
fn qualifiers_behind(cursor: &mut Cursor<'_>, all: ReadQualifiers) -> Result<ReadQualifiers, Fault>
    ensures { Answers (λ q. qualifiers_read q.list q.lines) result cursor.new
        (many_ahead reader.stops_qualifiers (taking keyword reader.with_qualifier) (qualifiers_read all.list all.lines) cursor.old) }
{
    let mut all = all;
    for _turn in 0..cursor.turns() {
        if is_no_qualifier(cursor.peek()) {
            return Ok(all);
        }
        all = next_qualifier(cursor, all)?;
    }
    Err(cursor.no_tree())
}

/// Reads any number of qualifiers (6.7.3), with their lines behind those given.
#[tactic(auto, unfolding(cx_expr::specs::Declarators::qualifiers))]
pub fn qualifiers(
    alloc: Global,
    cursor: &mut Cursor<'_>,
    lines: Items<u32>,
) -> Result<ReadQualifiers, Fault>
    ensures { Answers (λ q. qualifiers_read q.list q.lines) result cursor.new (reader.qualifiers lines cursor.old) }
{
    let none = ReadQualifiers {
        list: Items::new(alloc),
        lines,
    };
    qualifiers_behind(cursor, none)
}

// `static`, qualifiers and a length.
#[tactic(auto, unfolding(cx_expr::specs::Declarators::static_first, cx_cursor::specs::Reading::bind))]
fn static_first<F: Fn(&mut Cursor<'_>, u32, Wanted) -> Result<Found, Fault>>(
    alloc: Global,
    cursor: &mut Cursor<'_>,
    depth: u32,
    below: &F,
    lines: Items<u32>,
) -> Result<ReadBrackets, Fault>
    requires parts { IsBelow (F.pre below.now) (F.post below.now) depth }
    requires depth { depth < 2 ^ 31 }
    ensures reads { Answers (λ b. brackets_read (brackets_view b.brackets) b.lines) result cursor.new (reader.static_first (readers depth) lines cursor.old) }
    ensures depth { IfOk result (λ b. b.depth ≡ brackets_depth (brackets_view b.brackets)) }
    ensures within { IfOk result (λ b. b.depth ≤ depth) }
{
    let mut lines = lines;
    lines.push(cursor.key(Keyword::Static)?)?;
    let ReadQualifiers { list, lines } = qualifiers(alloc, cursor, lines)?;
    let size = expr(cursor, depth, below, ASSIGNMENT)?;
    let mut lines = lines;
    lines.push(cursor.mark(Punct::RightBracket)?)?;
    Ok(ReadBrackets {
        brackets: Brackets::StaticFirst {
            qualifiers: list,
            length: size.tree,
        },
        depth: size.depth,
        lines,
    })
}

// Qualifiers, `static` and a length.
#[tactic(auto, unfolding(cx_expr::specs::Declarators::static_last, cx_cursor::specs::Reading::bind))]
fn static_last<F: Fn(&mut Cursor<'_>, u32, Wanted) -> Result<Found, Fault>>(
    alloc: Global,
    cursor: &mut Cursor<'_>,
    depth: u32,
    below: &F,
    all: ReadQualifiers,
) -> Result<ReadBrackets, Fault>
    requires parts { IsBelow (F.pre below.now) (F.post below.now) depth }
    requires depth { depth < 2 ^ 31 }
    ensures reads { Answers (λ b. brackets_read (brackets_view b.brackets) b.lines) result cursor.new (reader.static_last (readers depth) (qualifiers_read all.list all.lines) cursor.old) }
    ensures depth { IfOk result (λ b. b.depth ≡ brackets_depth (brackets_view b.brackets)) }
    ensures within { IfOk result (λ b. b.depth ≤ depth) }
{
    let ReadQualifiers { list, lines } = all;
    let mut lines = lines;
    lines.push(cursor.key(Keyword::Static)?)?;
    let size = expr(cursor, depth, below, ASSIGNMENT)?;
    lines.push(cursor.mark(Punct::RightBracket)?)?;
    Ok(ReadBrackets {
        brackets: Brackets::StaticLast {
            qualifiers: list,
            length: size.tree,
        },
        depth: size.depth,
        lines,
    })
}

// Qualifiers and a length.
#[tactic(auto, unfolding(cx_expr::specs::Declarators::sized, cx_cursor::specs::Reading::bind))]
fn sized<F: Fn(&mut Cursor<'_>, u32, Wanted) -> Result<Found, Fault>>(
    alloc: Global,
    cursor: &mut Cursor<'_>,
    depth: u32,
    below: &F,
    all: ReadQualifiers,
) -> Result<ReadBrackets, Fault>
    requires parts { IsBelow (F.pre below.now) (F.post below.now) depth }
    requires depth { depth < 2 ^ 31 }
    ensures reads { Answers (λ b. brackets_read (brackets_view b.brackets) b.lines) result cursor.new (reader.sized (readers depth) (qualifiers_read all.list all.lines) cursor.old) }
    ensures depth { IfOk result (λ b. b.depth ≡ brackets_depth (brackets_view b.brackets)) }
    ensures within { IfOk result (λ b. b.depth ≤ depth) }
{
    let ReadQualifiers { list, lines } = all;
    let mut lines = lines;
    let size = expr(cursor, depth, below, ASSIGNMENT)?;
    lines.push(cursor.mark(Punct::RightBracket)?)?;
    Ok(ReadBrackets {
        brackets: Brackets::Length {
            qualifiers: list,
            length: size.tree,
        },
        depth: size.depth,
        lines,
    })
}

// Qualifiers and no length.
#[tactic(auto, unfolding(cx_expr::specs::Declarators::without_size, cx_cursor::specs::Reading::bind))]
fn without_size(cursor: &mut Cursor<'_>, all: ReadQualifiers) -> Result<ReadBrackets, Fault>
    ensures reads { Answers (λ b. brackets_read (brackets_view b.brackets) b.lines) result cursor.new (reader.without_size (qualifiers_read all.list all.lines) cursor.old) }
    ensures depth { IfOk result (λ b. b.depth ≡ brackets_depth (brackets_view b.brackets)) }
    ensures within { IfOk result (λ b. b.depth ≡ 0) }
{
    let ReadQualifiers { list, lines } = all;
    let mut lines = lines;
    lines.push(cursor.mark(Punct::RightBracket)?)?;
    Ok(ReadBrackets {
        brackets: Brackets::Unsized { qualifiers: list },
        depth: 0,
        lines,
    })
}

// Qualifiers and a star.
#[tactic(auto, unfolding(cx_expr::specs::Declarators::star, cx_cursor::specs::Reading::bind))]
fn star(cursor: &mut Cursor<'_>, all: ReadQualifiers) -> Result<ReadBrackets, Fault>
    ensures reads { Answers (λ b. brackets_read (brackets_view b.brackets) b.lines) result cursor.new (reader.star (qualifiers_read all.list all.lines) cursor.old) }
    ensures depth { IfOk result (λ b. b.depth ≡ brackets_depth (brackets_view b.brackets)) }
    ensures within { IfOk result (λ b. b.depth ≡ 0) }
{
    let ReadQualifiers { list, lines } = all;
    let mut lines = lines;
    lines.push(cursor.mark(Punct::Star)?)?;
    lines.push(cursor.mark(Punct::RightBracket)?)?;
    Ok(ReadBrackets {
        brackets: Brackets::Star { qualifiers: list },
        depth: 0,
        lines,
    })
}

#[tactic(auto, unfolding(cx_expr::specs::Declarators::behind_qualifiers, cx_cursor::specs::Reading::bind))]
fn behind_qualifiers<F: Fn(&mut Cursor<'_>, u32, Wanted) -> Result<Found, Fault>>(
    alloc: Global,
    cursor: &mut Cursor<'_>,
    depth: u32,
    below: &F,
    all: ReadQualifiers,
) -> Result<ReadBrackets, Fault>
    requires parts { IsBelow (F.pre below.now) (F.post below.now) depth }
    requires depth { depth < 2 ^ 31 }
    ensures reads { Answers (λ b. brackets_read (brackets_view b.brackets) b.lines) result cursor.new (reader.behind_qualifiers (readers depth) (qualifiers_read all.list all.lines) cursor.old) }
    ensures depth { IfOk result (λ b. b.depth ≡ brackets_depth (brackets_view b.brackets)) }
    ensures within { IfOk result (λ b. b.depth ≤ depth) }
{
    if cursor.sees_key(Keyword::Static) {
        return static_last(alloc, cursor, depth, below, all);
    }
    if cursor.sees(Punct::RightBracket) {
        return without_size(cursor, all);
    }
    if sees_star(cursor) {
        return star(cursor, all);
    }
    sized(alloc, cursor, depth, below, all)
}

/// Reads what stands in brackets, behind the first of them, with its lines behind those given; its length is
/// at most `depth` nodes deep.
#[tactic(auto, unfolding(cx_expr::specs::Declarators::in_brackets, cx_cursor::specs::Reading::bind))]
pub fn in_brackets<F: Fn(&mut Cursor<'_>, u32, Wanted) -> Result<Found, Fault>>(
    alloc: Global,
    cursor: &mut Cursor<'_>,
    depth: u32,
    below: &F,
    lines: Items<u32>,
) -> Result<ReadBrackets, Fault>
    requires parts { IsBelow (F.pre below.now) (F.post below.now) depth }
    requires depth { depth < 2 ^ 31 }
    ensures reads { Answers (λ b. brackets_read (brackets_view b.brackets) b.lines) result cursor.new (reader.in_brackets (readers depth) lines cursor.old) }
    ensures depth { IfOk result (λ b. b.depth ≡ brackets_depth (brackets_view b.brackets)) }
    ensures within { IfOk result (λ b. b.depth ≤ depth) }
{
    if cursor.sees_key(Keyword::Static) {
        return static_first(alloc, cursor, depth, below, lines);
    }
    let all = qualifiers(alloc, cursor, lines)?;
    behind_qualifiers(alloc, cursor, depth, below, all)
}
