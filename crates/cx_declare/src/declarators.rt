//! Declarators (ISO C99, 6.7.5 and 6.7.6).

ghost use Rattle.std.specs.Prelude.{◌≡◌, ◌≤◌, ◌<◌, ◌^◌, suc, map, not, ◌||◌, max, IfOk, [], ◌∷◌};
ghost use Rattle.cx_cursor.specs.Lists.{many_ahead};
ghost use Rattle.cx_cursor.specs.Reading.{Answers};
ghost use Rattle.cx_cursor.specs.Scopes.{bound};
ghost use Rattle.cx_expr.specs.Below.{declarator_read};
ghost use Rattle.cx_expr.specs.Declarators as reader;
ghost use Rattle.cx_expr.specs.Asked.{IsBelow};
ghost use Rattle.cx_expr.specs.Knot.{readers};
ghost use Rattle.cx_tree.specs.Depth.{declarator_depth};
ghost use Rattle.cx_tree.specs.Views.{declarator_view};

use crate::brackets::{ReadQualifiers, in_brackets, qualifiers};
use crate::functions::function_or_identifiers;
use cr_base::{Boxed, Items, Memory};
use cx_cursor::{Bound, Cursor, Fault, one_line, two_lines};
use cx_expr::below::declarator;
use cx_expr::{Found, ReadDeclarator, Wanted};
use cx_lex::Punct;
use cx_tree::Declarator;
use cx_words::{Form, begins_declarator, begins_group, no_tail};
use std::alloc::Global;

/// No declarator.
pub fn missing(alloc: Global) -> Result<ReadDeclarator, Memory>
    ensures tree { IfOk result (λ r. declarator_read (declarator_view r.tree) (map bound r.own) ≡ reader.no_declarator) }
    ensures deep { IfOk result (λ r. r.depth ≡ 0) }
    ensures depth { IfOk result (λ r. r.depth ≡ declarator_depth (declarator_view r.tree)) }
{
    let tree = Boxed::new(alloc, Declarator::Missing)?;
    Ok(ReadDeclarator {
        tree,
        depth: 0,
        own: Items::new(alloc),
    })
}

// An array of a declarator.
#[tactic(auto, unfolding(cx_expr::specs::Declarators::array, cx_cursor::specs::Reading::bind))]
fn array<F: Fn(&mut Cursor<'_>, u32, Wanted) -> Result<Found, Fault>>(
    alloc: Global,
    cursor: &mut Cursor<'_>,
    depth: u32,
    below: &F,
    of: ReadDeclarator,
) -> Result<ReadDeclarator, Fault>
    requires parts { IsBelow (F.pre below.now) (F.post below.now) depth }
    requires depth { depth < 2 ^ 31 }
    requires within { of.depth ≤ depth }
    requires measured { of.depth ≡ declarator_depth (declarator_view of.tree) }
    ensures reads { Answers (λ r. declarator_read (declarator_view r.tree) (map bound r.own)) result cursor.new (reader.array (readers depth) (declarator_read (declarator_view of.tree) (map bound of.own)) cursor.old) }
    ensures within { IfOk result (λ r. r.depth ≤ suc depth) }
    ensures depth { IfOk result (λ r. r.depth ≡ declarator_depth (declarator_view r.tree)) }
{
    let lines = one_line(alloc, cursor.mark(Punct::LeftBracket)?)?;
    let read = in_brackets(alloc, cursor, depth, below, lines)?;
    let depth = of.depth.max(read.depth) + 1;
    let node = Declarator::Array {
        of: of.tree,
        brackets: read.brackets,
        lines: read.lines,
    };
    let tree = Boxed::new(alloc, node)?;
    Ok(ReadDeclarator {
        tree,
        depth,
        own: of.own,
    })
}

// An array or a function of a declarator.
#[tactic(auto, unfolding(cx_expr::specs::Declarators::tail))]
fn tail<F: Fn(&mut Cursor<'_>, u32, Wanted) -> Result<Found, Fault>>(
    alloc: Global,
    cursor: &mut Cursor<'_>,
    depth: u32,
    below: &F,
    of: ReadDeclarator,
) -> Result<ReadDeclarator, Fault>
    requires parts { IsBelow (F.pre below.now) (F.post below.now) depth }
    requires depth { depth < 2 ^ 31 }
    requires measured { of.depth ≡ declarator_depth (declarator_view of.tree) }
    ensures reads { Answers (λ r. declarator_read (declarator_view r.tree) (map bound r.own)) result cursor.new (reader.tail (readers depth) depth (declarator_read (declarator_view of.tree) (map bound of.own)) cursor.old) }
    ensures within { IfOk result (λ r. r.depth ≤ suc depth) }
    ensures depth { IfOk result (λ r. r.depth ≡ declarator_depth (declarator_view r.tree)) }
{
    if depth < of.depth {
        return Err(cursor.no_tree());
    }
    if cursor.sees(Punct::LeftBracket) {
        return array(alloc, cursor, depth, below, of);
    }
    function_or_identifiers(alloc, cursor, depth, below, of)
}

// The arrays and functions that follow.
#[tactic(auto, using(cx_cursor::proofs::Turns::many_out, cx_cursor::proofs::Turns::many_stop, cx_cursor::proofs::Turns::many_goes), unfolding(cx_expr::specs::Declarators::tails, cx_cursor::specs::Lists::many_ahead, cx_cursor::specs::Reading::bind))]
fn tails<F: Fn(&mut Cursor<'_>, u32, Wanted) -> Result<Found, Fault>>(
    alloc: Global,
    cursor: &mut Cursor<'_>,
    depth: u32,
    below: &F,
    of: ReadDeclarator,
) -> Result<ReadDeclarator, Fault>
    requires parts { IsBelow (F.pre below.now) (F.post below.now) depth }
    requires depth { depth < 2 ^ 31 }
    requires within { of.depth ≤ suc depth }
    requires measured { of.depth ≡ declarator_depth (declarator_view of.tree) }
    ensures reads { Answers (λ r. declarator_read (declarator_view r.tree) (map bound r.own)) result cursor.new (reader.tails (readers depth) depth (declarator_read (declarator_view of.tree) (map bound of.own)) cursor.old) }
    ensures within { IfOk result (λ r. r.depth ≤ suc depth) }
    ensures depth { IfOk result (λ r. r.depth ≡ declarator_depth (declarator_view r.tree)) }
{
    let mut of = of;
    for _turn in 0..cursor.turns() {
        if no_tail(cursor) {
            return Ok(of);
        }
        of = tail(alloc, cursor, depth, below, of)?;
    }
    Err(cursor.no_tree())
}

/// Reads a declarator of this form, at most `depth` nodes deep, or none where none begins.
#[tactic(auto, unfolding(cx_expr::specs::Declarators::declarator_or_missing))]
pub fn declarator_or_missing<F: Fn(&mut Cursor<'_>, u32, Wanted) -> Result<Found, Fault>>(
    alloc: Global,
    cursor: &mut Cursor<'_>,
    depth: u32,
    below: &F,
    form: Form,
) -> Result<ReadDeclarator, Fault>
    requires parts { IsBelow (F.pre below.now) (F.post below.now) depth }
    requires depth { depth < 2 ^ 31 }
    ensures reads { Answers (λ r. declarator_read (declarator_view r.tree) (map bound r.own)) result cursor.new (reader.declarator_or_missing (readers depth) form cursor.old) }
    ensures within { IfOk result (λ r. r.depth ≤ depth) }
    ensures depth { IfOk result (λ r. r.depth ≡ declarator_depth (declarator_view r.tree)) }
{
    if begins_declarator(form, cursor.peek()) {
        return declarator(cursor, depth, below, form);
    }
    Ok(missing(alloc)?)
}

// A pointer (6.7.5.1).
#[tactic(auto, unfolding(cx_expr::specs::Declarators::pointer, cx_cursor::specs::Reading::bind))]
fn pointer<F: Fn(&mut Cursor<'_>, u32, Wanted) -> Result<Found, Fault>>(
    alloc: Global,
    cursor: &mut Cursor<'_>,
    depth: u32,
    below: &F,
    form: Form,
) -> Result<ReadDeclarator, Fault>
    requires parts { IsBelow (F.pre below.now) (F.post below.now) depth }
    requires depth { depth < 2 ^ 31 }
    ensures reads { Answers (λ r. declarator_read (declarator_view r.tree) (map bound r.own)) result cursor.new (reader.pointer (readers depth) form cursor.old) }
    ensures within { IfOk result (λ r. r.depth ≤ suc depth) }
    ensures depth { IfOk result (λ r. r.depth ≡ declarator_depth (declarator_view r.tree)) }
{
    let lines = one_line(alloc, cursor.mark(Punct::Star)?)?;
    let ReadQualifiers { list, lines } = qualifiers(alloc, cursor, lines)?;
    let of = declarator_or_missing(alloc, cursor, depth, below, form)?;
    let depth = of.depth + 1;
    let node = Declarator::Pointer {
        qualifiers: list,
        of: of.tree,
        lines,
    };
    let tree = Boxed::new(alloc, node)?;
    Ok(ReadDeclarator {
        tree,
        depth,
        own: of.own,
    })
}

// The declared identifier.
#[tactic(auto, unfolding(cx_expr::specs::Declarators::identifier, cx_cursor::specs::Reading::bind))]
fn identifier(alloc: Global, cursor: &mut Cursor<'_>) -> Result<ReadDeclarator, Fault>
    ensures reads { Answers (λ r. declarator_read (declarator_view r.tree) (map bound r.own)) result cursor.new (reader.identifier cursor.old) }
    ensures within { IfOk result (λ r. r.depth ≤ 1) }
    ensures depth { IfOk result (λ r. r.depth ≡ declarator_depth (declarator_view r.tree)) }
{
    let (name, line) = cursor.word()?;
    let lines = one_line(alloc, line)?;
    let tree = Boxed::new(alloc, Declarator::Identifier { name, lines })?;
    Ok(ReadDeclarator {
        tree,
        depth: 1,
        own: Items::new(alloc),
    })
}

// A declarator in parentheses.
#[tactic(auto, unfolding(cx_expr::specs::Declarators::group, cx_cursor::specs::Reading::bind))]
fn group<F: Fn(&mut Cursor<'_>, u32, Wanted) -> Result<Found, Fault>>(
    alloc: Global,
    cursor: &mut Cursor<'_>,
    depth: u32,
    below: &F,
    form: Form,
) -> Result<ReadDeclarator, Fault>
    requires parts { IsBelow (F.pre below.now) (F.post below.now) depth }
    requires depth { depth < 2 ^ 31 }
    ensures reads { Answers (λ r. declarator_read (declarator_view r.tree) (map bound r.own)) result cursor.new (reader.group (readers depth) form cursor.old) }
    ensures within { IfOk result (λ r. r.depth ≤ suc depth) }
    ensures depth { IfOk result (λ r. r.depth ≡ declarator_depth (declarator_view r.tree)) }
{
    let first = cursor.mark(Punct::LeftParenthesis)?;
    let inner = declarator(cursor, depth, below, form)?;
    let lines = two_lines(alloc, first, cursor.mark(Punct::RightParenthesis)?)?;
    let depth = inner.depth + 1;
    let node = Declarator::Group {
        inner: inner.tree,
        lines,
    };
    let tree = Boxed::new(alloc, node)?;
    Ok(ReadDeclarator {
        tree,
        depth,
        own: inner.own,
    })
}

// A declarator in parentheses, or nothing.
#[tactic(auto, unfolding(cx_expr::specs::Declarators::abstract_head))]
fn abstract_head<F: Fn(&mut Cursor<'_>, u32, Wanted) -> Result<Found, Fault>>(
    alloc: Global,
    cursor: &mut Cursor<'_>,
    depth: u32,
    below: &F,
    form: Form,
) -> Result<ReadDeclarator, Fault>
    requires parts { IsBelow (F.pre below.now) (F.post below.now) depth }
    requires depth { depth < 2 ^ 31 }
    ensures reads { Answers (λ r. declarator_read (declarator_view r.tree) (map bound r.own)) result cursor.new (reader.abstract_head (readers depth) form cursor.old) }
    ensures within { IfOk result (λ r. r.depth ≤ suc depth) }
    ensures depth { IfOk result (λ r. r.depth ≡ declarator_depth (declarator_view r.tree)) }
{
    if cursor.sees(Punct::LeftParenthesis) && begins_group(form, cursor) {
        return group(alloc, cursor, depth, below, form);
    }
    Ok(missing(alloc)?)
}

// What no array and no function is of: a name, a declarator in parentheses, or nothing.
#[tactic(auto, unfolding(cx_expr::specs::Declarators::head))]
fn head<F: Fn(&mut Cursor<'_>, u32, Wanted) -> Result<Found, Fault>>(
    alloc: Global,
    cursor: &mut Cursor<'_>,
    depth: u32,
    below: &F,
    form: Form,
) -> Result<ReadDeclarator, Fault>
    requires parts { IsBelow (F.pre below.now) (F.post below.now) depth }
    requires depth { depth < 2 ^ 31 }
    ensures reads { Answers (λ r. declarator_read (declarator_view r.tree) (map bound r.own)) result cursor.new (reader.head (readers depth) form cursor.old) }
    ensures within { IfOk result (λ r. r.depth ≤ suc depth) }
    ensures depth { IfOk result (λ r. r.depth ≡ declarator_depth (declarator_view r.tree)) }
{
    match form {
        Form::Named => {
            if cursor.sees(Punct::LeftParenthesis) {
                return group(alloc, cursor, depth, below, form);
            }
            identifier(alloc, cursor)
        }
        Form::Abstract => abstract_head(alloc, cursor, depth, below, form),
        Form::Parameter => {
            if cursor.peek().shows_word() {
                return identifier(alloc, cursor);
            }
            abstract_head(alloc, cursor, depth, below, form)
        }
    }
}

/// Reads a declarator of this form that isn't missing, whose parts are at most `depth` nodes deep.
#[tactic(auto, unfolding(cx_expr::specs::Declarators::declarator_from, cx_cursor::specs::Reading::bind))]
pub fn declarator_from<F: Fn(&mut Cursor<'_>, u32, Wanted) -> Result<Found, Fault>>(
    alloc: Global,
    cursor: &mut Cursor<'_>,
    depth: u32,
    below: &F,
    form: Form,
) -> Result<ReadDeclarator, Fault>
    requires parts { IsBelow (F.pre below.now) (F.post below.now) depth }
    requires depth { depth < 2 ^ 31 }
    ensures reads { Answers (λ r. declarator_read (declarator_view r.tree) (map bound r.own)) result cursor.new (reader.declarator_from (readers depth) depth form cursor.old) }
    ensures within { IfOk result (λ r. r.depth ≤ suc depth) }
    ensures depth { IfOk result (λ r. r.depth ≡ declarator_depth (declarator_view r.tree)) }
{
    if cursor.sees(Punct::Star) {
        return pointer(alloc, cursor, depth, below, form);
    }
    let of = head(alloc, cursor, depth, below, form)?;
    tails(alloc, cursor, depth, below, of)
}
