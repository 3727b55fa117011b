//! Structures and unions (ISO C99, 6.7.2.1).

ghost use Rattle.std.specs.Prelude.{◌≡◌, ◌≤◌, ◌<◌, ◌^◌, ◌++◌, suc, map, option_map, IfOk, [], ◌∷◌};
ghost use Rattle.cx_cursor.specs.Lists as lists;
ghost use Rattle.cx_cursor.specs.Lists.{list_read, many_ahead, taking};
ghost use Rattle.cx_cursor.specs.Reading.{Answers};
ghost use Rattle.cx_expr.specs.Asked.{IsBelow};
ghost use Rattle.cx_expr.specs.Knot.{readers};
ghost use Rattle.cx_expr.specs.Specifiers as reader;
ghost use Rattle.cx_tree.specs.Depth.{declarator_depth, member_decl_depth, member_decls_depth, member_declarator_depth, member_declarators_depth, spec_depth};
ghost use Rattle.cx_tree.specs.Trees as tree;
ghost use Rattle.cx_tree.specs.Views.{declarator_view, member_decl_view, member_declarator_view, member_declarators, member_decls, option_members, spec_view};

use crate::declarators::missing;
use crate::specifiers::specs_from;
use cr_base::{Boxed, Items, Memory, Name};
use cx_cursor::{Cursor, Fault, Listed, Measured, one_line, two_lines};
use cx_expr::below::{declarator, expr};
use cx_expr::{Found, ReadDeclarator, ReadMember, ReadMemberDeclarator, ReadSpec, Wanted, spec_of};
use cx_lex::Punct;
use cx_tree::{MemberDecl, MemberDeclarator, Spec};
use cx_words::Form;
use cx_words::level::CONDITIONAL;
use std::alloc::Global;

// The width of a bit-field.
#[tactic(auto, unfolding(cx_expr::specs::Specifiers::width_of, cx_cursor::specs::Reading::bind))]
fn width_of<F: Fn(&mut Cursor<'_>, u32, Wanted) -> Result<Found, Fault>>(
    alloc: Global,
    cursor: &mut Cursor<'_>,
    depth: u32,
    below: &F,
    declarator: ReadDeclarator,
) -> Result<ReadMemberDeclarator, Fault>
    requires parts { IsBelow (F.pre below.now) (F.post below.now) depth }
    requires depth { depth < 2 ^ 31 }
    requires measured { declarator.depth ≡ declarator_depth (declarator_view declarator.tree) }
    requires within { declarator.depth ≤ depth }
    ensures reads { Answers (λ r. member_declarator_view r.tree) result cursor.new (reader.width_of (readers depth) (declarator_view declarator.tree) cursor.old) }
    ensures depth { IfOk result (λ r. r.depth ≡ member_declarator_depth (member_declarator_view r.tree)) }
    ensures within { IfOk result (λ r. r.depth ≤ suc depth) }
{
    let lines = one_line(alloc, cursor.mark(Punct::Colon)?)?;
    let width = expr(cursor, depth, below, CONDITIONAL)?;
    let depth = declarator.depth.max(width.depth) + 1;
    let member = MemberDeclarator {
        declarator: declarator.tree,
        width: Some(width.tree),
        lines,
    };
    let tree = Boxed::new(alloc, member)?;
    Ok(Measured { tree, depth })
}

// What stands behind a member's declarator.
#[tactic(auto, unfolding(cx_expr::specs::Specifiers::behind_member))]
fn behind_member<F: Fn(&mut Cursor<'_>, u32, Wanted) -> Result<Found, Fault>>(
    alloc: Global,
    cursor: &mut Cursor<'_>,
    depth: u32,
    below: &F,
    declarator: ReadDeclarator,
) -> Result<ReadMemberDeclarator, Fault>
    requires parts { IsBelow (F.pre below.now) (F.post below.now) depth }
    requires depth { depth < 2 ^ 31 }
    requires measured { declarator.depth ≡ declarator_depth (declarator_view declarator.tree) }
    requires within { declarator.depth ≤ depth }
    ensures reads { Answers (λ r. member_declarator_view r.tree) result cursor.new (reader.behind_member (readers depth) (declarator_view declarator.tree) cursor.old) }
    ensures depth { IfOk result (λ r. r.depth ≡ member_declarator_depth (member_declarator_view r.tree)) }
    ensures within { IfOk result (λ r. r.depth ≤ suc depth) }
{
    if cursor.sees(Punct::Colon) {
        return width_of(alloc, cursor, depth, below, declarator);
    }
    let depth = declarator.depth + 1;
    let member = MemberDeclarator {
        declarator: declarator.tree,
        width: None,
        lines: Items::new(alloc),
    };
    let tree = Boxed::new(alloc, member)?;
    Ok(Measured { tree, depth })
}

// A member's declarator, with a width or without, at most `depth` nodes deep.
#[tactic(auto, using(cx_expr::proofs::Turns::member_declarator_none, cx_expr::proofs::Turns::member_declarator_some, cx_expr::proofs::Shallow::shallower), unfolding(cx_expr::specs::Specifiers::member_declarator_from, cx_cursor::specs::Reading::bind))]
fn member_declarator<F: Fn(&mut Cursor<'_>, u32, Wanted) -> Result<Found, Fault>>(
    alloc: Global,
    cursor: &mut Cursor<'_>,
    depth: u32,
    below: &F,
) -> Result<ReadMemberDeclarator, Fault>
    requires parts { IsBelow (F.pre below.now) (F.post below.now) depth }
    requires depth { depth < 2 ^ 31 }
    ensures reads { Answers (λ r. member_declarator_view r.tree) result cursor.new ((readers depth).member_declarator cursor.old) }
    ensures depth { IfOk result (λ r. r.depth ≡ member_declarator_depth (member_declarator_view r.tree)) }
    ensures within { IfOk result (λ r. r.depth ≤ depth) }
{
    if depth == 0 {
        return Err(cursor.no_tree());
    }
    if cursor.sees(Punct::Colon) {
        return width_of(alloc, cursor, depth - 1, below, missing(alloc)?);
    }
    let declarator = declarator(cursor, depth - 1, below, Form::Named)?;
    behind_member(alloc, cursor, depth - 1, below, declarator)
}

// A comma and the declarator behind it.
#[tactic(auto, unfolding(cx_cursor::specs::Lists::taking, cx_cursor::specs::Lists::comma_item, cx_cursor::specs::Reading::bind))]
fn next_declarator<F: Fn(&mut Cursor<'_>, u32, Wanted) -> Result<Found, Fault>>(
    alloc: Global,
    cursor: &mut Cursor<'_>,
    depth: u32,
    below: &F,
    list: Listed<MemberDeclarator>,
) -> Result<Listed<MemberDeclarator>, Fault>
    requires parts { IsBelow (F.pre below.now) (F.post below.now) depth }
    requires depth { depth < 2 ^ 31 }
    requires measured { list.depth ≡ member_declarators_depth (member_declarators (map member_declarator_view list.list)) }
    requires within { list.depth ≤ depth }
    ensures reads { Answers (λ l. list_read (map member_declarator_view l.list) l.lines) result cursor.new
        (lists.next_item (readers depth).member_declarator (list_read (map member_declarator_view list.list) list.lines) cursor.old) }
    ensures depth { IfOk result (λ l. l.depth ≡ member_declarators_depth (member_declarators (map member_declarator_view l.list))) }
    ensures within { IfOk result (λ l. l.depth ≤ depth) }
{
    let mut list = list;
    list.push_line(cursor.mark(Punct::Comma)?)?;
    let one = member_declarator(alloc, cursor, depth, below)?;
    list.push(one)?;
    Ok(list)
}

// The declarators behind the first, each behind a comma.
#[tactic(auto, using(cx_cursor::proofs::Turns::many_out, cx_cursor::proofs::Turns::many_stop, cx_cursor::proofs::Turns::many_goes), unfolding(cx_cursor::specs::Lists::many_ahead, cx_cursor::specs::Reading::bind))]
fn declarators_behind<F: Fn(&mut Cursor<'_>, u32, Wanted) -> Result<Found, Fault>>(
    alloc: Global,
    cursor: &mut Cursor<'_>,
    depth: u32,
    below: &F,
    list: Listed<MemberDeclarator>,
) -> Result<Listed<MemberDeclarator>, Fault>
    requires parts { IsBelow (F.pre below.now) (F.post below.now) depth }
    requires depth { depth < 2 ^ 31 }
    requires measured { list.depth ≡ member_declarators_depth (member_declarators (map member_declarator_view list.list)) }
    requires within { list.depth ≤ depth }
    ensures reads { Answers (λ l. list_read (map member_declarator_view l.list) l.lines) result cursor.new
        (lists.behind_commas (readers depth).member_declarator (list_read (map member_declarator_view list.list) list.lines) cursor.old) }
    ensures depth { IfOk result (λ l. l.depth ≡ member_declarators_depth (member_declarators (map member_declarator_view l.list))) }
    ensures within { IfOk result (λ l. l.depth ≤ depth) }
{
    let mut list = list;
    for _turn in 0..cursor.turns() {
        if !cursor.sees(Punct::Comma) {
            return Ok(list);
        }
        list = next_declarator(alloc, cursor, depth, below, list)?;
    }
    Err(cursor.no_tree())
}

// The declarators of a declaration of members.
#[tactic(auto, unfolding(cx_expr::specs::Specifiers::declarators, cx_cursor::specs::Reading::bind))]
fn declarators<F: Fn(&mut Cursor<'_>, u32, Wanted) -> Result<Found, Fault>>(
    alloc: Global,
    cursor: &mut Cursor<'_>,
    depth: u32,
    below: &F,
) -> Result<Listed<MemberDeclarator>, Fault>
    requires parts { IsBelow (F.pre below.now) (F.post below.now) depth }
    requires depth { depth < 2 ^ 31 }
    ensures reads { Answers (λ l. list_read (map member_declarator_view l.list) l.lines) result cursor.new
        (reader.declarators (readers depth) cursor.old) }
    ensures depth { IfOk result (λ l. l.depth ≡ member_declarators_depth (member_declarators (map member_declarator_view l.list))) }
    ensures within { IfOk result (λ l. l.depth ≤ depth) }
{
    let mut list = Listed::new(alloc, Items::new(alloc));
    let one = member_declarator(alloc, cursor, depth, below)?;
    list.push(one)?;
    declarators_behind(alloc, cursor, depth, below, list)
}

// A declaration of members whose parts are at most `depth` nodes deep.
#[tactic(auto, unfolding(cx_expr::specs::Specifiers::member_from, cx_cursor::specs::Reading::bind))]
fn member_from<F: Fn(&mut Cursor<'_>, u32, Wanted) -> Result<Found, Fault>>(
    alloc: Global,
    cursor: &mut Cursor<'_>,
    depth: u32,
    below: &F,
) -> Result<ReadMember, Fault>
    requires parts { IsBelow (F.pre below.now) (F.post below.now) depth }
    requires depth { depth < 2 ^ 31 }
    ensures reads { Answers (λ r. member_decl_view r.tree) result cursor.new (reader.member_from (readers depth) cursor.old) }
    ensures depth { IfOk result (λ r. r.depth ≡ member_decl_depth (member_decl_view r.tree)) }
    ensures within { IfOk result (λ r. r.depth ≤ suc depth) }
{
    let specs = specs_from(alloc, cursor, depth, below, false)?;
    let mut list = declarators(alloc, cursor, depth, below)?;
    list.push_line(cursor.mark(Punct::Semicolon)?)?;
    let depth = specs.depth.max(list.depth) + 1;
    let member = MemberDecl {
        specs: specs.list,
        list: list.list,
        lines: list.lines,
    };
    let tree = Boxed::new(alloc, member)?;
    Ok(Measured { tree, depth })
}

// A declaration of members, at most `depth` nodes deep.
#[tactic(auto, using(cx_expr::proofs::Turns::member_none, cx_expr::proofs::Turns::member_some, cx_expr::proofs::Shallow::shallower))]
fn member<F: Fn(&mut Cursor<'_>, u32, Wanted) -> Result<Found, Fault>>(
    alloc: Global,
    cursor: &mut Cursor<'_>,
    depth: u32,
    below: &F,
) -> Result<ReadMember, Fault>
    requires parts { IsBelow (F.pre below.now) (F.post below.now) depth }
    requires depth { depth < 2 ^ 31 }
    ensures reads { Answers (λ r. member_decl_view r.tree) result cursor.new ((readers depth).member cursor.old) }
    ensures depth { IfOk result (λ r. r.depth ≡ member_decl_depth (member_decl_view r.tree)) }
    ensures within { IfOk result (λ r. r.depth ≤ depth) }
{
    if depth == 0 {
        return Err(cursor.no_tree());
    }
    member_from(alloc, cursor, depth - 1, below)
}

// One more declaration of members.
#[tactic(auto, unfolding(cx_cursor::specs::Lists::taking, cx_cursor::specs::Lists::comma_item, cx_cursor::specs::Reading::bind))]
fn next_member<F: Fn(&mut Cursor<'_>, u32, Wanted) -> Result<Found, Fault>>(
    alloc: Global,
    cursor: &mut Cursor<'_>,
    depth: u32,
    below: &F,
    list: Listed<MemberDecl>,
) -> Result<Listed<MemberDecl>, Fault>
    requires parts { IsBelow (F.pre below.now) (F.post below.now) depth }
    requires depth { depth < 2 ^ 31 }
    requires measured { list.depth ≡ member_decls_depth (member_decls (map member_decl_view list.list)) }
    requires within { list.depth ≤ depth }
    ensures reads { Answers (λ l. map member_decl_view l.list) result cursor.new
        (taking (readers depth).member reader.with_member (map member_decl_view list.list) cursor.old) }
    ensures lines { IfOk result (λ l. l.lines ≡ list.lines) }
    ensures depth { IfOk result (λ l. l.depth ≡ member_decls_depth (member_decls (map member_decl_view l.list))) }
    ensures within { IfOk result (λ l. l.depth ≤ depth) }
{
    let mut list = list;
    let one = member(alloc, cursor, depth, below)?;
    list.push(one)?;
    Ok(list)
}

// The declarations of members behind the first.
#[tactic(auto, using(cx_cursor::proofs::Turns::many_out, cx_cursor::proofs::Turns::many_stop, cx_cursor::proofs::Turns::many_goes), unfolding(cx_cursor::specs::Lists::many_ahead, cx_cursor::specs::Reading::bind))]
fn members_behind<F: Fn(&mut Cursor<'_>, u32, Wanted) -> Result<Found, Fault>>(
    alloc: Global,
    cursor: &mut Cursor<'_>,
    depth: u32,
    below: &F,
    list: Listed<MemberDecl>,
) -> Result<Listed<MemberDecl>, Fault>
    requires parts { IsBelow (F.pre below.now) (F.post below.now) depth }
    requires depth { depth < 2 ^ 31 }
    requires measured { list.depth ≡ member_decls_depth (member_decls (map member_decl_view list.list)) }
    requires within { list.depth ≤ depth }
    ensures reads { Answers (λ l. map member_decl_view l.list) result cursor.new
        (many_ahead reader.no_brace (taking (readers depth).member reader.with_member) (map member_decl_view list.list) cursor.old) }
    ensures lines { IfOk result (λ l. l.lines ≡ list.lines) }
    ensures depth { IfOk result (λ l. l.depth ≡ member_decls_depth (member_decls (map member_decl_view l.list))) }
    ensures within { IfOk result (λ l. l.depth ≤ depth) }
{
    let mut list = list;
    for _turn in 0..cursor.turns() {
        if cursor.sees(Punct::RightBrace) {
            return Ok(list);
        }
        list = next_member(alloc, cursor, depth, below, list)?;
    }
    Err(cursor.no_tree())
}

// One declaration of members or more in braces, with the lines of these behind those given.
#[tactic(auto, unfolding(cx_expr::specs::Specifiers::members, cx_cursor::specs::Reading::bind))]
fn members<F: Fn(&mut Cursor<'_>, u32, Wanted) -> Result<Found, Fault>>(
    alloc: Global,
    cursor: &mut Cursor<'_>,
    depth: u32,
    below: &F,
    lines: Items<u32>,
) -> Result<Listed<MemberDecl>, Fault>
    requires parts { IsBelow (F.pre below.now) (F.post below.now) depth }
    requires depth { depth < 2 ^ 31 }
    ensures reads { Answers (λ l. list_read (map member_decl_view l.list) l.lines) result cursor.new (reader.members (readers depth) lines cursor.old) }
    ensures depth { IfOk result (λ l. l.depth ≡ member_decls_depth (member_decls (map member_decl_view l.list))) }
    ensures within { IfOk result (λ l. l.depth ≤ depth) }
{
    let mut list = Listed::new(alloc, lines);
    list.push_line(cursor.mark(Punct::LeftBrace)?)?;
    let list = next_member(alloc, cursor, depth, below, list)?;
    let mut list = members_behind(alloc, cursor, depth, below, list)?;
    list.push_line(cursor.mark(Punct::RightBrace)?)?;
    Ok(list)
}

// A structure or union, with its members or without.
fn record_node(
    alloc: Global,
    is_union: bool,
    tag: Option<Name>,
    members: Option<Items<MemberDecl>>,
    lines: Items<u32>,
    depth: u32,
) -> Result<ReadSpec, Memory>
    ensures tree { IfOk result (λ r. spec_view r.tree ≡ tree.Record is_union tag (option_members (option_map (map member_decl_view) members)) lines) }
    ensures deep { IfOk result (λ r. r.depth ≡ depth) }
{
    let record = Spec::Record {
        is_union,
        tag,
        members,
        lines,
    };
    spec_of(alloc, record, depth)
}

// A structure or union with its members.
fn record_of(
    alloc: Global,
    is_union: bool,
    tag: Option<Name>,
    list: Listed<MemberDecl>,
) -> Result<ReadSpec, Memory>
    requires { list.depth < 2 ^ 31 }
    ensures tree { IfOk result (λ r. spec_view r.tree ≡ tree.Record is_union tag (tree.some_members (member_decls (map member_decl_view list.list))) list.lines) }
    ensures deep { IfOk result (λ r. r.depth ≡ suc list.depth) }
{
    let Listed { list, depth, lines } = list;
    record_node(alloc, is_union, tag, Some(list), lines, depth + 1)
}

// What stands behind `struct` or `union` and a tag.
#[tactic(auto, unfolding(cx_expr::specs::Specifiers::record_tagged, cx_cursor::specs::Reading::bind))]
fn record_tagged<F: Fn(&mut Cursor<'_>, u32, Wanted) -> Result<Found, Fault>>(
    alloc: Global,
    cursor: &mut Cursor<'_>,
    depth: u32,
    below: &F,
    is_union: bool,
    line: u32,
) -> Result<ReadSpec, Fault>
    requires parts { IsBelow (F.pre below.now) (F.post below.now) depth }
    requires depth { depth < 2 ^ 31 }
    ensures reads { Answers (λ r. spec_view r.tree) result cursor.new (reader.record_tagged (readers depth) is_union line cursor.old) }
    ensures depth { IfOk result (λ r. r.depth ≡ spec_depth (spec_view r.tree)) }
    ensures within { IfOk result (λ r. r.depth ≤ suc depth) }
{
    let (name, last) = cursor.word()?;
    let lines = two_lines(alloc, line, last)?;
    if cursor.sees(Punct::LeftBrace) {
        let list = members(alloc, cursor, depth, below, lines)?;
        return Ok(record_of(alloc, is_union, Some(name), list)?);
    }
    let record = Spec::Record {
        is_union,
        tag: Some(name),
        members: None,
        lines,
    };
    Ok(spec_of(alloc, record, 1)?)
}

/// What stands behind `struct` or `union`.
#[tactic(auto, unfolding(cx_expr::specs::Specifiers::record_behind, cx_expr::specs::Specifiers::record_untagged, cx_cursor::specs::Reading::bind))]
pub fn record_behind<F: Fn(&mut Cursor<'_>, u32, Wanted) -> Result<Found, Fault>>(
    alloc: Global,
    cursor: &mut Cursor<'_>,
    depth: u32,
    below: &F,
    is_union: bool,
    line: u32,
) -> Result<ReadSpec, Fault>
    requires parts { IsBelow (F.pre below.now) (F.post below.now) depth }
    requires depth { depth < 2 ^ 31 }
    ensures reads { Answers (λ r. spec_view r.tree) result cursor.new (reader.record_behind (readers depth) is_union line cursor.old) }
    ensures depth { IfOk result (λ r. r.depth ≡ spec_depth (spec_view r.tree)) }
    ensures within { IfOk result (λ r. r.depth ≤ suc depth) }
{
    if cursor.peek().shows_word() {
        return record_tagged(alloc, cursor, depth, below, is_union, line);
    }
    let lines = one_line(alloc, line)?;
    let list = members(alloc, cursor, depth, below, lines)?;
    Ok(record_of(alloc, is_union, None, list)?)
}
