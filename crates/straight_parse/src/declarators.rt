//! Specifiers and declarators (ISO C99, 6.7). A function whose parameter is `depth` reads what has
//! parts at most that many nodes deep; `specs`, `declarator` and `param` read what is itself at most
//! so deep.

ghost use Rattle.std.specs.Prelude.{◌≡◌, ◌≤◌, ◌<◌, ◌^◌, suc, map, option_map, IfOk};
ghost use Rattle.straight_parse.specs.Declarators as reader;
ghost use Rattle.straight_parse.specs.Declarators.{specs_read, measured_declarator, measured_param};
ghost use Rattle.straight_parse.specs.Lists as lists;
ghost use Rattle.straight_parse.specs.Lists.{list_read};
ghost use Rattle.straight_parse.specs.Reading.{Answers};
ghost use Rattle.straight_tree.specs.Trees as tree;
ghost use Rattle.straight_tree.specs.Views.{declarator_view, param_view, spec_view, specs_view};

use crate::cursor::Cursor;
use crate::fault::Fault;
use crate::listed::Listed;
use crate::measured::Measured;
use crate::nodes::{ReadDeclarator, function_of, one_line};
use crate::sight::{Sight, shows_mark};
use cr_base::{Boxed, Items, Memory};
use cx_lex::{Keyword, Punct};
use std::alloc::Global;
use straight_tree::{Declarator, Param, Spec, Specs};

fn spec_of(keyword: Keyword) -> Option<Spec>
    ensures { option_map spec_view result ≡ reader.spec_of keyword }
{
    match keyword {
        Keyword::Int => Some(Spec::Int),
        Keyword::Void => Some(Spec::Void),
        _ => None,
    }
}

fn stops_specs(sight: Sight) -> bool
    ensures { result ≡ reader.stops_specs sight }
{
    match sight {
        Sight::Key(keyword) => spec_of(keyword).is_none(),
        _ => true,
    }
}

#[tactic(auto, unfolding(crate::specs::Declarators::spec, crate::specs::Reading::bind))]
fn spec(cursor: &mut Cursor<'_>) -> Result<(Spec, u32), Fault>
    ensures { Answers (λ s. (spec_view s.0, s.1)) result cursor.new (reader.spec cursor.old) }
{
    let (keyword, line) = cursor.keyword()?;
    match spec_of(keyword) {
        Some(spec) => Ok((spec, line)),
        None => Err(Fault::NoTree),
    }
}

// One more specifier.
#[tactic(auto, unfolding(crate::specs::Lists::taking, crate::specs::Reading::bind))]
fn next_spec(cursor: &mut Cursor<'_>, specs: Specs) -> Result<Specs, Fault>
    ensures { Answers (λ s. specs_read (map spec_view s.list) s.lines) result cursor.new
        (lists.taking reader.spec reader.with_spec (specs_read (map spec_view specs.list) specs.lines) cursor.old) }
{
    let mut specs = specs;
    let (spec, line) = spec(cursor)?;
    specs.list.push(spec)?;
    specs.lines.push(line)?;
    Ok(specs)
}

// The specifiers that follow.
#[tactic(auto, using(crate::proofs::Turns::many_out, crate::proofs::Turns::many_stop, crate::proofs::Turns::many_goes), unfolding(crate::specs::Lists::many_ahead, crate::specs::Reading::bind))]
fn specs_behind(cursor: &mut Cursor<'_>, specs: Specs) -> Result<Specs, Fault>
    ensures { Answers (λ s. specs_read (map spec_view s.list) s.lines) result cursor.new
        (lists.many_ahead reader.stops_specs (lists.taking reader.spec reader.with_spec) (specs_read (map spec_view specs.list) specs.lines) cursor.old) }
{
    let mut specs = specs;
    for _turn in 0..cursor.turns() {
        if stops_specs(cursor.peek()) {
            return Ok(specs);
        }
        specs = next_spec(cursor, specs)?;
    }
    Err(Fault::NoTree)
}

#[tactic(auto, unfolding(crate::specs::Declarators::some_specs, crate::specs::Reading::bind))]
fn some_specs(alloc: Global, cursor: &mut Cursor<'_>) -> Result<Specs, Fault>
    ensures { Answers (λ s. specs_view s) result cursor.new (reader.some_specs cursor.old) }
{
    let none = Specs {
        list: Items::new(alloc),
        lines: Items::new(alloc),
    };
    let first = next_spec(cursor, none)?;
    specs_behind(cursor, first)
}

/// Reads one specifier or more (6.7), if they may be at least one node deep.
#[tactic(auto, using(crate::proofs::Turns::specs_none, crate::proofs::Turns::specs_some))]
pub fn specs(alloc: Global, cursor: &mut Cursor<'_>, depth: u32) -> Result<Specs, Fault>
    ensures { Answers (λ s. specs_view s) result cursor.new (reader.specs depth cursor.old) }
{
    if depth == 0 {
        return Err(Fault::NoTree);
    }
    some_specs(alloc, cursor)
}

// The declared identifier (6.7.5).
#[tactic(auto, unfolding(crate::specs::Declarators::identifier, crate::specs::Reading::bind))]
fn identifier(alloc: Global, cursor: &mut Cursor<'_>) -> Result<ReadDeclarator, Fault>
    ensures reads { Answers (λ d. measured_declarator (declarator_view d.tree) d.depth) result cursor.new (reader.identifier cursor.old) }
    ensures within { IfOk result (λ d. d.depth ≡ 1) }
{
    let (name, line) = cursor.word()?;
    let lines = one_line(alloc, line)?;
    let tree = Boxed::new(alloc, Declarator::Identifier { name, lines })?;
    Ok(Measured { tree, depth: 1 })
}

// A comma and the parameter behind it.
#[cycle(declarator)]
#[tactic(auto, unfolding(crate::specs::Lists::taking, crate::specs::Lists::comma_item, crate::specs::Reading::bind))]
fn next_param(
    alloc: Global,
    cursor: &mut Cursor<'_>,
    depth: u32,
    list: Listed<Param>,
) -> Result<Listed<Param>, Fault>
    requires depth { depth < 2 ^ 31 }
    requires list { list.depth ≤ depth }
    ensures reads { Answers (λ l. list_read (map param_view l.list) l.depth l.lines) result cursor.new
        (lists.next_item (reader.param depth) (list_read (map param_view list.list) list.depth list.lines) cursor.old) }
    ensures within { IfOk result (λ l. l.depth ≤ depth) }
{
    let mut list = list;
    list.push_line(cursor.mark(Punct::Comma)?)?;
    list.push(param(alloc, cursor, depth)?)?;
    Ok(list)
}

// The parameters behind the first, each behind a comma.
#[cycle(declarator)]
#[tactic(auto, using(crate::proofs::Turns::many_out, crate::proofs::Turns::many_stop, crate::proofs::Turns::many_goes), unfolding(crate::specs::Lists::many_ahead, crate::specs::Reading::bind))]
fn params_behind(
    alloc: Global,
    cursor: &mut Cursor<'_>,
    depth: u32,
    list: Listed<Param>,
) -> Result<Listed<Param>, Fault>
    requires depth { depth < 2 ^ 31 }
    requires list { list.depth ≤ depth }
    ensures reads { Answers (λ l. list_read (map param_view l.list) l.depth l.lines) result cursor.new
        (lists.behind_commas (reader.param depth) (list_read (map param_view list.list) list.depth list.lines) cursor.old) }
    ensures within { IfOk result (λ l. l.depth ≤ depth) }
{
    let mut list = list;
    for _turn in 0..cursor.turns() {
        if !cursor.sees(Punct::Comma) {
            return Ok(list);
        }
        list = next_param(alloc, cursor, depth, list)?;
    }
    Err(Fault::NoTree)
}

// The parameters of a function. `first` is the line of the parenthesis in front of them.
#[cycle(declarator)]
#[tactic(auto, unfolding(crate::specs::Declarators::params_from, crate::specs::Reading::bind))]
fn params(
    alloc: Global,
    cursor: &mut Cursor<'_>,
    depth: u32,
    first: u32,
) -> Result<Listed<Param>, Fault>
    requires { depth < 2 ^ 31 }
    ensures reads { Answers (λ l. list_read (map param_view l.list) l.depth l.lines) result cursor.new
        (reader.params_from (reader.param depth) first cursor.old) }
    ensures within { IfOk result (λ l. l.depth ≤ depth) }
{
    let mut list = Listed::new(alloc, one_line(alloc, first)?);
    list.push(param(alloc, cursor, depth)?)?;
    params_behind(alloc, cursor, depth, list)
}

// A function of what was read (6.7.5.3).
#[cycle(declarator)]
#[tactic(auto, unfolding(crate::specs::Declarators::function, crate::specs::Reading::bind))]
fn function(
    alloc: Global,
    cursor: &mut Cursor<'_>,
    depth: u32,
    of: ReadDeclarator,
) -> Result<ReadDeclarator, Fault>
    requires { depth < 2 ^ 31 }
    ensures reads { Answers (λ d. measured_declarator (declarator_view d.tree) d.depth) result cursor.new
        (reader.function (reader.param depth) depth (measured_declarator (declarator_view of.tree) of.depth) cursor.old) }
    ensures within { IfOk result (λ d. d.depth ≤ suc depth) }
{
    if depth < of.depth {
        return Err(Fault::NoTree);
    }
    let first = cursor.mark(Punct::LeftParenthesis)?;
    let mut list = params(alloc, cursor, depth, first)?;
    let last = cursor.mark(Punct::RightParenthesis)?;
    list.push_line(last)?;
    Ok(function_of(alloc, of, list)?)
}

// The functions that follow a name.
#[cycle(declarator)]
#[tactic(auto, using(crate::proofs::Turns::many_out, crate::proofs::Turns::many_stop, crate::proofs::Turns::many_goes), unfolding(crate::specs::Lists::many_ahead, crate::specs::Reading::bind))]
fn functions_behind(
    alloc: Global,
    cursor: &mut Cursor<'_>,
    depth: u32,
    of: ReadDeclarator,
) -> Result<ReadDeclarator, Fault>
    requires depth { depth < 2 ^ 31 }
    requires of { of.depth ≤ suc depth }
    ensures reads { Answers (λ d. measured_declarator (declarator_view d.tree) d.depth) result cursor.new
        (lists.many_ahead reader.stops_functions (reader.function (reader.param depth) depth) (measured_declarator (declarator_view of.tree) of.depth) cursor.old) }
    ensures within { IfOk result (λ d. d.depth ≤ suc depth) }
{
    let mut of = of;
    for _turn in 0..cursor.turns() {
        if !shows_mark(cursor.peek(), Punct::LeftParenthesis) {
            return Ok(of);
        }
        of = function(alloc, cursor, depth, of)?;
    }
    Err(Fault::NoTree)
}

/// Reads a declarator with a name (6.7.5), at most `depth` nodes deep.
#[cycle(declarator)]
#[tactic(auto, using(crate::proofs::Turns::declarator_none, crate::proofs::Turns::declarator_some), unfolding(crate::specs::Reading::bind))]
pub fn declarator(
    alloc: Global,
    cursor: &mut Cursor<'_>,
    depth: u32,
) -> Result<ReadDeclarator, Fault>
    requires { depth < 2 ^ 31 }
    ensures reads { Answers (λ d. measured_declarator (declarator_view d.tree) d.depth) result cursor.new (reader.declarator depth cursor.old) }
    ensures within { IfOk result (λ d. d.depth ≤ depth) }
{
    if depth == 0 {
        return Err(Fault::NoTree);
    }
    let of = identifier(alloc, cursor)?;
    functions_behind(alloc, cursor, depth - 1, of)
}

// No declarator.
fn missing(alloc: Global) -> Result<ReadDeclarator, Memory>
    ensures { IfOk result (λ d. measured_declarator (declarator_view d.tree) d.depth ≡ measured_declarator tree.Missing 1) }
{
    let tree = Boxed::new(alloc, Declarator::Missing)?;
    Ok(Measured { tree, depth: 1 })
}

// A declarator, or none where no identifier stands ahead (6.7.6).
#[cycle(declarator)]
#[tactic(auto, unfolding(crate::specs::Declarators::declarator_or_missing))]
fn declarator_or_missing(
    alloc: Global,
    cursor: &mut Cursor<'_>,
    depth: u32,
) -> Result<ReadDeclarator, Fault>
    requires depth { depth < 2 ^ 31 }
    requires some { 0 < depth }
    ensures reads { Answers (λ d. measured_declarator (declarator_view d.tree) d.depth) result cursor.new
        (reader.declarator_or_missing (reader.declarator depth) cursor.old) }
    ensures within { IfOk result (λ d. d.depth ≤ depth) }
{
    match cursor.peek() {
        Sight::Word => declarator(alloc, cursor, depth),
        _ => Ok(missing(alloc)?),
    }
}

// A parameter (6.7.5), whose parts are at most `depth` nodes deep.
#[cycle(declarator)]
#[tactic(auto, using(crate::proofs::Turns::specs_none), unfolding(crate::specs::Declarators::param_from, crate::specs::Reading::bind))]
fn param_from(alloc: Global, cursor: &mut Cursor<'_>, depth: u32) -> Result<Measured<Param>, Fault>
    requires { depth < 2 ^ 31 }
    ensures reads { Answers (λ p. measured_param (param_view p.tree) p.depth) result cursor.new
        (reader.param_from (reader.declarator depth) depth cursor.old) }
    ensures within { IfOk result (λ p. p.depth ≤ suc depth) }
{
    if depth == 0 {
        return Err(Fault::NoTree);
    }
    let specs = specs(alloc, cursor, depth)?;
    let read = declarator_or_missing(alloc, cursor, depth)?;
    let depth = read.depth.max(1) + 1;
    Ok(Measured {
        tree: Param {
            specs,
            declarator: read.tree.into_inner(),
        },
        depth,
    })
}

// A parameter (6.7.5), at most `depth` nodes deep.
#[cycle(declarator)]
#[tactic(auto, using(crate::proofs::Turns::param_none, crate::proofs::Turns::param_some))]
fn param(alloc: Global, cursor: &mut Cursor<'_>, depth: u32) -> Result<Measured<Param>, Fault>
    requires { depth < 2 ^ 31 }
    ensures reads { Answers (λ p. measured_param (param_view p.tree) p.depth) result cursor.new (reader.param depth cursor.old) }
    ensures within { IfOk result (λ p. p.depth ≤ depth) }
{
    if depth == 0 {
        return Err(Fault::NoTree);
    }
    param_from(alloc, cursor, depth - 1)
}
