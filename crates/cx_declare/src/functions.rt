//! Functions: parameters and lists of identifiers (ISO C99, 6.7.5 and 6.7.5.3).

ghost use Rattle.std.specs.Prelude.{◌≡◌, ◌≤◌, ◌<◌, ◌^◌, ◌++◌, suc, map, not, max, IfOk, OnOk, [], ◌∷◌};
ghost use Rattle.cx_cursor.specs.Lists as lists;
ghost use Rattle.cx_cursor.specs.Lists.{list_read, many_ahead, taking};
ghost use Rattle.cx_cursor.specs.Reading.{Answers, at};
ghost use Rattle.cx_expr.specs.Below.{declarator_read};
ghost use Rattle.cx_expr.specs.Declarators as reader;
ghost use Rattle.cx_expr.specs.Asked.{IsBelow};
ghost use Rattle.cx_expr.specs.Knot.{readers};
ghost use Rattle.cx_cursor.specs.Scopes.{bound};
ghost use Rattle.cx_tree.specs.Depth.{declarator_depth, param_depth, params_depth};
ghost use Rattle.cx_tree.specs.Names as names;
ghost use Rattle.cx_tree.specs.Valid.{has_name};
ghost use Rattle.cx_tree.specs.Views.{declarator_view, param_view, params as param_trees, spec_view, specs as spec_trees};

use crate::declarators::declarator_or_missing;
use crate::specifiers::specs_from;
use cr_base::{Boxed, Items, Memory, Name};
use cx_cursor::{Bound, Cursor, Fault, Listed, Measured, one_line};
use cx_expr::{Found, ReadDeclarator, ReadParam, Wanted};
use cx_lex::Punct;
use cx_tree::{Declarator, Param};
use cx_words::{Form, declare, has_name, is_identifier, is_plain, no_param, shows_spec};
use std::alloc::Global;

// A parameter whose parts are at most `depth` nodes deep.
#[tactic(auto, unfolding(cx_expr::specs::Declarators::param_from, cx_cursor::specs::Reading::bind))]
fn param_from<F: Fn(&mut Cursor<'_>, u32, Wanted) -> Result<Found, Fault>>(
    alloc: Global,
    cursor: &mut Cursor<'_>,
    depth: u32,
    below: &F,
) -> Result<ReadParam, Fault>
    requires parts { IsBelow (F.pre below.now) (F.post below.now) depth }
    requires depth { depth < 2 ^ 31 }
    ensures reads { Answers (λ r. param_view r.tree) result cursor.new (reader.param_from (readers depth) cursor.old) }
    ensures depth { IfOk result (λ r. r.depth ≡ param_depth (param_view r.tree)) }
    ensures within { IfOk result (λ r. r.depth ≤ suc depth) }
{
    let specs = specs_from(alloc, cursor, depth, below, true)?;
    let declarator = declarator_or_missing(alloc, cursor, depth, below, Form::Parameter)?;
    declare(cursor, specs.list.as_slice(), declarator.tree.get())?;
    let depth = specs.depth.max(declarator.depth) + 1;
    let param = Param {
        specs: specs.list,
        declarator: declarator.tree,
        lines: Items::new(alloc),
    };
    let tree = Boxed::new(alloc, param)?;
    Ok(Measured { tree, depth })
}

// A parameter, at most `depth` nodes deep.
#[tactic(auto, using(cx_expr::proofs::Turns::param_none, cx_expr::proofs::Turns::param_some, cx_expr::proofs::Shallow::shallower))]
fn param<F: Fn(&mut Cursor<'_>, u32, Wanted) -> Result<Found, Fault>>(
    alloc: Global,
    cursor: &mut Cursor<'_>,
    depth: u32,
    below: &F,
) -> Result<ReadParam, Fault>
    requires parts { IsBelow (F.pre below.now) (F.post below.now) depth }
    requires depth { depth < 2 ^ 31 }
    ensures reads { Answers (λ r. param_view r.tree) result cursor.new ((readers depth).param cursor.old) }
    ensures depth { IfOk result (λ r. r.depth ≡ param_depth (param_view r.tree)) }
    ensures within { IfOk result (λ r. r.depth ≤ depth) }
{
    if depth == 0 {
        return Err(cursor.no_tree());
    }
    param_from(alloc, cursor, depth - 1, below)
}

// A comma and the parameter behind it.
#[tactic(auto, unfolding(cx_cursor::specs::Lists::taking, cx_cursor::specs::Lists::comma_item, cx_cursor::specs::Reading::bind))]
fn next_param<F: Fn(&mut Cursor<'_>, u32, Wanted) -> Result<Found, Fault>>(
    alloc: Global,
    cursor: &mut Cursor<'_>,
    depth: u32,
    below: &F,
    list: Listed<Param>,
) -> Result<Listed<Param>, Fault>
    requires parts { IsBelow (F.pre below.now) (F.post below.now) depth }
    requires depth { depth < 2 ^ 31 }
    requires measured { list.depth ≡ params_depth (param_trees (map param_view list.list)) }
    requires within { list.depth ≤ depth }
    ensures reads { Answers (λ l. list_read (map param_view l.list) l.lines) result cursor.new
        (lists.next_item (readers depth).param (list_read (map param_view list.list) list.lines) cursor.old) }
    ensures depth { IfOk result (λ l. l.depth ≡ params_depth (param_trees (map param_view l.list))) }
    ensures within { IfOk result (λ l. l.depth ≤ depth) }
{
    let mut list = list;
    list.push_line(cursor.mark(Punct::Comma)?)?;
    let one = param(alloc, cursor, depth, below)?;
    list.push(one)?;
    Ok(list)
}

// The parameters behind the first.
#[tactic(auto, using(cx_cursor::proofs::Turns::many_out, cx_cursor::proofs::Turns::many_stop, cx_cursor::proofs::Turns::many_goes), unfolding(cx_cursor::specs::Lists::many_ahead, cx_cursor::specs::Reading::bind))]
fn params_behind<F: Fn(&mut Cursor<'_>, u32, Wanted) -> Result<Found, Fault>>(
    alloc: Global,
    cursor: &mut Cursor<'_>,
    depth: u32,
    below: &F,
    list: Listed<Param>,
) -> Result<Listed<Param>, Fault>
    requires parts { IsBelow (F.pre below.now) (F.post below.now) depth }
    requires depth { depth < 2 ^ 31 }
    requires measured { list.depth ≡ params_depth (param_trees (map param_view list.list)) }
    requires within { list.depth ≤ depth }
    ensures reads { Answers (λ l. list_read (map param_view l.list) l.lines) result cursor.new
        (many_ahead reader.no_param (lists.next_item (readers depth).param) (list_read (map param_view list.list) list.lines) cursor.old) }
    ensures depth { IfOk result (λ l. l.depth ≡ params_depth (param_trees (map param_view l.list))) }
    ensures within { IfOk result (λ l. l.depth ≤ depth) }
{
    let mut list = list;
    for _turn in 0..cursor.turns() {
        if no_param(cursor) {
            return Ok(list);
        }
        list = next_param(alloc, cursor, depth, below, list)?;
    }
    Err(cursor.no_tree())
}

// The parameters of a function. `first` is the line of the parenthesis in front of them.
#[tactic(auto, unfolding(cx_expr::specs::Declarators::params_in, cx_cursor::specs::Reading::bind))]
fn params_in<F: Fn(&mut Cursor<'_>, u32, Wanted) -> Result<Found, Fault>>(
    alloc: Global,
    cursor: &mut Cursor<'_>,
    depth: u32,
    below: &F,
    first: u32,
) -> Result<Listed<Param>, Fault>
    requires parts { IsBelow (F.pre below.now) (F.post below.now) depth }
    requires depth { depth < 2 ^ 31 }
    ensures reads { Answers (λ l. list_read (map param_view l.list) l.lines) result cursor.new (reader.params_in (readers depth) first cursor.old) }
    ensures depth { IfOk result (λ l. l.depth ≡ params_depth (param_trees (map param_view l.list))) }
    ensures within { IfOk result (λ l. l.depth ≤ depth) }
{
    let mut list = Listed::new(alloc, one_line(alloc, first)?);
    let one = param(alloc, cursor, depth, below)?;
    list.push(one)?;
    params_behind(alloc, cursor, depth, below, list)
}

// Parameters that were read in a scope of their own, and what they declared in it.
#[derive(Drop)]
struct Scoped {
    list: Listed<Param>,
    declared: Items<Bound>,
}

// The parameters of a function, which are in scope up to the end of their list (6.2.1p4).
#[tactic(auto, unfolding(cx_expr::specs::Declarators::scoped_params))]
fn scoped_params<F: Fn(&mut Cursor<'_>, u32, Wanted) -> Result<Found, Fault>>(
    alloc: Global,
    cursor: &mut Cursor<'_>,
    depth: u32,
    below: &F,
    first: u32,
) -> Result<Scoped, Fault>
    requires parts { IsBelow (F.pre below.now) (F.post below.now) depth }
    requires depth { depth < 2 ^ 31 }
    ensures reads { Answers (λ s. reader.scoped_read (list_read (map param_view s.list.list) s.list.lines) (map bound s.declared)) result cursor.new (reader.scoped_params (readers depth) first cursor.old) }
    ensures depth { IfOk result (λ s. s.list.depth ≡ params_depth (param_trees (map param_view s.list.list))) }
    ensures within { IfOk result (λ s. s.list.depth ≤ depth) }
{
    let count = cursor.scope_len();
    let list = params_in(alloc, cursor, depth, below, first)?;
    let declared = cursor.bound_since(count)?;
    cursor.leave(count);
    Ok(Scoped { list, declared })
}

// Parameters up to the end of their list.
#[derive(Drop)]
struct Params {
    list: Items<Param>,
    depth: u32,
    variadic: bool,
    lines: Items<u32>,
}

// The end of a list of parameters.
#[tactic(auto, unfolding(cx_expr::specs::Declarators::params_end, cx_cursor::specs::Reading::bind))]
fn params_end(cursor: &mut Cursor<'_>, list: Listed<Param>) -> Result<Params, Fault>
    ensures reads { Answers (λ p. reader.params_read (map param_view p.list) p.variadic p.lines) result cursor.new
        (reader.params_end (list_read (map param_view list.list) list.lines) cursor.old) }
    ensures list { IfOk result (λ p. p.list ≡ list.list) }
    ensures depth { IfOk result (λ p. p.depth ≡ list.depth) }
{
    let mut list = list;
    let variadic = cursor.sees(Punct::Comma);
    if variadic {
        list.push_line(cursor.mark(Punct::Comma)?)?;
        list.push_line(cursor.mark(Punct::Ellipsis)?)?;
    }
    list.push_line(cursor.mark(Punct::RightParenthesis)?)?;
    let Listed { list, depth, lines } = list;
    Ok(Params {
        list,
        depth,
        variadic,
        lines,
    })
}

// A function of a declarator. `declared` is what its parameters declare.
fn function_of(
    alloc: Global,
    of: ReadDeclarator,
    params: Params,
    declared: Items<Bound>,
) -> Result<ReadDeclarator, Memory>
    requires depth { (of.depth < 2 ^ 31) × (params.depth < 2 ^ 31) }
    requires measured { (of.depth ≡ declarator_depth (declarator_view of.tree)) × (params.depth ≡ params_depth (param_trees (map param_view params.list))) }
    ensures tree { IfOk result (λ r. declarator_read (declarator_view r.tree) (map bound r.own)
        ≡ reader.function_of (declarator_read (declarator_view of.tree) (map bound of.own)) (reader.params_read (map param_view params.list) params.variadic params.lines) (map bound declared)) }
    ensures deep { IfOk result (λ r. r.depth ≡ suc (max of.depth params.depth)) }
    ensures depth { IfOk result (λ r. r.depth ≡ declarator_depth (declarator_view r.tree)) }
{
    let depth = of.depth.max(params.depth) + 1;
    let ReadDeclarator { tree: of, own, .. } = of;
    let own = if is_identifier(of.get()) {
        declared
    } else {
        own
    };
    let function = Declarator::Function {
        of,
        params: params.list,
        variadic: params.variadic,
        lines: params.lines,
    };
    let tree = Boxed::new(alloc, function)?;
    Ok(ReadDeclarator { tree, depth, own })
}

// A function with parameters, whose parenthesis on the line `first` was read.
#[tactic(auto, unfolding(cx_expr::specs::Declarators::function, cx_cursor::specs::Reading::bind))]
fn function<F: Fn(&mut Cursor<'_>, u32, Wanted) -> Result<Found, Fault>>(
    alloc: Global,
    cursor: &mut Cursor<'_>,
    depth: u32,
    below: &F,
    of: ReadDeclarator,
    first: u32,
) -> Result<ReadDeclarator, Fault>
    requires parts { IsBelow (F.pre below.now) (F.post below.now) depth }
    requires depth { depth < 2 ^ 31 }
    requires within { of.depth ≤ depth }
    requires measured { of.depth ≡ declarator_depth (declarator_view of.tree) }
    ensures reads { Answers (λ r. declarator_read (declarator_view r.tree) (map bound r.own)) result cursor.new (reader.function (readers depth) (declarator_read (declarator_view of.tree) (map bound of.own)) first cursor.old) }
    ensures within { IfOk result (λ r. r.depth ≤ suc depth) }
    ensures depth { IfOk result (λ r. r.depth ≡ declarator_depth (declarator_view r.tree)) }
{
    let scoped = scoped_params(alloc, cursor, depth, below, first)?;
    let params = params_end(cursor, scoped.list)?;
    Ok(function_of(alloc, of, params, scoped.declared)?)
}

// Names that were read, and the lines of the list's own tokens.
#[derive(Drop)]
struct ReadNames {
    names: Items<Name>,
    lines: Items<u32>,
}

// An identifier that is no typedef name.
#[tactic(auto, unfolding(cx_expr::specs::Declarators::plain_word))]
fn plain_word(cursor: &mut Cursor<'_>) -> Result<(Name, u32), Fault>
    ensures { Answers (λ w. (w.0, w.1)) result cursor.new (reader.plain_word cursor.old) }
{
    if !is_plain(cursor.peek()) {
        return Err(cursor.no_tree());
    }
    cursor.word()
}

// A comma and the identifier behind it.
#[tactic(auto, unfolding(cx_expr::specs::Declarators::comma_name, cx_cursor::specs::Lists::taking, cx_cursor::specs::Reading::bind))]
fn next_name(cursor: &mut Cursor<'_>, all: ReadNames) -> Result<ReadNames, Fault>
    ensures { Answers (λ i. list_read i.names i.lines) result cursor.new
        (taking reader.comma_name reader.with_comma_name (list_read all.names all.lines) cursor.old) }
{
    let mut all = all;
    all.lines.push(cursor.mark(Punct::Comma)?)?;
    let (name, line) = plain_word(cursor)?;
    all.names.push(name)?;
    all.lines.push(line)?;
    Ok(all)
}

// The identifiers behind the first.
#[tactic(auto, using(cx_cursor::proofs::Turns::many_out, cx_cursor::proofs::Turns::many_stop, cx_cursor::proofs::Turns::many_goes), unfolding(cx_cursor::specs::Lists::many_ahead, cx_cursor::specs::Reading::bind))]
fn names_behind(cursor: &mut Cursor<'_>, all: ReadNames) -> Result<ReadNames, Fault>
    ensures { Answers (λ i. list_read i.names i.lines) result cursor.new
        (many_ahead lists.no_comma (taking reader.comma_name reader.with_comma_name) (list_read all.names all.lines) cursor.old) }
{
    let mut all = all;
    for _turn in 0..cursor.turns() {
        if !cursor.sees(Punct::Comma) {
            return Ok(all);
        }
        all = next_name(cursor, all)?;
    }
    Err(cursor.no_tree())
}

// A list of identifiers, which may be empty.
#[tactic(auto, unfolding(cx_expr::specs::Declarators::names_in, cx_expr::specs::Declarators::some_names, cx_cursor::specs::Reading::bind))]
fn names_in(alloc: Global, cursor: &mut Cursor<'_>, first: u32) -> Result<ReadNames, Fault>
    ensures { Answers (λ i. list_read i.names i.lines) result cursor.new (reader.names_in first cursor.old) }
{
    let mut all = ReadNames {
        names: Items::new(alloc),
        lines: one_line(alloc, first)?,
    };
    if cursor.sees(Punct::RightParenthesis) {
        return Ok(all);
    }
    let (name, line) = plain_word(cursor)?;
    all.names.push(name)?;
    all.lines.push(line)?;
    names_behind(cursor, all)
}

// A function with a list of identifiers, whose parenthesis on the line `first` was read.
#[tactic(auto, unfolding(cx_expr::specs::Declarators::identifiers, cx_cursor::specs::Reading::bind))]
fn identifiers(
    alloc: Global,
    cursor: &mut Cursor<'_>,
    of: ReadDeclarator,
    first: u32,
) -> Result<ReadDeclarator, Fault>
    requires depth { of.depth < 2 ^ 31 }
    requires measured { of.depth ≡ declarator_depth (declarator_view of.tree) }
    ensures reads { Answers (λ r. declarator_read (declarator_view r.tree) (map bound r.own)) result cursor.new (reader.identifiers (declarator_read (declarator_view of.tree) (map bound of.own)) first cursor.old) }
    ensures within { IfOk result (λ r. r.depth ≡ suc of.depth) }
    ensures depth { IfOk result (λ r. r.depth ≡ declarator_depth (declarator_view r.tree)) }
{
    let ReadNames { names, lines } = names_in(alloc, cursor, first)?;
    let mut lines = lines;
    lines.push(cursor.mark(Punct::RightParenthesis)?)?;
    let depth = of.depth + 1;
    let node = Declarator::Identifiers {
        of: of.tree,
        names,
        lines,
    };
    let tree = Boxed::new(alloc, node)?;
    Ok(ReadDeclarator {
        tree,
        depth,
        own: of.own,
    })
}

/// What stands in the parentheses of a function, behind the first of them.
#[tactic(auto, unfolding(cx_expr::specs::Declarators::in_parentheses, cx_expr::specs::Declarators::function_or_identifiers, cx_cursor::specs::Reading::bind))]
pub fn function_or_identifiers<F: Fn(&mut Cursor<'_>, u32, Wanted) -> Result<Found, Fault>>(
    alloc: Global,
    cursor: &mut Cursor<'_>,
    depth: u32,
    below: &F,
    of: ReadDeclarator,
) -> Result<ReadDeclarator, Fault>
    requires parts { IsBelow (F.pre below.now) (F.post below.now) depth }
    requires depth { depth < 2 ^ 31 }
    requires within { of.depth ≤ depth }
    requires measured { of.depth ≡ declarator_depth (declarator_view of.tree) }
    ensures reads { Answers (λ r. declarator_read (declarator_view r.tree) (map bound r.own)) result cursor.new (reader.function_or_identifiers (readers depth) (declarator_read (declarator_view of.tree) (map bound of.own)) cursor.old) }
    ensures within { IfOk result (λ r. r.depth ≤ suc depth) }
    ensures depth { IfOk result (λ r. r.depth ≡ declarator_depth (declarator_view r.tree)) }
{
    let first = cursor.mark(Punct::LeftParenthesis)?;
    if shows_spec(true, false, cursor.peek()) {
        return function(alloc, cursor, depth, below, of, first);
    }
    if !has_name(of.tree.get()) && !cursor.sees(Punct::RightParenthesis) {
        return Err(cursor.no_tree());
    }
    identifiers(alloc, cursor, of, first)
}
