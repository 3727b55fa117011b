//! Readers of external functions and of functions with a body (the Rust Reference, "External blocks" and "Functions").

ghost use Rattle.std.specs.Prelude.{◌≡◌, map, option_map, IfOk};
ghost use Rattle.rs_expr.specs.Reading.{Gives, many_ahead, added, part, listed};
ghost use Rattle.rs_item.specs.Items as reader;
ghost use Rattle.rs_text.specs.Tree as tree;
ghost use Rattle.rs_tree.specs.Views.{ty_view, outer_view, local_view, stmt_view, item_view};

use crate::lists::{with_boxed, with_last};
use crate::parts::{
    ends_braces, ends_listed, ends_locals, ends_params, link_name, read_result, read_ty, typed,
};
use crate::stmts::read_stmts;
use cr_base::{Boxed, Items, Memory, Name};
use rs_expr::{Cursor, Sign};
use rs_tree::{Attribute, Function, Item, Local, Outer, RStmt, RTy};
use std::alloc::Global;

// The type of one more parameter of an external function, behind its name.
#[tactic(auto, unfolding(rs_expr::specs::Reading::added, rs_expr::specs::Reading::part, crate::specs::Items::outer_param))]
fn next_outer_params(
    alloc: Global,
    cursor: &mut Cursor<'_>,
    list: Items<RTy>,
) -> Result<Items<RTy>, Memory>
    ensures { Gives (λ l. map ty_view l) result cursor.new (added (part reader.outer_param) (map ty_view list) cursor.old) }
{
    cursor.skip(2);
    let one = read_ty(alloc, cursor)?;
    cursor.skip_comma();
    with_boxed(list, one)
}

// All parameters of an external function.
#[tactic(auto, using(rs_expr::proofs::Turns::many_out, rs_expr::proofs::Turns::many_stop, rs_expr::proofs::Turns::many_goes))]
fn outer_params(alloc: Global, cursor: &mut Cursor<'_>) -> Result<Items<RTy>, Memory>
    ensures { Gives (λ l. map ty_view l) result cursor.new (reader.outer_params cursor.old) }
{
    let mut list = Items::new(alloc);
    for _turn in 0..cursor.len() {
        if ends_params(cursor.peek()) {
            return Ok(list);
        }
        list = next_outer_params(alloc, cursor, list)?;
    }
    Ok(list)
}

// `...`, which may be missing.
#[tactic(auto, unfolding(crate::specs::Items::variadic))]
fn variadic(cursor: &mut Cursor<'_>) -> bool
    ensures { reader.variadic cursor.old ≡ (result, cursor.new) }
{
    if cursor.peek() != Sign::OtherMark {
        return false;
    }
    cursor.skip(1);
    true
}

fn outer_of(
    alloc: Global,
    symbol: Option<Name>,
    name: Name,
    params: Items<RTy>,
    variadic: bool,
    given: Option<Boxed<RTy>>,
) -> Result<Boxed<Outer>, Memory>
    ensures { IfOk result (λ o. outer_view o ≡ reader.outer_tree symbol name (map ty_view params) variadic (option_map ty_view given)) }
{
    let outer = Outer {
        link_name: symbol,
        name,
        params,
        variadic,
        result: given,
    };
    Boxed::new(alloc, outer)
}

// `...) -> T;`, behind the parameters.
#[tactic(auto, unfolding(crate::specs::Items::outer_end))]
fn outer_end(
    alloc: Global,
    cursor: &mut Cursor<'_>,
    symbol: Option<Name>,
    name: Name,
    params: Items<RTy>,
) -> Result<Boxed<Outer>, Memory>
    ensures { Gives outer_view result cursor.new (reader.outer_end symbol name (map ty_view params) cursor.old) }
{
    let variadic = variadic(cursor);
    cursor.skip(1);
    let result = read_result(alloc, cursor)?;
    cursor.skip(1);
    outer_of(alloc, symbol, name, params, variadic, result)
}

// `pub fn x(a0: T, ...) -> T;`, behind its attribute.
#[tactic(auto, unfolding(crate::specs::Items::outer_from))]
fn outer_from(
    alloc: Global,
    cursor: &mut Cursor<'_>,
    symbol: Option<Name>,
) -> Result<Boxed<Outer>, Memory>
    ensures { Gives outer_view result cursor.new (reader.outer_from symbol cursor.old) }
{
    cursor.skip(2);
    let name = cursor.name(alloc)?;
    cursor.skip(1);
    let params = outer_params(alloc, cursor)?;
    outer_end(alloc, cursor, symbol, name, params)
}

// One more external function of a block.
#[tactic(auto, unfolding(rs_expr::specs::Reading::added, crate::specs::Items::outer))]
fn next_outers(
    alloc: Global,
    cursor: &mut Cursor<'_>,
    list: Items<Outer>,
) -> Result<Items<Outer>, Memory>
    ensures { Gives (λ l. map outer_view l) result cursor.new (added reader.outer (map outer_view list) cursor.old) }
{
    let symbol = link_name(alloc, cursor)?;
    let one = outer_from(alloc, cursor, symbol)?;
    with_boxed(list, one)
}

/// Reads all external functions of a block. Refused only for want of memory.
#[tactic(auto, using(rs_expr::proofs::Turns::many_out, rs_expr::proofs::Turns::many_stop, rs_expr::proofs::Turns::many_goes))]
pub(crate) fn outers(alloc: Global, cursor: &mut Cursor<'_>) -> Result<Items<Outer>, Memory>
    ensures { Gives (λ l. map outer_view l) result cursor.new (reader.outers cursor.old) }
{
    let mut list = Items::new(alloc);
    for _turn in 0..cursor.len() {
        if ends_braces(cursor.peek()) {
            return Ok(list);
        }
        list = next_outers(alloc, cursor, list)?;
    }
    Ok(list)
}

// `mut x: T`, one more parameter of a function.
#[tactic(auto, unfolding(rs_expr::specs::Reading::added, rs_expr::specs::Reading::part, crate::specs::Items::param))]
fn next_params(
    alloc: Global,
    cursor: &mut Cursor<'_>,
    list: Items<Local>,
) -> Result<Items<Local>, Memory>
    ensures { Gives (λ l. map local_view l) result cursor.new (added (part reader.param) (map local_view list) cursor.old) }
{
    cursor.skip(1);
    let one = typed(alloc, cursor)?;
    cursor.skip_comma();
    with_last(list, one)
}

// All parameters of a function.
#[tactic(auto, using(rs_expr::proofs::Turns::many_out, rs_expr::proofs::Turns::many_stop, rs_expr::proofs::Turns::many_goes))]
fn params(alloc: Global, cursor: &mut Cursor<'_>) -> Result<Items<Local>, Memory>
    ensures { Gives (λ l. map local_view l) result cursor.new (reader.params cursor.old) }
{
    let mut list = Items::new(alloc);
    for _turn in 0..cursor.len() {
        if ends_listed(cursor.peek()) {
            return Ok(list);
        }
        list = next_params(alloc, cursor, list)?;
    }
    Ok(list)
}

// `let mut x: T = core::mem::zeroed();`, one more local of a function.
#[tactic(auto, unfolding(rs_expr::specs::Reading::added, crate::specs::Items::local))]
fn next_locals(
    alloc: Global,
    cursor: &mut Cursor<'_>,
    list: Items<Local>,
) -> Result<Items<Local>, Memory>
    ensures { Gives (λ l. map local_view l) result cursor.new (added reader.local (map local_view list) cursor.old) }
{
    cursor.skip(2);
    let one = typed(alloc, cursor)?;
    cursor.skip(9);
    with_last(list, one)
}

// All locals of a function.
#[tactic(auto, using(rs_expr::proofs::Turns::many_out, rs_expr::proofs::Turns::many_stop, rs_expr::proofs::Turns::many_goes))]
fn locals(alloc: Global, cursor: &mut Cursor<'_>) -> Result<Items<Local>, Memory>
    ensures { Gives (λ l. map local_view l) result cursor.new (reader.locals cursor.old) }
{
    let mut list = Items::new(alloc);
    for _turn in 0..cursor.len() {
        if ends_locals(cursor.peek()) {
            return Ok(list);
        }
        list = next_locals(alloc, cursor, list)?;
    }
    Ok(list)
}

// What stands before the body of a function.
#[derive(Drop)]
pub(crate) struct Head {
    pub attribute: Attribute,
    pub name: Name,
    pub params: Items<Local>,
    pub result: Option<Boxed<RTy>>,
}

fn head_of(
    alloc: Global,
    attribute: Boxed<Attribute>,
    name: Name,
    params: Items<Local>,
    given: Option<Boxed<RTy>>,
) -> Result<Boxed<Head>, Memory>
    ensures { IfOk result (λ head. reader.head_view head ≡ reader.head_tree attribute name (map local_view params) (option_map ty_view given)) }
{
    let head = Head {
        attribute: attribute.into_inner(),
        name,
        params,
        result: given,
    };
    Boxed::new(alloc, head)
}

// `pub unsafe extern "C" fn x(mut f: T) -> T`, behind its attribute.
#[tactic(auto, unfolding(crate::specs::Items::head))]
fn function_head(
    alloc: Global,
    cursor: &mut Cursor<'_>,
    attribute: Boxed<Attribute>,
) -> Result<Boxed<Head>, Memory>
    ensures { Gives reader.head_view result cursor.new (reader.head attribute cursor.old) }
{
    cursor.skip(5);
    let name = cursor.name(alloc)?;
    cursor.skip(1);
    let params = params(alloc, cursor)?;
    cursor.skip(1);
    let result = read_result(alloc, cursor)?;
    head_of(alloc, attribute, name, params, result)
}

// The item of a function's head, its locals and its statements.
fn function_made(
    alloc: Global,
    head: Boxed<Head>,
    locals: Items<Local>,
    body: Items<RStmt>,
) -> Result<Boxed<Item>, Memory>
    ensures { IfOk result (λ i. item_view i ≡ tree.FunctionItem (reader.with_body (reader.head_view head) (map local_view locals) (map stmt_view body))) }
{
    let Head {
        attribute,
        name,
        params,
        result,
    } = head.into_inner();
    let function = Function {
        attribute,
        name,
        params,
        result,
        locals,
        body,
    };
    Boxed::new(alloc, Item::Function(function))
}

/// Reads a function, behind its attribute. Refused only for want of memory.
#[tactic(auto, unfolding(crate::specs::Items::function_of, crate::specs::Items::function_item, crate::specs::Items::function_from))]
pub(crate) fn function_of(
    alloc: Global,
    cursor: &mut Cursor<'_>,
    attribute: Boxed<Attribute>,
) -> Result<Boxed<Item>, Memory>
    ensures { Gives (λ i. item_view i) result cursor.new (reader.function_of attribute cursor.old) }
{
    let head = function_head(alloc, cursor, attribute)?;
    let levels = cursor.len();
    cursor.skip(1);
    let locals = locals(alloc, cursor)?;
    let body = read_stmts(alloc, cursor, levels)?;
    cursor.skip(1);
    function_made(alloc, head, locals, body)
}
