//! Readers of what stands before dots (the Rust Reference, "Call expressions" and "Path expressions").

ghost use Rattle.std.specs.Prelude.{◌≡◌, map};
ghost use Rattle.rs_expr.specs.Exprs as reader;
ghost use Rattle.rs_expr.specs.Reading.{Gives, listed, part, added};
ghost use Rattle.rs_tree.specs.Views.{expr_view};

use crate::cursor::Cursor;
use crate::expr_nodes::{address_of, call_of, function_value, no_function, read_of, transmuted};
use crate::exprs::expr;
use crate::lists::with_last;
use crate::numbers::literal;
use crate::sign::Sign;
use crate::types::{function_ty, item_path, ty};
use crate::words::{CoreWord, core_word};
use cr_base::{Boxed, Items, Memory};
use rs_tree::{RExpr, RPlace};
use std::alloc::Global;

/// An expression and the mark behind it.
#[cycle(expr)]
#[tactic(auto, unfolding(crate::specs::Exprs::argument))]
pub(crate) fn expr_and_mark(
    alloc: Global,
    cursor: &mut Cursor<'_>,
    levels: usize,
) -> Result<Boxed<RExpr>, Memory>
    ensures { Gives (λ e. expr_view e) result cursor.new (reader.argument (reader.expr levels) cursor.old) }
{
    let read = expr(alloc, cursor, levels)?;
    cursor.skip(1);
    Ok(read)
}

// `core::ptr::addr_of_mut!(p)`
#[cycle(expr)]
#[tactic(auto, unfolding(crate::specs::Exprs::address, crate::specs::Exprs::argument))]
fn address(alloc: Global, cursor: &mut Cursor<'_>, levels: usize) -> Result<Boxed<RExpr>, Memory>
    ensures { Gives (λ e. expr_view e) result cursor.new (reader.address (reader.expr levels) cursor.old) }
{
    cursor.skip(7);
    let read = expr_and_mark(alloc, cursor, levels)?;
    address_of(alloc, read)
}

// `core::ptr::null_mut::<T>()`
#[tactic(auto, unfolding(crate::specs::Exprs::null))]
fn null(alloc: Global, cursor: &mut Cursor<'_>) -> Result<Boxed<RExpr>, Memory>
    ensures { Gives (λ e. expr_view e) result cursor.new (reader.null cursor.old) }
{
    cursor.skip(7);
    let target = ty(alloc, cursor, cursor.len())?;
    cursor.skip(3);
    Boxed::new(alloc, RExpr::NullPointer(target))
}

// `core::mem::transmute::<T, T>(e)`
#[cycle(expr)]
#[tactic(auto, unfolding(crate::specs::Exprs::transmute, crate::specs::Exprs::transmute_to, crate::specs::Exprs::argument))]
fn transmute(alloc: Global, cursor: &mut Cursor<'_>, levels: usize) -> Result<Boxed<RExpr>, Memory>
    ensures { Gives (λ e. expr_view e) result cursor.new (reader.transmute (reader.expr levels) cursor.old) }
{
    cursor.skip(7);
    let from = ty(alloc, cursor, cursor.len())?;
    cursor.skip(1);
    let to = ty(alloc, cursor, cursor.len())?;
    cursor.skip(2);
    let operand = expr_and_mark(alloc, cursor, levels)?;
    transmuted(alloc, from, to, operand)
}

// `Some(crate::m::x as unsafe extern "C" fn(T) -> T)`
#[tactic(auto, unfolding(crate::specs::Exprs::some_function, crate::specs::Exprs::item_path))]
fn some_function(alloc: Global, cursor: &mut Cursor<'_>) -> Result<Boxed<RExpr>, Memory>
    ensures { Gives (λ e. expr_view e) result cursor.new (reader.some_function cursor.old) }
{
    let levels = cursor.len();
    cursor.skip(2);
    let path = item_path(alloc, cursor)?;
    cursor.skip(1);
    let signature = function_ty(alloc, cursor, levels)?;
    cursor.skip(1);
    function_value(alloc, path, signature)
}

// One more expression of a list.
#[cycle(expr)]
#[tactic(auto, unfolding(crate::specs::Reading::added, crate::specs::Reading::part))]
fn next_expr(
    alloc: Global,
    cursor: &mut Cursor<'_>,
    levels: usize,
    list: Items<RExpr>,
) -> Result<Items<RExpr>, Memory>
    ensures { Gives (λ l. map expr_view l) result cursor.new (added (part (reader.expr levels)) (map expr_view list) cursor.old) }
{
    let one = expr(alloc, cursor, levels)?;
    cursor.skip_comma();
    with_last(list, one)
}

/// The expressions of a list up to its parenthesis.
#[cycle(expr)]
#[tactic(auto, using(crate::proofs::Turns::many_out, crate::proofs::Turns::many_stop, crate::proofs::Turns::many_goes))]
pub(crate) fn args(
    alloc: Global,
    cursor: &mut Cursor<'_>,
    levels: usize,
) -> Result<Items<RExpr>, Memory>
    ensures { Gives (λ l. map expr_view l) result cursor.new (listed (reader.expr levels) cursor.old) }
{
    let mut list = Items::new(alloc);
    for _turn in 0..cursor.len() {
        if cursor.peek().ends_list() {
            return Ok(list);
        }
        list = next_expr(alloc, cursor, levels, list)?;
    }
    Ok(list)
}

// `crate::m::x(e, e)`
#[cycle(expr)]
#[tactic(auto, unfolding(crate::specs::Exprs::call, crate::specs::Exprs::item_path))]
fn call(alloc: Global, cursor: &mut Cursor<'_>, levels: usize) -> Result<Boxed<RExpr>, Memory>
    ensures { Gives (λ e. expr_view e) result cursor.new (reader.call (reader.expr levels) cursor.old) }
{
    let path = item_path(alloc, cursor)?;
    cursor.skip(1);
    let args = args(alloc, cursor, levels)?;
    cursor.skip(1);
    call_of(alloc, path, args)
}

// `crate::m::x`, a static object.
#[tactic(auto, unfolding(crate::specs::Exprs::static_object, crate::specs::Exprs::item_path))]
fn static_object(alloc: Global, cursor: &mut Cursor<'_>) -> Result<Boxed<RExpr>, Memory>
    ensures { Gives (λ e. expr_view e) result cursor.new (reader.static_object cursor.old) }
{
    let path = item_path(alloc, cursor)?;
    read_of(alloc, RPlace::Static(path))
}

// A parameter or local.
#[tactic(auto, unfolding(crate::specs::Exprs::local))]
fn local(alloc: Global, cursor: &mut Cursor<'_>) -> Result<Boxed<RExpr>, Memory>
    ensures { Gives (λ e. expr_view e) result cursor.new (reader.local cursor.old) }
{
    let name = cursor.name(alloc)?;
    read_of(alloc, RPlace::Local(name))
}

// What begins with a name.
#[cycle(expr)]
#[tactic(auto, unfolding(crate::specs::Exprs::named, crate::specs::Exprs::core_call))]
fn named(alloc: Global, cursor: &mut Cursor<'_>, levels: usize) -> Result<Boxed<RExpr>, Memory>
    ensures { Gives (λ e. expr_view e) result cursor.new (reader.named (reader.expr levels) cursor.old) }
{
    match cursor.peek_behind() {
        Sign::PathMark => match core_word(cursor.text_behind_four()) {
            CoreWord::AddressWord => address(alloc, cursor, levels),
            CoreWord::NullWord => null(alloc, cursor),
            CoreWord::TransmuteWord => transmute(alloc, cursor, levels),
        },
        Sign::LeftParenthesis => some_function(alloc, cursor),
        _ => local(alloc, cursor),
    }
}

// A literal.
#[tactic(auto, unfolding(crate::specs::Exprs::number))]
pub(crate) fn number(alloc: Global, cursor: &mut Cursor<'_>) -> Result<Boxed<RExpr>, Memory>
    ensures { Gives (λ e. expr_view e) result cursor.new (reader.number cursor.old) }
{
    let (value, ty) = literal(cursor);
    Boxed::new(alloc, RExpr::Literal(value, ty))
}

// A literal of `bool`, or no function.
#[tactic(auto, unfolding(crate::specs::Exprs::word_value))]
fn word_value(alloc: Global, cursor: &mut Cursor<'_>) -> Result<Boxed<RExpr>, Memory>
    ensures { Gives (λ e. expr_view e) result cursor.new (reader.word_value cursor.old) }
{
    let sign = cursor.peek();
    cursor.skip(1);
    if sign == Sign::NoneWord {
        return no_function(alloc);
    }
    Boxed::new(alloc, RExpr::Truth(sign == Sign::True))
}

// What stands before dots.
#[cycle(expr)]
#[tactic(auto, unfolding(crate::specs::Exprs::base, crate::specs::Exprs::in_parentheses, crate::specs::Exprs::argument, crate::specs::Exprs::path))]
pub(crate) fn base(
    alloc: Global,
    cursor: &mut Cursor<'_>,
    levels: usize,
) -> Result<Boxed<RExpr>, Memory>
    ensures { Gives (λ e. expr_view e) result cursor.new (reader.base (reader.expr levels) cursor.old) }
{
    match cursor.peek() {
        Sign::LeftParenthesis => {
            cursor.skip(1);
            expr_and_mark(alloc, cursor, levels)
        }
        Sign::Number => number(alloc, cursor),
        Sign::True | Sign::False | Sign::NoneWord => word_value(alloc, cursor),
        Sign::Crate => {
            if cursor.peek_behind_five() == Sign::LeftParenthesis {
                return call(alloc, cursor, levels);
            }
            static_object(alloc, cursor)
        }
        _ => named(alloc, cursor, levels),
    }
}
