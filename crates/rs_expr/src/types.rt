//! Readers of types (the Rust Reference, "Types"). A function whose parameter is `levels` reads what holds types
//! of at most so many levels.

ghost use Rattle.std.specs.Prelude.{◌≡◌, map, option_map, IfOk};
ghost use Rattle.rs_expr.specs.Exprs as exprs;
ghost use Rattle.rs_expr.specs.Reading.{Gives, listed, many, part, added, ends_list};
ghost use Rattle.rs_expr.specs.Reading as reading;
ghost use Rattle.rs_expr.specs.Types as reader;
ghost use Rattle.rs_text.specs.Tree as tree;
ghost use Rattle.rs_tree.specs.Views.{ty_view};

use crate::cursor::Cursor;
use crate::lists::with_last;
use crate::numbers::size_of;
use crate::sign::Sign;
use crate::words::integer_of;
use cr_base::{Boxed, Items, Memory};
use rs_tree::{RPath, RTy};
use std::alloc::Global;

/// The types of parameters, and that of a result.
#[derive(Drop)]
pub(crate) struct Signature {
    pub params: Items<RTy>,
    pub result: Option<Boxed<RTy>>,
}

fn boolean(alloc: Global) -> Result<Boxed<RTy>, Memory>
    ensures { IfOk result (λ t. ty_view t ≡ tree.Boolean) }
{
    Boxed::new(alloc, RTy::Boolean)
}

// `*mut T`
#[cycle(ty)]
#[tactic(auto, unfolding(crate::specs::Types::pointer))]
fn pointer(alloc: Global, cursor: &mut Cursor<'_>, levels: usize) -> Result<Boxed<RTy>, Memory>
    ensures { Gives (λ t. ty_view t) result cursor.new (reader.pointer (reader.ty levels) cursor.old) }
{
    cursor.skip(2);
    let target = ty(alloc, cursor, levels)?;
    Boxed::new(alloc, RTy::Pointer(target))
}

// `[T; N]`
#[cycle(ty)]
#[tactic(auto, unfolding(crate::specs::Types::array))]
fn array(alloc: Global, cursor: &mut Cursor<'_>, levels: usize) -> Result<Boxed<RTy>, Memory>
    ensures { Gives (λ t. ty_view t) result cursor.new (reader.array (reader.ty levels) cursor.old) }
{
    cursor.skip(1);
    let element = ty(alloc, cursor, levels)?;
    cursor.skip(1);
    let size = size_of(cursor.text());
    cursor.skip(2);
    Boxed::new(alloc, RTy::Array(element, size))
}

/// Reads the names of `crate::m::x`.
#[tactic(auto, unfolding(crate::specs::Exprs::item_path))]
pub(crate) fn item_path(alloc: Global, cursor: &mut Cursor<'_>) -> Result<RPath, Memory>
    ensures { Gives (λ path. (path.home, path.name)) result cursor.new (exprs.item_path cursor.old) }
{
    cursor.skip(2);
    let home = cursor.name(alloc)?;
    cursor.skip(1);
    let name = cursor.name(alloc)?;
    Ok(RPath { home, name })
}

// `crate::m::x`
#[tactic(auto, unfolding(crate::specs::Types::record_ty, crate::specs::Exprs::item_path))]
fn record_ty(alloc: Global, cursor: &mut Cursor<'_>) -> Result<Boxed<RTy>, Memory>
    ensures { Gives (λ t. ty_view t) result cursor.new (reader.record_ty cursor.old) }
{
    let path = item_path(alloc, cursor)?;
    Boxed::new(alloc, RTy::Record(path))
}

/// Reads `-> T`, which may be missing.
#[cycle(ty)]
#[tactic(auto, unfolding(crate::specs::Types::result))]
pub fn option_result(
    alloc: Global,
    cursor: &mut Cursor<'_>,
    levels: usize,
) -> Result<Option<Boxed<RTy>>, Memory>
    ensures { Gives (λ t. option_map ty_view t) result cursor.new (reader.result (reader.ty levels) cursor.old) }
{
    if cursor.peek() != Sign::Arrow {
        return Ok(None);
    }
    cursor.skip(1);
    let read = ty(alloc, cursor, levels)?;
    Ok(Some(read))
}

// One more type of a list.
#[cycle(ty)]
#[tactic(auto, unfolding(crate::specs::Reading::added, crate::specs::Reading::part))]
fn next_ty(
    alloc: Global,
    cursor: &mut Cursor<'_>,
    levels: usize,
    list: Items<RTy>,
) -> Result<Items<RTy>, Memory>
    ensures { Gives (λ l. map ty_view l) result cursor.new (added (part (reader.ty levels)) (map ty_view list) cursor.old) }
{
    let one = ty(alloc, cursor, levels)?;
    cursor.skip_comma();
    with_last(list, one)
}

// The types of a list up to its parenthesis.
#[cycle(ty)]
#[tactic(auto, using(crate::proofs::Turns::many_out, crate::proofs::Turns::many_stop, crate::proofs::Turns::many_goes))]
fn types(alloc: Global, cursor: &mut Cursor<'_>, levels: usize) -> Result<Items<RTy>, Memory>
    ensures { Gives (λ l. map ty_view l) result cursor.new (listed (reader.ty levels) cursor.old) }
{
    let mut list = Items::new(alloc);
    for _turn in 0..cursor.len() {
        if cursor.peek().ends_list() {
            return Ok(list);
        }
        list = next_ty(alloc, cursor, levels, list)?;
    }
    Ok(list)
}

/// Reads `unsafe extern "C" fn(T, T) -> T`.
#[cycle(ty)]
#[tactic(auto, unfolding(crate::specs::Types::signature))]
pub(crate) fn function_ty(
    alloc: Global,
    cursor: &mut Cursor<'_>,
    levels: usize,
) -> Result<Signature, Memory>
    ensures { Gives reader.signature_view result cursor.new (reader.signature (reader.ty levels) cursor.old) }
{
    cursor.skip(5);
    let params = types(alloc, cursor, levels)?;
    cursor.skip(1);
    let result = option_result(alloc, cursor, levels)?;
    Ok(Signature { params, result })
}

// `Option<unsafe extern "C" fn(T, T) -> T>`
#[cycle(ty)]
#[tactic(auto, unfolding(crate::specs::Types::code), using(rs_tree::proofs::Opened::code_view))]
fn code(alloc: Global, cursor: &mut Cursor<'_>, levels: usize) -> Result<Boxed<RTy>, Memory>
    ensures { Gives (λ t. ty_view t) result cursor.new (reader.code (reader.ty levels) cursor.old) }
{
    cursor.skip(2);
    let Signature { params, result } = function_ty(alloc, cursor, levels)?;
    cursor.skip(1);
    Boxed::new(alloc, RTy::Code(params, result))
}

// Whether a word is `Option`.
fn is_option(word: &[u8]) -> bool
    ensures { result ≡ reader.is_option word.now }
{
    word == b"Option".as_slice()
}

// A type of one word, which isn't `Option`.
#[tactic(auto, unfolding(crate::specs::Types::plain_ty))]
fn plain_ty(alloc: Global, cursor: &mut Cursor<'_>) -> Result<Boxed<RTy>, Memory>
    ensures { Gives (λ t. ty_view t) result cursor.new (reader.plain_ty cursor.old) }
{
    if cursor.text() == b"bool".as_slice() {
        cursor.skip(1);
        return boolean(alloc);
    }
    if cursor.text() == b"core".as_slice() {
        cursor.skip(5);
        return Boxed::new(alloc, RTy::Void);
    }
    let word = integer_of(cursor.text());
    cursor.skip(1);
    Boxed::new(alloc, RTy::Integer(word))
}

#[cycle(ty)]
#[tactic(auto, unfolding(crate::specs::Types::ty_from, crate::specs::Types::word_ty))]
fn ty_from(alloc: Global, cursor: &mut Cursor<'_>, levels: usize) -> Result<Boxed<RTy>, Memory>
    ensures { Gives (λ t. ty_view t) result cursor.new (reader.ty_from (reader.ty levels) cursor.old) }
{
    match cursor.peek() {
        Sign::Star => pointer(alloc, cursor, levels),
        Sign::LeftBracket => array(alloc, cursor, levels),
        Sign::Crate => record_ty(alloc, cursor),
        _ => {
            if is_option(cursor.text()) {
                return code(alloc, cursor, levels);
            }
            plain_ty(alloc, cursor)
        }
    }
}

/// Reads a type of at most so many levels. Refused only for want of memory.
#[cycle(ty)]
#[tactic(auto, using(crate::proofs::Turns::ty_some, crate::proofs::Turns::ty_none))]
pub fn ty(alloc: Global, cursor: &mut Cursor<'_>, levels: usize) -> Result<Boxed<RTy>, Memory>
    ensures { Gives (λ t. ty_view t) result cursor.new (reader.ty levels cursor.old) }
{
    if levels == 0 {
        return boolean(alloc);
    }
    cursor.enter()?;
    let read = ty_from(alloc, cursor, levels - 1)?;
    cursor.leave();
    Ok(read)
}
