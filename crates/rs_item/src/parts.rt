//! Readers of what items share: names with types, attributes, and where lists end.

ghost use Rattle.std.specs.Prelude.{◌≡◌, map, option_map};
ghost use Rattle.rs_expr.specs.Reading.{Gives, many_ahead, added, part, listed, ends_list};
ghost use Rattle.rs_item.specs.Items as reader;
ghost use Rattle.rs_tree.specs.Views.{ty_view, local_view};

use cr_base::{Boxed, Memory, Name};
use rs_expr::{Cursor, Sign, option_result, ty};
use rs_tree::{Attribute, Local, RTy};
use std::alloc::Global;

pub(crate) fn ends_braces(sign: Sign) -> bool
    ensures { result ≡ reader.ends_braces sign }
{
    match sign {
        Sign::End | Sign::RightBrace => true,
        _ => false,
    }
}

pub(crate) fn ends_brackets(sign: Sign) -> bool
    ensures { result ≡ reader.ends_brackets sign }
{
    match sign {
        Sign::End | Sign::RightBracket => true,
        _ => false,
    }
}

pub(crate) fn ends_params(sign: Sign) -> bool
    ensures { result ≡ reader.ends_params sign }
{
    match sign {
        Sign::End | Sign::RightParenthesis | Sign::OtherMark => true,
        _ => false,
    }
}

pub(crate) fn ends_locals(sign: Sign) -> bool
    ensures { result ≡ reader.ends_locals sign }
{
    match sign {
        Sign::Let => false,
        _ => true,
    }
}

pub(crate) fn ends_module(sign: Sign) -> bool
    ensures { result ≡ reader.ends_module sign }
{
    match sign {
        Sign::End => true,
        _ => false,
    }
}

pub(crate) fn ends_listed(sign: Sign) -> bool
    ensures { result ≡ ends_list sign }
{
    match sign {
        Sign::End | Sign::RightParenthesis => true,
        _ => false,
    }
}

/// Reads a type. Refused only for want of memory.
pub(crate) fn read_ty(alloc: Global, cursor: &mut Cursor<'_>) -> Result<Boxed<RTy>, Memory>
    ensures { Gives (λ t. ty_view t) result cursor.new (reader.read_ty cursor.old) }
{
    ty(alloc, cursor, cursor.len())
}

/// Reads the type of a result, which may be missing. Refused only for want of memory.
pub(crate) fn read_result(
    alloc: Global,
    cursor: &mut Cursor<'_>,
) -> Result<Option<Boxed<RTy>>, Memory>
    ensures { Gives (λ t. option_map ty_view t) result cursor.new (reader.read_result cursor.old) }
{
    option_result(alloc, cursor, cursor.len())
}

/// Reads `x: T`. Refused only for want of memory.
#[tactic(auto, unfolding(crate::specs::Items::typed))]
pub(crate) fn typed(alloc: Global, cursor: &mut Cursor<'_>) -> Result<Local, Memory>
    ensures { Gives local_view result cursor.new (reader.typed cursor.old) }
{
    let name = cursor.name(alloc)?;
    cursor.skip(1);
    let ty = read_ty(alloc, cursor)?;
    Ok(Local { name, ty })
}

// The text of `#[w = "s"]`.
#[tactic(auto, unfolding(crate::specs::Items::text_attribute))]
fn text_attribute(alloc: Global, cursor: &mut Cursor<'_>) -> Result<Name, Memory>
    ensures { Gives (λ n. n) result cursor.new (reader.text_attribute cursor.old) }
{
    cursor.skip(4);
    let symbol = cursor.name(alloc)?;
    cursor.skip(1);
    Ok(symbol)
}

// Whether the attribute ahead is `#[no_mangle]`.
fn is_no_mangle(cursor: &Cursor<'_>) -> bool
    ensures { result ≡ reader.is_no_mangle cursor.now }
{
    cursor.text_behind_two() == b"no_mangle".as_slice()
}

/// Whether the attribute ahead is a `#[derive(..)]`.
pub(crate) fn is_derive(cursor: &Cursor<'_>) -> bool
    ensures { result ≡ reader.is_derive cursor.now }
{
    cursor.text_behind_two() == b"derive".as_slice()
}

/// Reads the attribute that gives a symbol, which may be missing. Refused only for want of memory.
#[tactic(auto, unfolding(crate::specs::Items::attribute, crate::specs::Items::text_attribute))]
pub(crate) fn attribute(alloc: Global, cursor: &mut Cursor<'_>) -> Result<Boxed<Attribute>, Memory>
    ensures { Gives (λ a. a) result cursor.new (reader.attribute cursor.old) }
{
    if cursor.peek() != Sign::Hash {
        return Boxed::new(alloc, Attribute::Mangled);
    }
    if is_no_mangle(cursor) {
        cursor.skip(4);
        return Boxed::new(alloc, Attribute::NoMangle);
    }
    let symbol = text_attribute(alloc, cursor)?;
    Boxed::new(alloc, Attribute::ExportName(symbol))
}

/// Reads `#[link_name = "s"]`, which may be missing. Refused only for want of memory.
#[tactic(auto, unfolding(crate::specs::Items::link_name, crate::specs::Items::text_attribute))]
pub(crate) fn link_name(alloc: Global, cursor: &mut Cursor<'_>) -> Result<Option<Name>, Memory>
    ensures { Gives (λ n. n) result cursor.new (reader.link_name cursor.old) }
{
    if cursor.peek() != Sign::Hash {
        return Ok(None);
    }
    let symbol = text_attribute(alloc, cursor)?;
    Ok(Some(symbol))
}
