//! Readers of items and modules.

ghost use Rattle.std.specs.Prelude.{◌≡◌, map, option_map, IfOk};
ghost use Rattle.rs_expr.specs.Reading.{Gives, many_ahead, added, part, listed};
ghost use Rattle.rs_item.specs.Items as reader;
ghost use Rattle.rs_lex.specs.Views.{tokens_view};
ghost use Rattle.rs_tree.specs.Views.{item_view};

use crate::functions::{function_of, outers};
use crate::lists::with_boxed;
use crate::parts::{attribute, ends_module, is_derive};
use crate::records::{record_of, static_of};
use cr_base::{Boxed, Items, Memory};
use rs_expr::{Cursor, Sign};
use rs_lex::Token;
use rs_tree::Item;
use std::alloc::Global;

// `extern "C" { .. }`
#[tactic(auto, unfolding(crate::specs::Items::extern_of, crate::specs::Items::extern_item))]
fn extern_of(alloc: Global, cursor: &mut Cursor<'_>) -> Result<Boxed<Item>, Memory>
    ensures { Gives (λ i. item_view i) result cursor.new (reader.extern_of cursor.old) }
{
    cursor.skip(3);
    let list = outers(alloc, cursor)?;
    cursor.skip(1);
    Boxed::new(alloc, Item::Extern(list))
}

// A static object or a function.
#[tactic(auto, unfolding(crate::specs::Items::attributed, crate::specs::Items::symbol_item))]
fn attributed(alloc: Global, cursor: &mut Cursor<'_>) -> Result<Boxed<Item>, Memory>
    ensures { Gives (λ i. item_view i) result cursor.new (reader.attributed cursor.old) }
{
    let attribute = attribute(alloc, cursor)?;
    if cursor.peek_behind() == Sign::Static {
        return static_of(alloc, cursor, attribute);
    }
    function_of(alloc, cursor, attribute)
}

// An item.
#[tactic(auto, unfolding(crate::specs::Items::item, crate::specs::Items::hashed))]
fn item(alloc: Global, cursor: &mut Cursor<'_>) -> Result<Boxed<Item>, Memory>
    ensures { Gives (λ i. item_view i) result cursor.new (reader.item cursor.old) }
{
    match cursor.peek() {
        Sign::Extern => extern_of(alloc, cursor),
        Sign::Hash => {
            if is_derive(cursor) {
                return record_of(alloc, cursor);
            }
            attributed(alloc, cursor)
        }
        _ => attributed(alloc, cursor),
    }
}

// One more item of a module.
#[tactic(auto, unfolding(rs_expr::specs::Reading::added))]
fn next_read_items(
    alloc: Global,
    cursor: &mut Cursor<'_>,
    list: Items<Item>,
) -> Result<Items<Item>, Memory>
    ensures { Gives (λ l. map item_view l) result cursor.new (added reader.item (map item_view list) cursor.old) }
{
    let one = item(alloc, cursor)?;
    with_boxed(list, one)
}

// All items of a module.
#[tactic(auto, using(rs_expr::proofs::Turns::many_out, rs_expr::proofs::Turns::many_stop, rs_expr::proofs::Turns::many_goes))]
fn read_items(alloc: Global, cursor: &mut Cursor<'_>) -> Result<Items<Item>, Memory>
    ensures { Gives (λ l. map item_view l) result cursor.new (reader.read_items cursor.old) }
{
    let mut list = Items::new(alloc);
    for _turn in 0..cursor.len() {
        if ends_module(cursor.peek()) {
            return Ok(list);
        }
        list = next_read_items(alloc, cursor, list)?;
    }
    Ok(list)
}

/// Reads the items of a module from the tokens of its file. Refused only for want of memory.
pub fn items_of(alloc: Global, tokens: &[Token]) -> Result<Items<Item>, Memory>
    ensures { IfOk result (λ l. map item_view l ≡ reader.items (tokens_view tokens.now)) }
{
    let mut cursor = Cursor::new(tokens);
    read_items(alloc, &mut cursor)
}
