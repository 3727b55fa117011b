//! Readers of records and static objects (the Rust Reference, "Structs", "Unions" and "Static items").

ghost use Rattle.std.specs.Prelude.{◌≡◌, map, not, option_map, IfOk};
ghost use Rattle.rs_expr.specs.Reading.{Gives, many_ahead, added, part, listed};
ghost use Rattle.rs_item.specs.Items as reader;
ghost use Rattle.rs_text.specs.Tree as tree;
ghost use Rattle.rs_tree.specs.Views.{field_view, local_view, item_view};

use crate::lists::with_last;
use crate::parts::{ends_braces, ends_brackets, typed};
use cr_base::{Boxed, Int, Items, Memory, Name};
use rs_expr::{Cursor, Sign, literal, size_of};
use rs_tree::{Attribute, Field, Item, Local, Record, Static};
use std::alloc::Global;

// A number of 32 bits, or 0 where it is over them.
fn narrow(size: u64) -> u32
    ensures { result ≡ reader.narrow size }
{
    if size < 1 << 32 { size as u32 } else { 0 }
}

// `#[repr(C)]`, or `#[repr(C, align(N))]`.
#[tactic(auto, unfolding(crate::specs::Items::repr))]
fn repr(cursor: &mut Cursor<'_>) -> Option<u32>
    ensures { reader.repr cursor.old ≡ (result, cursor.new) }
{
    if cursor.peek_behind_five() != Sign::Comma {
        cursor.skip(7);
        return None;
    }
    cursor.skip(8);
    let align = narrow(size_of(cursor.text()));
    cursor.skip(4);
    Some(align)
}

// `pub f: T,`, one more field of a record.
#[tactic(auto, unfolding(rs_expr::specs::Reading::added, crate::specs::Items::field))]
fn next_fields(
    alloc: Global,
    cursor: &mut Cursor<'_>,
    list: Items<Field>,
) -> Result<Items<Field>, Memory>
    ensures { Gives (λ l. map field_view l) result cursor.new (added reader.field (map field_view list) cursor.old) }
{
    cursor.skip(1);
    let Local { name, ty } = typed(alloc, cursor)?;
    cursor.skip(1);
    with_last(list, Field { name, ty })
}

// All fields of a record.
#[tactic(auto, using(rs_expr::proofs::Turns::many_out, rs_expr::proofs::Turns::many_stop, rs_expr::proofs::Turns::many_goes))]
fn fields(alloc: Global, cursor: &mut Cursor<'_>) -> Result<Items<Field>, Memory>
    ensures { Gives (λ l. map field_view l) result cursor.new (reader.fields cursor.old) }
{
    let mut list = Items::new(alloc);
    for _turn in 0..cursor.len() {
        if ends_braces(cursor.peek()) {
            return Ok(list);
        }
        list = next_fields(alloc, cursor, list)?;
    }
    Ok(list)
}

// Whether the word behind `pub` is another than `struct`.
fn names_union(sign: Sign) -> bool
    ensures { result ≡ not (reader.is_struct sign) }
{
    match sign {
        Sign::Struct => false,
        _ => true,
    }
}

fn record_made(
    alloc: Global,
    align: Option<u32>,
    is_union: bool,
    name: Name,
    fields: Items<Field>,
) -> Result<Boxed<Item>, Memory>
    ensures { IfOk result (λ i. item_view i ≡ tree.RecordItem (reader.record_tree align is_union name (map field_view fields))) }
{
    let record = Record {
        align,
        is_union,
        name,
        fields,
    };
    Boxed::new(alloc, Item::Record(record))
}

/// Reads a record. Refused only for want of memory.
#[tactic(auto, unfolding(crate::specs::Items::record_of, crate::specs::Items::record_item, crate::specs::Items::record_from))]
pub(crate) fn record_of(alloc: Global, cursor: &mut Cursor<'_>) -> Result<Boxed<Item>, Memory>
    ensures { Gives (λ i. item_view i) result cursor.new (reader.record_of cursor.old) }
{
    cursor.skip(9);
    let align = repr(cursor);
    let is_union = names_union(cursor.peek_behind());
    cursor.skip(2);
    let name = cursor.name(alloc)?;
    cursor.skip(1);
    let fields = fields(alloc, cursor)?;
    cursor.skip(1);
    record_made(alloc, align, is_union, name, fields)
}

// The number of one more literal of a list.
#[tactic(auto, unfolding(rs_expr::specs::Reading::added, rs_expr::specs::Reading::part, crate::specs::Items::value))]
fn next_read_values(cursor: &mut Cursor<'_>, list: Items<Int>) -> Result<Items<Int>, Memory>
    ensures { Gives (λ l. l) result cursor.new (added (part reader.value) list cursor.old) }
{
    let (one, _ty) = literal(cursor);
    cursor.skip_comma();
    with_last(list, one)
}

// All literals of a list.
#[tactic(auto, using(rs_expr::proofs::Turns::many_out, rs_expr::proofs::Turns::many_stop, rs_expr::proofs::Turns::many_goes))]
fn read_values(alloc: Global, cursor: &mut Cursor<'_>) -> Result<Items<Int>, Memory>
    ensures { Gives (λ l. l) result cursor.new (reader.read_values cursor.old) }
{
    let mut list = Items::new(alloc);
    for _turn in 0..cursor.len() {
        if ends_brackets(cursor.peek()) {
            return Ok(list);
        }
        list = next_read_values(cursor, list)?;
    }
    Ok(list)
}

// What a static object begins as.
#[tactic(auto, unfolding(crate::specs::Items::values))]
fn values(alloc: Global, cursor: &mut Cursor<'_>) -> Result<Option<Items<Int>>, Memory>
    ensures { Gives (λ v. v) result cursor.new (reader.values cursor.old) }
{
    if cursor.peek() != Sign::LeftBracket {
        cursor.skip(10);
        return Ok(None);
    }
    cursor.skip(1);
    let list = read_values(alloc, cursor)?;
    cursor.skip(1);
    Ok(Some(list))
}

fn static_made(
    alloc: Global,
    attribute: Boxed<Attribute>,
    local: Local,
    values: Option<Items<Int>>,
) -> Result<Boxed<Item>, Memory>
    ensures { IfOk result (λ i. item_view i ≡ tree.StaticItem (reader.static_tree attribute (local_view local).name (local_view local).ty values)) }
{
    let Local { name, ty } = local;
    let object = Static {
        attribute: attribute.into_inner(),
        name,
        ty,
        values,
    };
    Boxed::new(alloc, Item::Static(object))
}

/// Reads `pub static mut x: T = ..;`, behind its attribute. Refused only for want of memory.
#[tactic(auto, unfolding(crate::specs::Items::static_of, crate::specs::Items::static_from, crate::specs::Items::static_end))]
pub(crate) fn static_of(
    alloc: Global,
    cursor: &mut Cursor<'_>,
    attribute: Boxed<Attribute>,
) -> Result<Boxed<Item>, Memory>
    ensures { Gives (λ i. item_view i) result cursor.new (reader.static_of attribute cursor.old) }
{
    cursor.skip(3);
    let local = typed(alloc, cursor)?;
    cursor.skip(1);
    let values = values(alloc, cursor)?;
    cursor.skip(1);
    static_made(alloc, attribute, local, values)
}
