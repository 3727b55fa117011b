//! Sizes, alignments and places of fields (the Rust Reference, "Type layout" and "The C representation").

ghost use Rattle.std.specs.Prelude.{◌≡◌, ◌<◌, ◌/◌, true, Some, map, reverse, length, IfSome, IsNone, ◌↔◌, option_map};
ghost use Rattle.std.specs.Option.{option_copied};
ghost use Rattle.cr_base.specs.Layout.{no_front, spot};
ghost use Rattle.rs_mean.specs.Layout.{even, within_most, repeated, laid_among, laid_at, laid_of, record_laid, raised_by, piece_of};
ghost use Rattle.rs_mean.specs.Scalars.{width_of};
ghost use Rattle.rs_mean.specs.Typing.{well_typed};
ghost use Rattle.rs_text.specs.Tree as tree;
ghost use Rattle.rs_text.specs.Valid.{valid_crate};
ghost use Rattle.rs_tree.specs.Views.{crate_view, field_view, item_view, module_view, record_view, ty_view};
ghost use Rattle.rs_layout.specs.Layouts.{record_of, array_laid, plain_laid, record_named, found_view, found_among, by_front, front_behind, fronts, finished, IsFine, IsFineFront, IsAligned, AreAligned, ModulesAreAligned, byte_numbered};
ghost use Rattle.rs_layout.specs.LayoutsNumbered.{record_numbered, field_numbered, field_byte, named_byte, is_type_in};

use crate::lookup::items_in;
use cr_base::{Front, Laid, MOST_BYTES, Name, Piece};
use rs_tree::{Crate, Field, IntegerTy, Item, Module, RPath, RTy, Record};

// A record and the items in front of it.
#[derive(Clone, Copy)]
struct Found<'t> {
    one: &'t Record,
    earlier: &'t [Item],
}

// ---- types

fn even(bytes: u64) -> Laid
    ensures { result ≡ even bytes }
{
    Laid {
        size: bytes,
        align: bytes,
    }
}

fn within_most(one: Laid) -> Option<Laid>
    ensures { result ≡ within_most one }
{
    if one.size <= MOST_BYTES {
        Some(one)
    } else {
        None
    }
}

// So many values side by side, at least one.
fn repeated(count: u64, one: Laid) -> Option<Laid>
    ensures laid { result ≡ repeated count one }
    ensures fine { IsFine one → IfSome result IsFine }
{
    if count == 0 {
        return None;
    }
    match count.checked_mul(one.size) {
        Some(size) => within_most(Laid {
            size,
            align: one.align,
        }),
        None => None,
    }
}

fn integer_bytes(ty: IntegerTy) -> u64
    ensures { result ≡ width_of ty / 8 }
{
    match ty {
        IntegerTy::I8 | IntegerTy::U8 => 1,
        IntegerTy::I16 | IntegerTy::U16 => 2,
        IntegerTy::I32 | IntegerTy::U32 => 4,
        IntegerTy::I64 | IntegerTy::U64 | IntegerTy::Isize | IntegerTy::Usize => 8,
    }
}

// The record that a type is, or of which the innermost elements of an array are.
fn record_of(ty: &RTy) -> Option<&RPath>
    ensures { option_copied result ≡ record_of (ty_view ty.now) }
{
    match ty {
        RTy::Array(element, _) => record_of(element.get()),
        RTy::Record(path) => Some(path),
        _ => None,
    }
}

// A type of which this is the layout, or an array of which the innermost elements have it.
fn array_laid(ty: &RTy, base: Laid) -> Option<Laid>
    ensures laid { result ≡ array_laid (ty_view ty.now) (Some base) }
    ensures fine { IsFine base → IfSome result IsFine }
{
    match ty {
        RTy::Array(element, size) => match array_laid(element.get(), base) {
            Some(one) => repeated(*size, one),
            None => None,
        },
        _ => Some(base),
    }
}

// The layout of a type without a record.
fn plain_laid(ty: &RTy) -> Option<Laid>
    ensures laid { result ≡ plain_laid (ty_view ty.now) }
    ensures fine { IfSome result IsFine }
{
    match ty {
        RTy::Integer(ty) => Some(even(integer_bytes(*ty))),
        RTy::Boolean => Some(even(1)),
        RTy::Pointer(_) | RTy::Code(_, _) => Some(even(8)),
        RTy::Array(element, size) => match plain_laid(element.get()) {
            Some(one) => repeated(*size, one),
            None => None,
        },
        RTy::Void | RTy::Record(_) => None,
    }
}

// ---- records

// The record of this item, if it has this name.
fn record_named<'t>(item: &'t Item, name: &Name) -> Option<&'t Record>
    ensures { option_map record_view (option_copied result) ≡ record_named name.now (item_view item.now) }
{
    match item {
        Item::Record(one) => {
            if one.name.bytes() == name.bytes() {
                Some(one)
            } else {
                None
            }
        }
        _ => None,
    }
}

// The last record of a name among items.
fn find_record<'t>(items: &'t [Item], name: &Name) -> Option<Found<'t>>
    ensures found { option_map found_view result ≡ found_among name.now (reverse (map item_view items.now)) }
    ensures shorter { IfSome result (λ found. length found.earlier.now < length items.now) }
{
    let mut left = items;
    while let Some((last, earlier)) = left.split_last() {
        if let Some(one) = record_named(last, name) {
            return Some(Found { one, earlier });
        }
        left = earlier;
    }
    None
}

// What the fields in front and then one of this layout take, where that isn't too much.
pub(crate) fn front_behind(front: Front, one: Laid) -> Option<Front>
    requires { IsFineFront front × IsFine one }
    ensures front { result ≡ front_behind front one }
    ensures fine { IfSome result IsFineFront }
{
    let next = front.after(Piece::Plain {
        size: one.size,
        align: one.align,
    });
    if next.bits <= 8 * MOST_BYTES {
        Some(next)
    } else {
        None
    }
}

fn raised_by(align: Option<u32>, front: Front) -> Front
    requires { IsAligned align × IsFineFront front }
    ensures raised { result ≡ raised_by align front }
    ensures fine { IsFineFront result }
{
    match align {
        Some(align) => front.raised(u64::from(align)),
        None => front,
    }
}

// The record of which the fields have taken so much.
fn finished(align: Option<u32>, front: Front) -> Option<Laid>
    requires { IsAligned align × IsFineFront front }
    ensures laid { result ≡ finished align front }
    ensures fine { IfSome result IsFine }
{
    within_most(raised_by(align, front).laid())
}

// ---- the records of one module

/// How the record of a name is laid out among items.
#[cycle(layouts)]
pub(crate) fn laid_among(home: &Name, items: &[Item], name: &Name) -> Option<Laid>
    requires { AreAligned (reverse (map item_view items.now)) }
    ensures laid { result ≡ laid_among home.now (reverse (map item_view items.now)) name.now }
    ensures fine { IfSome result IsFine }
{
    match find_record(items, name) {
        Some(found) => record_in_front(home, found.earlier, found.one),
        None => None,
    }
}

/// How a type is laid out by the records of a module among its earlier items.
#[cycle(layouts)]
pub fn laid_in_front(home: &Name, earlier: &[Item], ty: &RTy) -> Option<Laid>
    requires { AreAligned (reverse (map item_view earlier.now)) }
    ensures laid { result ≡ by_front home.now (reverse (map item_view earlier.now)) (ty_view ty.now) }
    ensures fine { IfSome result IsFine }
{
    let Some(path) = record_of(ty) else {
        return plain_laid(ty);
    };
    if path.home.bytes() != home.bytes() {
        return None;
    }
    match laid_among(home, earlier, &path.name) {
        Some(base) => array_laid(ty, base),
        None => None,
    }
}

// What these fields take, where that isn't too much.
#[cycle(layouts)]
fn fronts(home: &Name, earlier: &[Item], is_union: bool, fields: &[Field]) -> Option<Front>
    requires { AreAligned (reverse (map item_view earlier.now)) }
    ensures front { result ≡ fronts (by_front home.now (reverse (map item_view earlier.now))) (no_front is_union) (map field_view fields.now) }
    ensures fine { IfSome result IsFineFront }
{
    let mut front = Front::new(is_union);
    for field in fields {
        let Some(one) = laid_in_front(home, earlier, field.ty.get()) else {
            return None;
        };
        let Some(next) = front_behind(front, one) else {
            return None;
        };
        front = next;
    }
    Some(front)
}

/// How a record is laid out behind the earlier items of its module.
#[cycle(layouts)]
pub fn record_in_front(home: &Name, earlier: &[Item], one: &Record) -> Option<Laid>
    requires earlier { AreAligned (reverse (map item_view earlier.now)) }
    requires one { IsAligned one.now.align }
    ensures laid { result ≡ record_laid (by_front home.now (reverse (map item_view earlier.now))) (record_view one.now) }
    ensures fine { IfSome result IsFine }
{
    match fronts(home, earlier, one.is_union, one.fields.as_slice()) {
        Some(front) => finished(one.align, front),
        None => None,
    }
}

// ---- the records of a crate

/// How the record that a path names is laid out.
pub fn laid_at(modules: &[Module], path: &RPath) -> Option<Laid>
    requires { ModulesAreAligned (map module_view modules.now) }
    ensures laid { result ≡ laid_at (map module_view modules.now) path.now.home path.now.name }
    ensures fine { IfSome result IsFine }
{
    laid_among(&path.home, items_in(modules, &path.home), &path.name)
}

/// How a type is laid out.
pub fn laid_of(modules: &[Module], ty: &RTy) -> Option<Laid>
    requires { ModulesAreAligned (map module_view modules.now) }
    ensures laid { result ≡ laid_of (map module_view modules.now) (ty_view ty.now) }
    ensures fine { IfSome result IsFine }
{
    let Some(path) = record_of(ty) else {
        return plain_laid(ty);
    };
    match laid_at(modules, path) {
        Some(base) => array_laid(ty, base),
        None => None,
    }
}

// ---- places of fields

// Where a plain field of this layout begins behind those in front, in bytes.
pub(crate) fn byte_behind(front: Front, one: Laid) -> u64
    requires { IsFineFront front × IsFine one }
    ensures { result ≡ (spot front (piece_of one)).byte }
{
    let spot = front.spot(Piece::Plain {
        size: one.size,
        align: one.align,
    });
    spot.byte
}

// ---- a checked crate

/// The size and the alignment of a type in a crate that is valid and well typed: None exactly for
/// `core::ffi::c_void`.
pub fn repr_c(whole: &Crate, ty: &RTy) -> Option<Laid>
    requires valid { valid_crate (crate_view whole.now) ≡ true }
    requires typed { well_typed (crate_view whole.now) ≡ true }
    requires ty { is_type_in (crate_view whole.now).modules (ty_view ty.now) ≡ true }
    ensures laid { result ≡ laid_of (crate_view whole.now).modules (ty_view ty.now) }
    ensures none { IsNone result ↔ (ty_view ty.now ≡ tree.Void) }
{
    laid_of(whole.modules.as_slice(), ty)
}

// The record that is the item with a number of the module with a number, from 0.
fn record_numbered(modules: &[Module], unit: u32, item: u32) -> Option<&Record>
    ensures { option_map record_view (option_copied result) ≡ record_numbered (map module_view modules.now) unit item }
{
    let Some(home) = modules.get(unit as usize) else {
        return None;
    };
    match home.items.get(item as usize) {
        Some(Item::Record(one)) => Some(one),
        _ => None,
    }
}

// Where the field with a number begins among fields that aren't too large.
fn byte_numbered(modules: &[Module], is_union: bool, fields: &[Field], number: u32) -> Option<u64>
    requires { ModulesAreAligned (map module_view modules.now) }
    ensures { result ≡ byte_numbered (laid_of (map module_view modules.now)) (no_front is_union) (map field_view fields.now) number }
{
    let mut front = Front::new(is_union);
    let mut left = number;
    for field in fields {
        let Some(one) = laid_of(modules, field.ty.get()) else {
            return None;
        };
        if left == 0 {
            return Some(byte_behind(front, one));
        }
        let Some(next) = front_behind(front, one) else {
            return None;
        };
        front = next;
        left -= 1;
    }
    None
}

/// Where the field with a number begins in the record that is the item with a number of the module with
/// a number, each from 0, in bytes. The crate is valid and well typed; None exactly where there is no
/// such field.
pub fn field_at(whole: &Crate, unit: u32, item: u32, field: u32) -> Option<u64>
    requires valid { valid_crate (crate_view whole.now) ≡ true }
    requires typed { well_typed (crate_view whole.now) ≡ true }
    ensures byte { result ≡ field_byte (crate_view whole.now).modules unit item field }
    ensures named { result ≡ named_byte (crate_view whole.now).modules unit item field }
    ensures none { IsNone result ↔ IsNone (field_numbered (crate_view whole.now).modules unit item field) }
{
    let modules = whole.modules.as_slice();
    match record_numbered(modules, unit, item) {
        Some(one) => byte_numbered(modules, one.is_union, one.fields.as_slice(), field),
        None => None,
    }
}
