//! Valid items.

ghost use Rattle.std.specs.Prelude.{◌≡◌, map};
ghost use Rattle.std.specs.List.{list_all};
ghost use Rattle.rs_text.specs.Valid as valid;
ghost use Rattle.rs_valid.specs.Lists as lists;
ghost use Rattle.rs_tree.specs.Views.{ty_view, field_view, record_view, static_view, outer_view, local_view, function_view, item_view};

use crate::exprs::is_value;
use crate::stmts::are_valid_stmts;
use crate::types::{is_valid_result, is_valid_ty};
use crate::words::{is_identifier, is_valid_symbol, is_word};
use cr_base::{Int, Items};
use rs_tree::{Attribute, Field, Function, IntegerTy, Item, Local, Outer, RTy, Record, Static};

fn is_valid_attribute(attribute: &Attribute) -> bool
    ensures { result ≡ valid.valid_attribute attribute.now }
{
    match attribute {
        Attribute::Mangled | Attribute::NoMangle => true,
        Attribute::ExportName(symbol) => is_word(symbol.bytes()),
    }
}

// ---- records

fn is_valid_align(align: Option<u32>) -> bool
    ensures { result ≡ valid.valid_align align }
{
    matches!(align, None | Some(1 | 2 | 4 | 8 | 16))
}

fn is_valid_field(field: &Field) -> bool
    ensures { result ≡ valid.valid_field (field_view field.now) }
{
    is_identifier(&field.name) && is_valid_ty(field.ty.get())
}

fn are_valid_fields(fields: &Items<Field>) -> bool
    ensures { result ≡ list_all valid.valid_field (map field_view fields.now) }
{
    for field in fields.as_slice() {
        if !is_valid_field(field) {
            return false;
        }
    }
    true
}

fn is_valid_record(of: &Record) -> bool
    ensures { result ≡ valid.valid_record (record_view of.now) }
{
    is_valid_align(of.align) && is_identifier(&of.name) && are_valid_fields(&of.fields)
}

// ---- static objects

fn are_values(values: &Items<Int>) -> bool
    ensures { result ≡ list_all valid.is_value values.now }
{
    values.as_slice().iter().all(|value| is_value(*value))
}

// The length of a list of `i8`.
fn bytes_in(ty: &RTy) -> Option<u64>
    ensures { result ≡ lists.bytes_in (ty_view ty.now) }
{
    match ty {
        RTy::Array(element, size) if is_i8(element.get()) => Some(*size),
        _ => None,
    }
}

fn is_i8(ty: &RTy) -> bool
    ensures { result ≡ lists.is_i8 (ty_view ty.now) }
{
    match ty {
        RTy::Integer(IntegerTy::I8) => true,
        _ => false,
    }
}

fn are_valid_values(values: &Option<Items<Int>>, ty: &RTy) -> bool
    ensures { result ≡ valid.valid_values values.now (ty_view ty.now) }
{
    let Some(values) = values else {
        return true;
    };
    let Some(size) = bytes_in(ty) else {
        return false;
    };
    are_values(values) && values.len() as u64 == size
}

fn is_valid_static(object: &Static) -> bool
    ensures { result ≡ valid.valid_static (static_view object.now) }
{
    is_valid_attribute(&object.attribute)
        && is_identifier(&object.name)
        && is_valid_ty(object.ty.get())
        && are_valid_values(&object.values, object.ty.get())
}

// ---- functions

fn are_valid_params(params: &Items<RTy>) -> bool
    ensures { result ≡ list_all valid.valid_ty (map ty_view params.now) }
{
    for ty in params.as_slice() {
        if !is_valid_ty(ty) {
            return false;
        }
    }
    true
}

fn is_valid_variadic(variadic: bool, params: &Items<RTy>) -> bool
    ensures { result ≡ valid.valid_variadic variadic (map ty_view params.now) }
{
    !variadic || 0 < params.len()
}

fn is_valid_outer(outer: &Outer) -> bool
    ensures { result ≡ valid.valid_outer (outer_view outer.now) }
{
    is_valid_symbol(&outer.link_name)
        && is_identifier(&outer.name)
        && are_valid_params(&outer.params)
        && is_valid_variadic(outer.variadic, &outer.params)
        && is_valid_result(&outer.result)
}

fn are_valid_outers(outers: &Items<Outer>) -> bool
    ensures { result ≡ list_all valid.valid_outer (map outer_view outers.now) }
{
    for outer in outers.as_slice() {
        if !is_valid_outer(outer) {
            return false;
        }
    }
    true
}

fn is_valid_local(local: &Local) -> bool
    ensures { result ≡ valid.valid_local (local_view local.now) }
{
    is_identifier(&local.name) && is_valid_ty(local.ty.get())
}

fn are_valid_locals(locals: &Items<Local>) -> bool
    ensures { result ≡ list_all valid.valid_local (map local_view locals.now) }
{
    for local in locals.as_slice() {
        if !is_valid_local(local) {
            return false;
        }
    }
    true
}

fn is_valid_function(function: &Function) -> bool
    ensures { result ≡ valid.valid_function (function_view function.now) }
{
    is_valid_attribute(&function.attribute)
        && is_identifier(&function.name)
        && are_valid_locals(&function.params)
        && is_valid_result(&function.result)
        && are_valid_locals(&function.locals)
        && are_valid_stmts(&function.body)
}

pub(crate) fn is_valid_item(item: &Item) -> bool
    ensures { result ≡ valid.valid_item (item_view item.now) }
{
    match item {
        Item::Record(of) => is_valid_record(of),
        Item::Static(object) => is_valid_static(object),
        Item::Extern(outers) => 0 < outers.len() && are_valid_outers(outers),
        Item::Function(function) => is_valid_function(function),
    }
}
