//! The lines of items (the Rust Reference, "Items").
#![tactic(auto, using(crate::proofs::Growing::growing_lines))]

ghost use Rattle.std.specs.Prelude.{◌≡◌, ◌++◌, [], ◌∷◌, ◌+◌, map, option_map, codes};
ghost use Rattle.std.specs.List.{flat_map};
ghost use Rattle.rs_text.specs.declared.integer.IntegerTy.TheVariants as integer;
ghost use Rattle.rs_text.specs.Lines as text;
ghost use Rattle.rs_text.specs.Printing.{Appends};
ghost use Rattle.rs_text.specs.Tree as tree;
ghost use Rattle.rs_tree.specs.Views.{ty_view, field_view, record_view, static_view, outer_view, local_view, function_view, item_view};

use crate::draft::Draft;
use crate::expr_text::put_literal;
use crate::item::{Field, Function, Item, Local, Outer, Record, Static};
use crate::page::Page;
use crate::stmt_lines::put_stmts;
use crate::ty::RTy;
use crate::type_text::{put_result, put_ty};
use crate::words::{function_of, record_word, static_zeroed, zeroed};
use cr_base::{Boxed, Int, Items, Name};
use rs_text::{Attribute, IntegerTy};

// Writes a name and its type.
fn put_typed(draft: &mut Draft, name: &Name, ty: &Boxed<RTy>)
    ensures { Appends draft.old draft.new (text.typed_text name.now (ty_view ty.now)) }
{
    draft.name(name);
    draft.text(": ");
    put_ty(draft, ty.get());
}

// Prints the line of the attribute that gives a symbol, if there is one.
fn attribute_lines(page: &mut Page, attribute: &Attribute)
    ensures { Appends page.old page.new (text.attribute_lines attribute.now) }
{
    match attribute {
        Attribute::Mangled => {}
        Attribute::NoMangle => page.fixed(0, "#[no_mangle]"),
        Attribute::ExportName(symbol) => page.around(0, "#[export_name = \"", symbol, "\"]"),
    }
}

// ---- records

fn repr_line(page: &mut Page, align: Option<u32>)
    ensures { Appends page.old page.new (text.repr_line align ∷ []) }
{
    let Some(align) = align else {
        return page.fixed(0, "#[repr(C)]");
    };
    let mut draft = page.draft();
    draft.text("#[repr(C, align(");
    draft.number(Int::from(align));
    draft.text("))]");
    page.line(0, draft);
}

fn record_head(page: &mut Page, record_item: &Record)
    ensures { Appends page.old page.new (text.record_head (record_view record_item.now) ∷ []) }
{
    let mut draft = page.draft();
    draft.text("pub ");
    draft.text(record_word(record_item.is_union));
    draft.text(" ");
    draft.name(&record_item.name);
    draft.text(" {");
    page.line(0, draft);
}

fn field_line(page: &mut Page, field: &Field)
    ensures { Appends page.old page.new (text.field_line (field_view field.now) ∷ []) }
{
    let mut draft = page.draft();
    draft.text("pub ");
    put_typed(&mut draft, &field.name, &field.ty);
    draft.text(",");
    page.line(1, draft);
}

fn field_lines(page: &mut Page, fields: &Items<Field>)
    ensures { Appends page.old page.new (map text.field_line (map field_view fields.now)) }
{
    for field in fields.as_slice() {
        field_line(page, field);
    }
}

fn record_lines(page: &mut Page, record_item: &Record)
    ensures { Appends page.old page.new (text.record_lines (record_view record_item.now)) }
{
    page.fixed(0, "#[derive(Copy, Clone)]");
    repr_line(page, record_item.align);
    record_head(page, record_item);
    field_lines(page, &record_item.fields);
    page.fixed(0, "}");
}

// ---- static objects

// Writes literals of `i8` with commas between them.
fn put_literals(draft: &mut Draft, values: &[Int])
    ensures { Appends draft.old draft.new (text.listed (map (λ value. text.literal_text value integer.I8) values.now)) }
{
    let Some((first, others)) = values.split_first() else {
        return;
    };
    put_literal(draft, *first, IntegerTy::I8);
    for value in others {
        draft.text(", ");
        put_literal(draft, *value, IntegerTy::I8);
    }
}

// Writes what a static object begins as.
fn put_values(draft: &mut Draft, values: &Option<Items<Int>>)
    ensures { Appends draft.old draft.new (text.values_text values.now) }
{
    match values {
        None => draft.text(static_zeroed()),
        Some(values) => {
            draft.text("[");
            put_literals(draft, values.as_slice());
            draft.text("]");
        }
    }
}

fn static_line(page: &mut Page, object: &Static)
    ensures { Appends page.old page.new (text.static_line (static_view object.now) ∷ []) }
{
    let mut draft = page.draft();
    draft.text("pub static mut ");
    put_typed(&mut draft, &object.name, &object.ty);
    draft.text(" = ");
    put_values(&mut draft, &object.values);
    draft.text(";");
    page.line(0, draft);
}

fn static_lines(page: &mut Page, object: &Static)
    ensures { Appends page.old page.new (text.static_lines (static_view object.now)) }
{
    attribute_lines(page, &object.attribute);
    static_line(page, object);
}

// ---- external functions

// Writes a parameter of an external function, by its number from 0.
fn put_outer_param(draft: &mut Draft, number: usize, ty: &RTy)
    ensures { Appends draft.old draft.new (text.outer_param number (ty_view ty.now)) }
{
    draft.text("a");
    draft.number(number as Int);
    draft.text(": ");
    put_ty(draft, ty);
}

// Writes the parameters of an external function with commas between them.
fn put_outer_params(draft: &mut Draft, params: &[RTy])
    ensures { Appends draft.old draft.new (text.listed (text.outer_params 0 (map ty_view params.now))) }
{
    let Some((first, others)) = params.split_first() else {
        return;
    };
    put_outer_param(draft, 0, first);
    for index in 0..others.len() {
        draft.text(", ");
        put_outer_param(draft, index + 1, &others[index]);
    }
}

fn put_variadic(draft: &mut Draft, variadic: bool)
    ensures { Appends draft.old draft.new (text.variadic_text variadic) }
{
    if variadic {
        draft.text(", ...");
    }
}

fn link_name_lines(page: &mut Page, symbol: &Option<Name>)
    ensures { Appends page.old page.new (text.link_name_lines symbol.now) }
{
    if let Some(symbol) = symbol {
        page.around(1, "#[link_name = \"", symbol, "\"]");
    }
}

fn outer_line(page: &mut Page, outer: &Outer)
    ensures { Appends page.old page.new (text.outer_line (outer_view outer.now) ∷ []) }
{
    let mut draft = page.draft();
    draft.text("pub fn ");
    draft.name(&outer.name);
    draft.text("(");
    put_outer_params(&mut draft, outer.params.as_slice());
    put_variadic(&mut draft, outer.variadic);
    draft.text(")");
    put_result(&mut draft, &outer.result);
    draft.text(";");
    page.line(1, draft);
}

fn outer_lines(page: &mut Page, outer: &Outer)
    ensures { Appends page.old page.new (text.outer_lines (outer_view outer.now)) }
{
    link_name_lines(page, &outer.link_name);
    outer_line(page, outer);
}

fn all_outer_lines(page: &mut Page, outers: &[Outer])
    ensures { Appends page.old page.new (flat_map text.outer_lines (map outer_view outers.now)) }
{
    for outer in outers {
        outer_lines(page, outer);
    }
}

fn extern_lines(page: &mut Page, outers: &[Outer])
    ensures { Appends page.old page.new (text.item_lines (tree.ExternItem (map outer_view outers.now))) }
{
    page.fixed(0, "extern \"C\" {");
    all_outer_lines(page, outers);
    page.fixed(0, "}");
}

// ---- functions with a body

fn put_param(draft: &mut Draft, param: &Local)
    ensures { Appends draft.old draft.new (text.param_text (local_view param.now)) }
{
    draft.text("mut ");
    put_typed(draft, &param.name, &param.ty);
}

// Writes parameters with commas between them.
fn put_params(draft: &mut Draft, params: &[Local])
    ensures { Appends draft.old draft.new (text.listed (map text.param_text (map local_view params.now))) }
{
    let Some((first, others)) = params.split_first() else {
        return;
    };
    put_param(draft, first);
    for param in others {
        draft.text(", ");
        put_param(draft, param);
    }
}

fn function_head(page: &mut Page, function: &Function)
    ensures { Appends page.old page.new (text.function_head (function_view function.now) ∷ []) }
{
    let mut draft = page.draft();
    draft.text(function_of());
    draft.name(&function.name);
    draft.text("(");
    put_params(&mut draft, function.params.as_slice());
    draft.text(")");
    put_result(&mut draft, &function.result);
    draft.text(" {");
    page.line(0, draft);
}

fn local_line(page: &mut Page, local: &Local)
    ensures { Appends page.old page.new (text.local_line (local_view local.now) ∷ []) }
{
    let mut draft = page.draft();
    draft.text("let mut ");
    put_typed(&mut draft, &local.name, &local.ty);
    draft.text(zeroed());
    page.line(1, draft);
}

fn local_lines(page: &mut Page, locals: &[Local])
    ensures { Appends page.old page.new (map text.local_line (map local_view locals.now)) }
{
    for local in locals {
        local_line(page, local);
    }
}

fn function_lines(page: &mut Page, function: &Function)
    ensures { Appends page.old page.new (text.function_lines (function_view function.now)) }
{
    attribute_lines(page, &function.attribute);
    function_head(page, function);
    local_lines(page, function.locals.as_slice());
    put_stmts(page, 1, &function.body);
    page.fixed(0, "}");
}

fn item_lines(page: &mut Page, item: &Item)
    ensures { Appends page.old page.new (text.item_lines (item_view item.now)) }
{
    match item {
        Item::Record(record_item) => record_lines(page, record_item),
        Item::Static(object) => static_lines(page, object),
        Item::Extern(outers) => extern_lines(page, outers.as_slice()),
        Item::Function(function) => function_lines(page, function),
    }
}

/// Prints items, one behind another.
pub(crate) fn put_items(page: &mut Page, items: &[Item])
    ensures { Appends page.old page.new (flat_map text.item_lines (map item_view items.now)) }
{
    for item in items {
        item_lines(page, item);
    }
}
