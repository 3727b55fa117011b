//! The text of types (the Rust Reference, "Type system").
#![tactic(auto, using(crate::proofs::Growing::growing))]

ghost use Rattle.std.specs.Prelude.{map, option_map};
ghost use Rattle.rs_text.specs.Lines as text;
ghost use Rattle.rs_text.specs.Printing.{Appends};
ghost use Rattle.rs_text.specs.Tree as tree;
ghost use Rattle.rs_text.specs.Tree.{tys, option_ty};
ghost use Rattle.rs_tree.specs.Views.{ty_view};

use crate::draft::Draft;
use crate::ty::{RPath, RTy};
use crate::words::integer_word;
use cr_base::{Boxed, Int, Items};

pub(crate) fn put_path(draft: &mut Draft, path: &RPath)
    ensures { Appends draft.old draft.new (text.item_path path.now.home path.now.name) }
{
    draft.text("crate::");
    draft.name(&path.home);
    draft.text("::");
    draft.name(&path.name);
}

#[cycle(type_text)]
pub(crate) fn put_ty(draft: &mut Draft, ty: &RTy)
    ensures { Appends draft.old draft.new (text.ty_text (ty_view ty.now)) }
{
    match ty {
        RTy::Integer(ty) => draft.text(integer_word(*ty)),
        RTy::Boolean => draft.text("bool"),
        RTy::Void => draft.text("core::ffi::c_void"),
        RTy::Pointer(target) => put_pointer(draft, target),
        RTy::Array(element, size) => put_array(draft, element, *size),
        RTy::Code(params, result) => {
            draft.text("Option<unsafe extern \"C\" fn(");
            put_tys(draft, params);
            draft.text(")");
            put_result(draft, result);
            draft.text(">");
        }
        RTy::Record(path) => put_path(draft, path),
    }
}

#[cycle(type_text)]
fn put_pointer(draft: &mut Draft, target: &Boxed<RTy>)
    ensures { Appends draft.old draft.new (text.ty_text (tree.Pointer (ty_view target.now))) }
{
    draft.text("*mut ");
    put_ty(draft, target.get());
}

#[cycle(type_text)]
fn put_array(draft: &mut Draft, element: &Boxed<RTy>, size: u64)
    ensures { Appends draft.old draft.new (text.ty_text (tree.Array (ty_view element.now) size)) }
{
    draft.text("[");
    put_ty(draft, element.get());
    draft.text("; ");
    draft.number(Int::from(size));
    draft.text("]");
}

// Writes types with commas between them.
#[cycle(type_text)]
fn put_tys(draft: &mut Draft, params: &Items<RTy>)
    ensures { Appends draft.old draft.new (text.listed (text.tys_texts (tys (map ty_view params.now)))) }
{
    let Some((first, others)) = params.as_slice().split_first() else {
        return;
    };
    put_ty(draft, first);
    for param in others {
        draft.text(", ");
        put_ty(draft, param);
    }
}

/// Writes the type of a result, if there is one.
#[cycle(type_text)]
pub(crate) fn put_result(draft: &mut Draft, given: &Option<Boxed<RTy>>)
    ensures { Appends draft.old draft.new (text.result_text (option_ty (option_map ty_view given.now))) }
{
    if let Some(ty) = given {
        draft.text(" -> ");
        put_ty(draft, ty.get());
    }
}

/// Writes the type of a function of these parameters and this result, and a text behind it.
pub(crate) fn put_signature(
    draft: &mut Draft,
    params: &Items<RTy>,
    given: &Option<Boxed<RTy>>,
    behind: &str,
)
    ensures { Appends draft.old draft.new (text.signature (text.tys_texts (tys (map ty_view params.now))) (text.result_text (option_ty (option_map ty_view given.now))) behind.now) }
{
    draft.text("unsafe extern \"C\" fn(");
    put_tys(draft, params);
    draft.text(")");
    put_result(draft, given);
    draft.text(behind);
}
