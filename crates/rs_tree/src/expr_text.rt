//! The text of places and expressions (the Rust Reference, "Expressions"), which stay on their line.
#![tactic(auto, using(crate::proofs::Growing::growing))]

ghost use Rattle.std.specs.Prelude.{◌≡◌, ◌++◌, [], ◌∷◌, map, option_map, codes};
ghost use Rattle.rs_text.specs.Forms as forms;
ghost use Rattle.rs_text.specs.Lines as text;
ghost use Rattle.rs_text.specs.Parts as parts;
ghost use Rattle.rs_text.specs.Printing.{Appends};
ghost use Rattle.rs_text.specs.Tree as tree;
ghost use Rattle.rs_text.specs.Tree.{exprs, tys, option_ty};
ghost use Rattle.rs_tree.specs.Views.{ty_view, place_view, expr_view};

use crate::draft::Draft;
use crate::expr::{RExpr, RPlace};
use crate::ty::{RPath, RTy};
use crate::type_text::{put_path, put_signature, put_ty};
use crate::words::{
    address_of, integer_word, null_of, operator_mark, transmute_of, truth_word, wrapping_word,
};
use cr_base::{Boxed, Int, Items};
use rs_text::IntegerTy;

/// Writes a literal with its type.
pub(crate) fn put_literal(draft: &mut Draft, value: Int, ty: IntegerTy)
    ensures { Appends draft.old draft.new (text.literal_text value ty) }
{
    draft.number(value);
    draft.text(integer_word(ty));
}

fn is_deref(place: &RPlace) -> bool
    ensures { result ≡ forms.is_deref (place_view place.now) }
{
    match place {
        RPlace::Deref(_) => true,
        RPlace::Local(_) | RPlace::Static(_) | RPlace::Field(_, _) => false,
    }
}

// Whether an expression is a compound, which stands in parentheses where it is an operand.
fn is_compound(expr: &RExpr) -> bool
    ensures { result ≡ forms.is_compound (expr_view expr.now) }
{
    match expr {
        RExpr::Literal(value, _) => *value < 0,
        RExpr::Read(place) => is_deref(place.get()),
        RExpr::Neg(_)
        | RExpr::Not(_)
        | RExpr::Cast(_, _)
        | RExpr::Binary(_, _, _)
        | RExpr::And(_, _)
        | RExpr::Or(_, _)
        | RExpr::Choose(_, _, _) => true,
        _ => false,
    }
}

#[cycle(expr_text)]
pub(crate) fn put_place(draft: &mut Draft, place: &RPlace)
    ensures { Appends draft.old draft.new (text.place_text (place_view place.now)) }
{
    match place {
        RPlace::Local(name) => draft.name(name),
        RPlace::Static(path) => put_path(draft, path),
        RPlace::Deref(operand) => put_prefixed(draft, "*", operand),
        RPlace::Field(of, name) => {
            put_base(draft, of);
            draft.text(".");
            draft.name(name);
        }
    }
}

// Writes a place before `.f`.
#[cycle(expr_text)]
fn put_base(draft: &mut Draft, place: &Boxed<RPlace>)
    ensures { Appends draft.old draft.new (text.operand (forms.is_deref (place_view place.now)) (text.place_text (place_view place.now))) }
{
    if !is_deref(place.get()) {
        return put_place(draft, place.get());
    }
    draft.text("(");
    put_place(draft, place.get());
    draft.text(")");
}

#[cycle(expr_text)]
#[tactic(auto, using(crate::proofs::Growing::growing, crate::proofs::PartLemmas::expr_in_parts))]
pub(crate) fn put_expr(draft: &mut Draft, expr: &RExpr)
    ensures { Appends draft.old draft.new (text.expr_text (expr_view expr.now)) }
{
    put_first(draft, expr);
    put_second(draft, expr);
}

// Writes an expression without operands behind the first one, or the first operand and what stands
// before it.
#[cycle(expr_text)]
fn put_first(draft: &mut Draft, expr: &RExpr)
    ensures { Appends draft.old draft.new (parts.first_text (expr_view expr.now)) }
{
    match expr {
        RExpr::Literal(value, ty) => put_literal(draft, *value, *ty),
        RExpr::Truth(value) => draft.text(truth_word(*value)),
        RExpr::NoFunction => draft.text("None"),
        RExpr::Read(place) => put_place(draft, place.get()),
        RExpr::Call(path, args) => put_call(draft, path, args),
        RExpr::AddressOf(place) => put_address(draft, place),
        RExpr::NullPointer(ty) => put_null(draft, ty),
        RExpr::SomeFunction(path, params, given) => put_function(draft, path, params, given),
        RExpr::Transmute(from, to, _) => put_transmute(draft, from, to),
        RExpr::Neg(operand) => put_prefixed(draft, "-", operand),
        RExpr::Not(operand) => put_prefixed(draft, "!", operand),
        RExpr::Choose(condition, _, _) => put_between(draft, "if ", condition, " { "),
        RExpr::CallBy(operand, _)
        | RExpr::Wrapping(operand, _, _)
        | RExpr::WrappingNeg(operand)
        | RExpr::Offset(operand, _)
        | RExpr::OffsetFrom(operand, _)
        | RExpr::IsNull(operand)
        | RExpr::IsNone(operand)
        | RExpr::Cast(operand, _)
        | RExpr::Binary(operand, _, _)
        | RExpr::And(operand, _)
        | RExpr::Or(operand, _) => put_operand(draft, operand),
    }
}

// Writes what stands behind that.
#[cycle(expr_text)]
fn put_second(draft: &mut Draft, expr: &RExpr)
    ensures { Appends draft.old draft.new (parts.second_text (expr_view expr.now)) }
{
    match expr {
        RExpr::CallBy(_, args) => put_unwrapped(draft, args),
        RExpr::Wrapping(_, op, arg) => put_method(draft, wrapping_word(*op), arg),
        RExpr::WrappingNeg(_) => draft.text(".wrapping_neg()"),
        RExpr::Offset(_, arg) => put_method(draft, "offset", arg),
        RExpr::OffsetFrom(_, arg) => put_method(draft, "offset_from", arg),
        RExpr::IsNull(_) => draft.text(".is_null()"),
        RExpr::IsNone(_) => draft.text(".is_none()"),
        RExpr::Transmute(_, _, operand) => put_between(draft, "", operand, ")"),
        RExpr::Cast(_, ty) => put_as(draft, ty),
        RExpr::Binary(_, op, right) => put_right(draft, operator_mark(*op), right),
        RExpr::And(_, right) => put_right(draft, "&&", right),
        RExpr::Or(_, right) => put_right(draft, "||", right),
        RExpr::Choose(_, if_true, if_false) => {
            put_between(draft, "", if_true, " } else { ");
            put_between(draft, "", if_false, " }");
        }
        RExpr::Literal(_, _)
        | RExpr::Truth(_)
        | RExpr::NoFunction
        | RExpr::Read(_)
        | RExpr::Call(_, _)
        | RExpr::AddressOf(_)
        | RExpr::NullPointer(_)
        | RExpr::SomeFunction(_, _, _)
        | RExpr::Neg(_)
        | RExpr::Not(_) => {}
    }
}

#[cycle(expr_text)]
fn put_operand(draft: &mut Draft, expr: &Boxed<RExpr>)
    ensures { Appends draft.old draft.new (parts.operand_text (expr_view expr.now)) }
{
    if !is_compound(expr.get()) {
        return put_expr(draft, expr.get());
    }
    draft.text("(");
    put_expr(draft, expr.get());
    draft.text(")");
}

/// Writes an expression between two texts.
#[cycle(expr_text)]
pub(crate) fn put_between(draft: &mut Draft, before: &str, expr: &Boxed<RExpr>, after: &str)
    ensures { Appends draft.old draft.new (before.now ++ (text.expr_text (expr_view expr.now) ++ after.now)) }
{
    draft.text(before);
    put_expr(draft, expr.get());
    draft.text(after);
}

// Writes the type behind `as`.
fn put_as(draft: &mut Draft, ty: &Boxed<RTy>)
    ensures { Appends draft.old draft.new (codes " as " ++ text.ty_text (ty_view ty.now)) }
{
    draft.text(" as ");
    put_ty(draft, ty.get());
}

// Writes an operator before its operand.
#[cycle(expr_text)]
fn put_prefixed(draft: &mut Draft, operator: &str, expr: &Boxed<RExpr>)
    ensures { Appends draft.old draft.new (operator.now ++ parts.operand_text (expr_view expr.now)) }
{
    draft.text(operator);
    put_operand(draft, expr);
}

// Writes an operator and the operand behind it.
#[cycle(expr_text)]
fn put_right(draft: &mut Draft, operator: &str, right: &Boxed<RExpr>)
    ensures { Appends draft.old draft.new (parts.right_text operator.now (expr_view right.now)) }
{
    draft.text(" ");
    draft.text(operator);
    draft.text(" ");
    put_operand(draft, right);
}

// Writes a method with its argument.
#[cycle(expr_text)]
fn put_method(draft: &mut Draft, name: &str, arg: &Boxed<RExpr>)
    ensures { Appends draft.old draft.new (parts.method_text name.now (expr_view arg.now)) }
{
    draft.text(".");
    draft.text(name);
    draft.text("(");
    put_expr(draft, arg.get());
    draft.text(")");
}

// Writes expressions with commas between them.
#[cycle(expr_text)]
fn put_args(draft: &mut Draft, args: &Items<RExpr>)
    ensures { Appends draft.old draft.new (text.listed (text.exprs_texts (exprs (map expr_view args.now)))) }
{
    let Some((first, others)) = args.as_slice().split_first() else {
        return;
    };
    put_expr(draft, first);
    for arg in others {
        draft.text(", ");
        put_expr(draft, arg);
    }
}

#[cycle(expr_text)]
fn put_call(draft: &mut Draft, path: &RPath, args: &Items<RExpr>)
    ensures { Appends draft.old draft.new (text.expr_text (tree.Call path.now.home path.now.name (exprs (map expr_view args.now)))) }
{
    put_path(draft, path);
    draft.text("(");
    put_args(draft, args);
    draft.text(")");
}

// Writes the arguments of a call by a function pointer.
#[cycle(expr_text)]
fn put_unwrapped(draft: &mut Draft, args: &Items<RExpr>)
    ensures { Appends draft.old draft.new (codes ".unwrap()(" ++ (text.listed (text.exprs_texts (exprs (map expr_view args.now))) ++ codes ")")) }
{
    draft.text(".unwrap()(");
    put_args(draft, args);
    draft.text(")");
}

#[cycle(expr_text)]
fn put_address(draft: &mut Draft, place: &Boxed<RPlace>)
    ensures { Appends draft.old draft.new (text.expr_text (tree.AddressOf (place_view place.now))) }
{
    draft.text(address_of());
    put_place(draft, place.get());
    draft.text(")");
}

fn put_null(draft: &mut Draft, ty: &Boxed<RTy>)
    ensures { Appends draft.old draft.new (text.expr_text (tree.NullPointer (ty_view ty.now))) }
{
    draft.text(null_of());
    put_ty(draft, ty.get());
    draft.text(">()");
}

fn put_function(draft: &mut Draft, path: &RPath, params: &Items<RTy>, given: &Option<Boxed<RTy>>)
    ensures { Appends draft.old draft.new (text.expr_text (tree.SomeFunction path.now.home path.now.name (tys (map ty_view params.now)) (option_ty (option_map ty_view given.now)))) }
{
    draft.text("Some(");
    put_path(draft, path);
    draft.text(" as ");
    put_signature(draft, params, given, ")");
}

fn put_transmute(draft: &mut Draft, from: &Boxed<RTy>, to: &Boxed<RTy>)
    ensures { Appends draft.old draft.new (text.transmute_of ++ (text.ty_text (ty_view from.now) ++ (codes ", " ++ (text.ty_text (ty_view to.now) ++ codes ">(")))) }
{
    draft.text(transmute_of());
    put_ty(draft, from.get());
    draft.text(", ");
    put_ty(draft, to.get());
    draft.text(">(");
}
