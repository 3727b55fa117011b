//! The kinds of the values of expressions, and the types of places (the Rust Reference, "Expressions").

ghost use Rattle.std.specs.Prelude.{◌≡◌, map, option_map};
ghost use Rattle.std.specs.Option.{option_copied};
ghost use Rattle.rs_mean.specs.Typing.{args_fit, kind_of, place_type};
ghost use Rattle.rs_text.specs.Tree.{exprs};
ghost use Rattle.rs_tree.specs.Views.{ty_view, expr_view, place_view, module_view};
ghost use Rattle.rs_kinds.specs.Forms as forms;
ghost use Rattle.rs_kinds.specs.Kinds.{kind_view};
ghost use Rattle.rs_layout.specs.Layouts.{ModulesAreAligned};
ghost use Rattle.rs_kinds.specs.Scopes.{scope_view};
ghost use Rattle.rs_kinds.specs.Signatures.{signature_view};

use crate::forms::{
    address_kind, apart_kind, cast_kind, chosen_kind, field_type, function_kind, null_pointer_kind,
    offset_kind, read_kind, transmute_kind,
};
use crate::kind::{HeldKind, kept};
use crate::operands::{
    binary_kind, both_integers, is_of_type, is_trailing, is_truth, none_kind, null_kind, target_of,
    truth_where, where_bits, where_integer, where_signed,
};
use crate::scope::{HeldScope, local_type};
use crate::signature::{HeldSignature, first_param, given_kind, pointed_types, signature_at};
use cr_base::Items;
use rs_layout::static_type;
use rs_mean::fits_integer;
use rs_tree::{RExpr, RPlace, RTy};

/// The type of a place.
#[cycle(exprs)]
pub(crate) fn place_type<'t>(scope: HeldScope<'t>, place: &'t RPlace) -> Option<&'t RTy>
    requires { ModulesAreAligned (map module_view scope.modules.now) }
    ensures { option_map ty_view (option_copied result) ≡ place_type (scope_view scope.entry) (place_view place.now) }
{
    match place {
        RPlace::Local(name) => local_type(scope, name),
        RPlace::Static(path) => static_type(scope.modules, path),
        RPlace::Deref(operand) => target_of(kind_of(scope, operand.get())),
        RPlace::Field(of, name) => field_type(scope.modules, name, place_type(scope, of.get())),
    }
}

/// The kind of the value of an expression, or None where it is ill typed or has no value.
#[cycle(exprs)]
pub(crate) fn kind_of<'t>(scope: HeldScope<'t>, expr: &'t RExpr) -> Option<HeldKind<'t>>
    requires { ModulesAreAligned (map module_view scope.modules.now) }
    ensures { option_map kind_view result ≡ kind_of (scope_view scope.entry) (expr_view expr.now) }
{
    match expr {
        RExpr::Literal(value, ty) => kept(fits_integer(*ty, *value), HeldKind::Integer(*ty)),
        RExpr::Truth(_) => Some(HeldKind::Boolean),
        RExpr::NoFunction => Some(HeldKind::NoFunction),
        RExpr::Read(place) => read_kind(place_type(scope, place.get())),
        RExpr::Call(path, args) => call_kind(scope, signature_at(scope.modules, path), args),
        RExpr::CallBy(operand, args) => {
            call_kind(scope, pointed_types(kind_of(scope, operand.get())), args)
        }
        RExpr::AddressOf(place) => address_kind(place_type(scope, place.get())),
        RExpr::NullPointer(ty) => null_pointer_kind(scope.modules, ty.get()),
        RExpr::SomeFunction(path, params, given) => {
            function_kind(scope.modules, path, params, given)
        }
        RExpr::Transmute(from, to, operand) => {
            let kind = kind_of(scope, operand.get());
            transmute_kind(scope.modules, from.get(), to.get(), kind)
        }
        RExpr::WrappingNeg(operand) => where_integer(kind_of(scope, operand.get())),
        RExpr::IsNull(operand) => null_kind(kind_of(scope, operand.get())),
        RExpr::IsNone(operand) => none_kind(kind_of(scope, operand.get())),
        RExpr::Neg(operand) => where_signed(kind_of(scope, operand.get())),
        RExpr::Not(operand) => where_bits(kind_of(scope, operand.get())),
        RExpr::Cast(operand, ty) => {
            cast_kind(scope.modules, ty.get(), kind_of(scope, operand.get()))
        }
        RExpr::Wrapping(_, _, _)
        | RExpr::Offset(_, _)
        | RExpr::OffsetFrom(_, _)
        | RExpr::Binary(_, _, _)
        | RExpr::And(_, _)
        | RExpr::Or(_, _)
        | RExpr::Choose(_, _, _) => kind_of_two(scope, expr),
    }
}

// The kind of an expression of two operands or three.
#[cycle(exprs)]
fn kind_of_two<'t>(scope: HeldScope<'t>, expr: &'t RExpr) -> Option<HeldKind<'t>>
    requires { ModulesAreAligned (map module_view scope.modules.now) }
    ensures { option_map kind_view result ≡ forms.where_several (expr_view expr.now) (kind_of (scope_view scope.entry) (expr_view expr.now)) }
{
    match expr {
        RExpr::Wrapping(operand, _, arg) => {
            both_integers(kind_of(scope, operand.get()), kind_of(scope, arg.get()))
        }
        RExpr::Offset(operand, arg) => offset_kind(
            kind_of(scope, operand.get()),
            kind_of(scope, arg.get()),
        ),
        RExpr::OffsetFrom(operand, arg) => apart_kind(
            kind_of(scope, operand.get()),
            kind_of(scope, arg.get()),
        ),
        RExpr::Binary(left, operator, right) => binary_kind(
            *operator,
            kind_of(scope, left.get()),
            kind_of(scope, right.get()),
        ),
        RExpr::And(left, right) | RExpr::Or(left, right) => truth_where(
            is_truth(kind_of(scope, left.get())) && is_truth(kind_of(scope, right.get())),
        ),
        RExpr::Choose(condition, if_true, if_false) => chosen_kind(
            is_truth(kind_of(scope, condition.get())),
            kind_of(scope, if_true.get()),
            kind_of(scope, if_false.get()),
        ),
        _ => None,
    }
}

// The kind of what a call gives.
#[cycle(exprs)]
fn call_kind<'t>(
    scope: HeldScope<'t>,
    signature: Option<HeldSignature<'t>>,
    args: &'t Items<RExpr>,
) -> Option<HeldKind<'t>>
    requires { ModulesAreAligned (map module_view scope.modules.now) }
    ensures { option_map kind_view result ≡ forms.call_kind (scope_view scope.entry) (option_map signature_view signature.entry) (exprs (map expr_view args.now)) }
{
    match signature {
        Some(signature) if args_fit(scope, signature, args) => given_kind(signature.given),
        _ => None,
    }
}

/// Whether arguments have the types of the parameters, and those behind them, if there may be some, types
/// that these may have.
#[cycle(exprs)]
pub(crate) fn args_fit<'t>(
    scope: HeldScope<'t>,
    signature: HeldSignature<'t>,
    args: &'t Items<RExpr>,
) -> bool
    requires { ModulesAreAligned (map module_view scope.modules.now) }
    ensures { result ≡ args_fit (scope_view scope.entry) (signature_view signature.entry).params signature.entry.variadic (exprs (map expr_view args.now)) }
{
    let mut left = signature.params;
    for arg in args.as_slice() {
        match first_param(left) {
            Some(ahead) => {
                if !is_of_type(ahead.ty, kind_of(scope, arg)) {
                    return false;
                }
                left = ahead.others;
            }
            None => {
                if !(signature.variadic && is_trailing(kind_of(scope, arg))) {
                    return false;
                }
            }
        }
    }
    match first_param(left) {
        Some(_) => false,
        None => true,
    }
}
