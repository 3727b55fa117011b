//! Statements that are well typed (the Rust Reference, "Statements" and "Loops and other breakable
//! expressions").

ghost use Rattle.std.specs.Prelude.{◌≡◌, ◌&&◌, map, option_map};
ghost use Rattle.std.specs.Option.{option_copied};
ghost use Rattle.rs_mean.specs.Scalars.{is_integer};
ghost use Rattle.rs_mean.specs.Typing as typing;
ghost use Rattle.rs_mean.specs.Typing.{arm_differs, arms_typed, drops_call, gives_type, is_matched, is_scalar_of, matches, own_type, stmt_typed, stmts_typed};
ghost use Rattle.rs_text.specs.declared.integer.IntegerTy.TheVariants.{U8};
ghost use Rattle.rs_text.specs.Tree as tree;
ghost use Rattle.rs_text.specs.Tree.{arms, exprs, stmts};
ghost use Rattle.rs_tree.specs.Views.{ty_view, expr_view, place_view, stmt_view, arm_view, module_view};
ghost use Rattle.rs_kinds.specs.Calls.{fits_call};
ghost use Rattle.rs_kinds.specs.Kinds.{kind_view};
ghost use Rattle.rs_layout.specs.Layouts.{ModulesAreAligned};
ghost use Rattle.rs_kinds.specs.Scopes.{body_view, scope_view};
ghost use Rattle.rs_kinds.specs.Signatures.{signature_view};

use crate::exprs::{args_fit, kind_of, place_type};
use crate::kind::HeldKind;
use crate::operands::{is_integer_of, is_of_type, is_truth};
use crate::scope::{HeldScope, Labels, has_label, has_loop};
use crate::signature::{HeldSignature, pointed_types, signature_at};
use crate::stands::is_scalar_type;
use cr_base::{Boxed, Int, Items, Name};
use rs_mean::fits_integer;
use rs_same::same_integer;
use rs_tree::{Arm, IntegerTy, RExpr, RPlace, RStmt, RTy};

// ---- statements without others

// Whether a call by this signature fits.
fn fits_call<'t>(
    scope: HeldScope<'t>,
    signature: Option<HeldSignature<'t>>,
    args: &'t Items<RExpr>,
) -> bool
    requires { ModulesAreAligned (map module_view scope.modules.now) }
    ensures { result ≡ fits_call (scope_view scope.entry) (option_map signature_view signature.entry) (exprs (map expr_view args.now)) }
{
    match signature {
        Some(signature) => args_fit(scope, signature, args),
        None => false,
    }
}

// Whether a statement is a call, of which the result is dropped.
#[tactic(auto, using(crate::proofs::Calls::fits_by))]
fn drops_call(scope: HeldScope<'_>, expr: &RExpr) -> bool
    requires { ModulesAreAligned (map module_view scope.modules.now) }
    ensures { result ≡ drops_call (scope_view scope.entry) (expr_view expr.now) }
{
    match expr {
        RExpr::Call(path, args) => fits_call(scope, signature_at(scope.modules, path), args),
        RExpr::CallBy(operand, args) => {
            fits_call(scope, pointed_types(kind_of(scope, operand.get())), args)
        }
        _ => false,
    }
}

fn assigns(scope: HeldScope<'_>, place: &RPlace, value: &RExpr) -> bool
    requires { ModulesAreAligned (map module_view scope.modules.now) }
    ensures { result ≡ is_scalar_of (typing.place_type (scope_view scope.entry) (place_view place.now)) (typing.kind_of (scope_view scope.entry) (expr_view value.now)) }
{
    match place_type(scope, place) {
        Some(ty) => is_scalar_type(ty) && is_of_type(ty, kind_of(scope, value)),
        None => false,
    }
}

fn is_to_bytes(kind: Option<HeldKind<'_>>) -> bool
    ensures { result ≡ typing.is_of_type (tree.Pointer (tree.Integer U8)) (option_map kind_view kind.entry) }
{
    match kind {
        Some(HeldKind::Pointer(RTy::Integer(ty))) => same_integer(IntegerTy::U8, *ty),
        _ => false,
    }
}

fn gives_type(scope: HeldScope<'_>, value: &Option<Boxed<RExpr>>) -> bool
    requires { ModulesAreAligned (map module_view scope.modules.now) }
    ensures { result ≡ gives_type (scope_view scope.entry) (body_view scope.entry).result (option_map expr_view value.now) }
{
    match (scope.given, value) {
        (None, None) => true,
        (Some(ty), Some(value)) => is_of_type(ty.get(), kind_of(scope, value.get())),
        _ => false,
    }
}

// ---- matches

fn is_matched(kind: Option<HeldKind<'_>>) -> bool
    ensures { result ≡ is_matched (own_type (option_map kind_view kind.entry)) }
{
    matches!(kind, Some(HeldKind::Integer(_)))
}

fn matches_kind(kind: Option<HeldKind<'_>>, arm: &Arm) -> bool
    ensures { result ≡ matches (own_type (option_map kind_view kind.entry)) arm.now.value arm.now.ty }
{
    match kind {
        Some(HeldKind::Integer(ty)) => same_integer(ty, arm.ty) && fits_integer(arm.ty, arm.value),
        _ => false,
    }
}

fn differs_from(value: Int, others: &[Arm]) -> bool
    ensures { result ≡ arm_differs value (arms (map arm_view others.now)) }
{
    for arm in others {
        if value == arm.value {
            return false;
        }
    }
    true
}

// ---- statements with others

/// Whether a statement is well typed at its place.
#[cycle(stmts)]
pub(crate) fn stmt_typed(scope: HeldScope<'_>, stmt: &RStmt) -> bool
    requires { ModulesAreAligned (map module_view scope.modules.now) }
    ensures { result ≡ stmt_typed (body_view scope.entry) (stmt_view stmt.now) }
{
    match stmt {
        RStmt::Assign(place, value) => assigns(scope, place.get(), value.get()),
        RStmt::Eval(value) => drops_call(scope, value.get()),
        RStmt::CopyBytes(source, target, count) => {
            is_to_bytes(kind_of(scope, source.get()))
                && is_to_bytes(kind_of(scope, target.get()))
                && is_integer_of(IntegerTy::Usize, kind_of(scope, count.get()))
        }
        RStmt::If(condition, if_true, if_false) => {
            is_truth(kind_of(scope, condition.get()))
                && stmts_typed(scope, if_true)
                && stmts_typed(scope, if_false)
        }
        RStmt::Loop(Some(label), body) => {
            !has_label(scope.labels, label) && stmts_within(scope, label, true, body)
        }
        RStmt::Loop(None, body) => stmts_typed(scope, body),
        RStmt::Block(label, body) => {
            !has_label(scope.labels, label) && stmts_within(scope, label, false, body)
        }
        RStmt::Break(label) => has_label(scope.labels, label),
        RStmt::Continue(label) => has_loop(scope.labels, label),
        RStmt::Match(value, cases, other) => {
            let kind = kind_of(scope, value.get());
            is_matched(kind) && arms_typed(scope, kind, cases) && stmts_typed(scope, other)
        }
        RStmt::Return(value) => gives_type(scope, value),
    }
}

// Whether the statements of a loop or of a block are well typed.
#[cycle(stmts)]
fn stmts_within(scope: HeldScope<'_>, name: &Name, is_loop: bool, body: &Items<RStmt>) -> bool
    requires { ModulesAreAligned (map module_view scope.modules.now) }
    ensures { result ≡ stmts_typed (typing.with_label name.now is_loop (body_view scope.entry)) (stmts (map stmt_view body.now)) }
{
    let labels = Labels::Within {
        name,
        is_loop,
        outer: scope.labels,
    };
    let within = HeldScope {
        labels: &labels,
        ..scope
    };
    stmts_typed(within, body)
}

/// Whether the statements of a list are well typed.
#[cycle(stmts)]
pub fn stmts_typed(scope: HeldScope<'_>, list: &Items<RStmt>) -> bool
    requires { ModulesAreAligned (map module_view scope.modules.now) }
    ensures { result ≡ stmts_typed (body_view scope.entry) (stmts (map stmt_view list.now)) }
{
    for stmt in list.as_slice() {
        if !stmt_typed(scope, stmt) {
            return false;
        }
    }
    true
}

// Whether the arms of a `match` over a value of a kind are well typed.
#[cycle(stmts)]
fn arms_typed(scope: HeldScope<'_>, kind: Option<HeldKind<'_>>, cases: &Items<Arm>) -> bool
    requires { ModulesAreAligned (map module_view scope.modules.now) }
    ensures { result ≡ arms_typed (body_view scope.entry) (own_type (option_map kind_view kind.entry)) (arms (map arm_view cases.now)) }
{
    let mut left = cases.as_slice();
    for arm in cases.as_slice() {
        left = match left.split_first() {
            Some((_, others)) => others,
            None => &[],
        };
        if !(matches_kind(kind, arm)
            && differs_from(arm.value, left)
            && stmts_typed(scope, &arm.body))
        {
            return false;
        }
    }
    true
}
