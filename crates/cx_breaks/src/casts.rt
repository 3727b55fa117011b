//! Casts (ISO C99, 6.5.4).

ghost use Rattle.std.specs.Prelude.{◌≡◌, ◌&&◌, ℕ, not, if◌then◌else◌};
ghost use Rattle.cx_breaks.specs.Asked.{lacks_object, lacks_value};
ghost use Rattle.cx_breaks.specs.Casts.{crosses_numbers, crosses_functions};
ghost use Rattle.cx_breaks.specs.Placed.{placed};
ghost use Rattle.cx_core.specs.Trees.{unqualified};
ghost use Rattle.cx_core.specs.Views.{view_type};
ghost use Rattle.cx_kinds.specs.Known.{IsKnown, types_in};
ghost use Rattle.cx_operands.specs.Views.{view_operand, view_value_type};
ghost use Rattle.cx_rules.specs.Nodes.{cast_node};
ghost use Rattle.cx_rules.specs.Rules.{rule_at};
ghost use Rattle.cx_rules.specs.Scope.{CScope};
ghost use Rattle.cx_rules.specs.Types.{is_void, is_scalar, is_pointer, is_integer, is_function_pointer, is_object_pointer, same_type, truth_type};

use crate::asked::{is_fixed, is_null, lacks_object, lacks_value, type_taken};
use cr_base::Rule;
use cx_core::{Basic, Ty, TyForm};
use cx_kinds::{Known, is_function_pointer, is_integer, is_object_pointer, is_pointer, is_void};
use cx_operands::{Operand, ValueTy};
use cx_pairs::is_scalar;

/// The rule that a cast to a type breaks: O7 between pointers and integers, O8 between pointers to objects and to functions,
/// K10 where the value can't be taken, K13 where a type isn't scalar (ISO C99, 6.5.4p2), K15 where the operand is an array
/// that is declared `register`.
#[tactic(auto, using(crate::proofs::NodeRules::cast))]
pub fn cast_rule(known: Known, t: &Ty, on: &Operand) -> Option<Rule>
    requires { IsKnown known }
    ensures { (scope : CScope) (line : ℕ) → result ≡ rule_at (placed (types_in known.entry) scope line (cast_node (view_type t.now) (view_operand on.now))) }
{
    if crosses_numbers(known, t, type_taken(on), is_null(known.types, on)) {
        return Some(Rule::O7);
    }
    if crosses_functions(t, type_taken(on), is_null(known.types, on)) {
        return Some(Rule::O8);
    }
    if cast_lacks(known, t, on) {
        return Some(Rule::K10);
    }
    if is_unscalar(known, t, type_taken(on)) {
        return Some(Rule::K13);
    }
    if is_fixed(on) {
        return Some(Rule::K15);
    }
    None
}

// Whether a pointer becomes a number that isn't a truth value, or a number becomes a pointer that isn't null.
fn crosses_numbers(known: Known, t: &Ty, v: ValueTy<'_>, is_null: bool) -> bool
    ensures { result ≡ crosses_numbers (types_in known.entry) (view_type t.now) (view_value_type v.entry) is_null }
{
    if becomes_number(known, t, v) {
        return true;
    }
    if !v.is_integer(known.types) {
        return false;
    }
    is_pointer(t) && !is_null
}

fn becomes_number(known: Known, t: &Ty, v: ValueTy<'_>) -> bool
    ensures { result ≡ (is_pointer (view_value_type v.entry) && (is_integer (types_in known.entry) (view_type t.now) && not (same_type (unqualified (view_type t.now)) truth_type))) }
{
    if !v.is_pointer() {
        return false;
    }
    is_integer(known, t) && !is_truth(t)
}

fn is_truth(t: &Ty) -> bool
    ensures { result ≡ same_type (unqualified (view_type t.now)) truth_type }
{
    match &t.form {
        TyForm::Basic(which) => cx_core::same_basic(*which, Basic::Truth),
        _ => false,
    }
}

// Whether a pointer to a function becomes one to an object, or the other way round.
fn crosses_functions(t: &Ty, v: ValueTy<'_>, is_null: bool) -> bool
    ensures { result ≡ crosses_functions (view_type t.now) (view_value_type v.entry) is_null }
{
    if is_null {
        return false;
    }
    becomes_function(t, v) || becomes_object(t, v)
}

fn becomes_function(t: &Ty, v: ValueTy<'_>) -> bool
    ensures { result ≡ (is_function_pointer (view_type t.now) && is_object_pointer (view_value_type v.entry)) }
{
    is_function_pointer(t) && cx_pairs::is_object_pointer(v)
}

fn becomes_object(t: &Ty, v: ValueTy<'_>) -> bool
    ensures { result ≡ (is_object_pointer (view_type t.now) && is_function_pointer (view_value_type v.entry)) }
{
    is_object_pointer(t) && cx_pairs::is_function_pointer(v)
}

// Whether the value can't be taken; a cast to `void` only evaluates the operand.
fn cast_lacks(known: Known, t: &Ty, on: &Operand) -> bool
    requires { IsKnown known }
    ensures { result ≡ (if is_void (view_type t.now) then lacks_object (types_in known.entry) (view_operand on.now) else lacks_value (types_in known.entry) (view_operand on.now)) }
{
    if is_void(t) {
        lacks_object(known, on)
    } else {
        lacks_value(known, on)
    }
}

// Whether the cast isn't to `void`, and one of the types isn't scalar.
fn is_unscalar(known: Known, t: &Ty, v: ValueTy<'_>) -> bool
    ensures { result ≡ (not (is_void (view_type t.now)) && not (is_scalar (types_in known.entry) (view_type t.now) && is_scalar (types_in known.entry) (view_value_type v.entry))) }
{
    if is_void(t) {
        return false;
    }
    !(cx_kinds::is_scalar(known, t) && is_scalar(known, v))
}
