//! Which operands may be assigned to an object of a type (ISO C99, 6.5.16.1p1).

ghost use Rattle.std.specs.Prelude.{◌≡◌, ◌&&◌, ◌||◌, Some};
ghost use Rattle.cx_core.specs.Trees.{CTy, form_of_type, is_const_type};
ghost use Rattle.cx_core.specs.Views.{view_type, view_types};
ghost use Rattle.cx_kinds.specs.Known.{types_in};
ghost use Rattle.cx_operands.specs.Views.{view_operand, view_value_type};
ghost use Rattle.cx_rules.specs.Operands.{value_of};
ghost use Rattle.cx_rules.specs.Pairs.{is_assignable, types_match, records_match, pointers_match, void_beside, is_truth_form};
ghost use Rattle.cx_rules.specs.Types.{is_pointer, point_alike, keeps_qualifiers, keeps_const, both_targets, target_of};

use crate::pairing::both_integers;
use crate::records::is_record;
use crate::values::{point_alike, void_beside};
use cx_core::{Basic, Ty, TyForm, Types};
use cx_kinds::{is_pointer, record_of, target_of};
use cx_operands::{Operand, ValueTy, is_null_operand, value_type};

/// Whether the value of an operand may be assigned to an object of a type (ISO C99, 6.5.16.1p1).
#[tactic(auto, unfolding(cx_rules::specs::Pairs::is_assignable))]
pub fn may_be_assigned(types: &Types, target: &Ty, value: &Operand) -> bool
    ensures { result ≡ is_assignable (view_types types.now) (view_type target.now) (value_of (view_operand value.now)) }
{
    types_match(
        types,
        target,
        value_type(value),
        is_null_operand(types, value),
    )
}

fn types_match(types: &Types, target: &Ty, value: ValueTy<'_>, is_null: bool) -> bool
    ensures { result ≡ types_match (view_types types.now) (view_type target.now) (view_value_type value.entry) is_null }
{
    if both_integers(types, ValueTy::Plain(target), value) {
        return true;
    }
    if records_match(types, target, value) {
        return true;
    }
    pointers_match(types, target, value)
        || becomes_pointer(target, is_null)
        || becomes_truth(target, value)
}

#[tactic(auto, using(crate::proofs::Numbered::unqualified_records))]
fn records_match(_types: &Types, target: &Ty, value: ValueTy<'_>) -> bool
    ensures { result ≡ records_match (view_types _types.now) (view_type target.now) (view_value_type value.entry) }
{
    match record_of(target) {
        None => false,
        Some(number) => is_record(value, number),
    }
}

// Pointers to compatible types, or one of them to `void`, where no qualifier is lost.
fn pointers_match(types: &Types, target: &Ty, value: ValueTy<'_>) -> bool
    ensures { result ≡ pointers_match (view_types types.now) (view_type target.now) (view_value_type value.entry) }
{
    if !keeps_qualifiers(target, value) {
        return false;
    }
    let plain = ValueTy::Plain(target);
    point_alike(types, plain, value) || void_beside(plain, value) || void_beside(value, plain)
}

// Whether what the first pointer points to has all qualifiers of what the second points to.
fn keeps_qualifiers(first: &Ty, second: ValueTy<'_>) -> bool
    ensures { result ≡ keeps_qualifiers (view_type first.now) (view_value_type second.entry) }
{
    match target_of(first) {
        None => false,
        Some(one) => keeps_const(one.is_const, second),
    }
}

fn keeps_const(is_const: bool, second: ValueTy<'_>) -> bool
    ensures { (one : CTy) → is_const_type one ≡ is_const → result ≡ both_targets keeps_const (Some one) (target_of (view_value_type second.entry)) }
{
    match second.target() {
        None => false,
        Some(other) => is_const || !other.is_const,
    }
}

fn becomes_pointer(target: &Ty, is_null: bool) -> bool
    ensures { result ≡ (is_pointer (view_type target.now) && is_null) }
{
    is_pointer(target) && is_null
}

fn becomes_truth(target: &Ty, value: ValueTy<'_>) -> bool
    ensures { result ≡ (is_truth_form (form_of_type (view_type target.now)) && is_pointer (view_value_type value.entry)) }
{
    is_truth(target) && value.is_pointer()
}

fn is_truth(t: &Ty) -> bool
    ensures { result ≡ is_truth_form (form_of_type (view_type t.now)) }
{
    matches!(t.form, TyForm::Basic(Basic::Truth))
}
