//! Operators over pointers (ISO C99, 6.5.6, 6.5.8 and 6.5.9).

ghost use Rattle.std.specs.Prelude.{◌≡◌, ℤ, Result};
ghost use Rattle.cx_access.specs.Finds.{Finds};
ghost use Rattle.cx_access.specs.Views.{view_setting};
ghost use Rattle.cx_core.specs.Trees.{form_of_type};
ghost use Rattle.cx_core.specs.Views.{view_type};
ghost use Rattle.cx_mean.specs.Operands.{CWhy, by_pointers};
ghost use Rattle.cx_mean.specs.Settings.{element_extent};
ghost use Rattle.cx_mean.specs.Values.{binary_value};
ghost use Rattle.cx_operations.specs.Parts.{apart_in, as_number, moved_in, number_first, pointer_first, pointer_with, pointers_in};
ghost use Rattle.cx_operations.specs.Told.{IsNumber, told_of};
ghost use Rattle.cx_work.specs.Views.{view_operand_ty, view_typed};
ghost use Rattle.mem_bytes.specs.Pointers.{distance, equality};

use crate::numbers::two_numbers;
use cr_base::{Int, Laid, URule};
use cx_access::{Setting, Trouble, extent_of, scalar_of};
use cx_core::{Op2, Ty, TyForm};
use cx_work::{OperandTy, Typed};
use mem_bytes::{PointerFault, Store, Value, difference, distance, equality, moved};

/// What is wrong with an operation on pointers: one to a dead object is U5, and what else is wrong breaks a rule.
pub fn pointer_trouble(rule: URule, fault: PointerFault) -> Trouble
    ensures { result ≡ told_of rule fault }
{
    match fault {
        PointerFault::ToDead => Trouble::Undefined(URule::U5),
        PointerFault::LeavesObject => Trouble::Undefined(rule),
        PointerFault::NotWithinOne => Trouble::Undefined(rule),
        PointerFault::NoPointer => Trouble::Memory,
    }
}

fn element_in(setting: &Setting<'_>, ty: &Ty) -> Option<Laid>
    ensures { result ≡ element_extent (view_setting setting.now) (form_of_type (view_type ty.now)) }
{
    match &ty.form {
        TyForm::Pointer(to) => extent_of(setting, OperandTy::Of(to.get())),
        TyForm::Void => None,
        TyForm::Basic(_) => None,
        TyForm::Enum(_) => None,
        TyForm::Array(_, _) => None,
        TyForm::Record(_) => None,
        TyForm::Function(_) => None,
    }
}

// The size and the alignment of what a pointer type points to.
#[tactic(auto, using(crate::proofs::Unqualified::same_form))]
fn element_of(setting: &Setting<'_>, ty: OperandTy<'_>) -> Option<Laid>
    ensures { result ≡ element_extent (view_setting setting.now) (form_of_type (view_operand_ty ty.entry)) }
{
    match ty {
        OperandTy::Of(ty) => element_in(setting, ty),
        OperandTy::Unqualified(ty) => element_in(setting, ty),
        OperandTy::Basic(_) => None,
    }
}

fn moved_by<S: Store>(
    store: &S,
    laid: Option<Laid>,
    at: Value,
    count: Int,
) -> Result<Value, Trouble>
    ensures { Finds (λ one. one) result (moved_in laid (S.memory store.now) at count) }
{
    let Some(laid) = laid else {
        return Err(Trouble::Memory);
    };
    let Some(bytes) = count.checked_mul(Int::from(laid.size)) else {
        return Err(Trouble::Memory);
    };
    match moved(store, at, bytes) {
        Ok(place) => Ok(place),
        Err(fault) => Err(pointer_trouble(URule::U11, fault)),
    }
}

fn pointer_and_number<S: Store>(
    store: &S,
    op: Op2,
    laid: Option<Laid>,
    at: Value,
    count: Int,
) -> Result<Value, Trouble>
    ensures { Finds (λ one. one) result (pointer_first op laid (S.memory store.now) at count) }
{
    match op {
        Op2::Add => moved_by(store, laid, at, count),
        Op2::Subtract => match count.checked_neg() {
            Some(count) => moved_by(store, laid, at, count),
            None => Err(Trouble::Memory),
        },
        _ => Err(Trouble::Memory),
    }
}

fn number_and_pointer<S: Store>(
    store: &S,
    op: Op2,
    laid: Option<Laid>,
    at: Value,
    count: Int,
) -> Result<Value, Trouble>
    ensures { Finds (λ one. one) result (number_first op laid (S.memory store.now) at count) }
{
    match op {
        Op2::Add => moved_by(store, laid, at, count),
        _ => Err(Trouble::Memory),
    }
}

fn distance_of<S: Store>(store: &S, first: Value, second: Value) -> Result<Int, Trouble>
    ensures { Finds (λ one. one) result (by_pointers URule.U12 (distance (S.memory store.now) first second)) }
{
    match distance(store, first, second) {
        Ok(bytes) => Ok(bytes),
        Err(fault) => Err(pointer_trouble(URule::U12, fault)),
    }
}

fn equality_of<S: Store>(store: &S, first: Value, second: Value) -> Result<bool, Trouble>
    ensures { Finds (λ one. one) result (by_pointers URule.U12 (equality (S.memory store.now) first second)) }
{
    match equality(store, first, second) {
        Ok(same) => Ok(same),
        Err(fault) => Err(pointer_trouble(URule::U12, fault)),
    }
}

fn apart<S: Store>(
    store: &S,
    laid: Option<Laid>,
    first: Value,
    second: Value,
) -> Result<Int, Trouble>
    ensures { Finds (λ one. one) result (apart_in laid (S.memory store.now) first second) }
{
    let Some(laid) = laid else {
        return Err(Trouble::Memory);
    };
    if laid.size == 0 {
        return Err(Trouble::Memory);
    }
    match difference(store, laid.size, first, second) {
        Ok(count) => Ok(count),
        Err(fault) => Err(pointer_trouble(URule::U11, fault)),
    }
}

fn two_pointers<S: Store>(
    store: &S,
    op: Op2,
    laid: Option<Laid>,
    first: Value,
    second: Value,
) -> Result<Int, Trouble>
    ensures { Finds (λ one. one) result (pointers_in op laid (S.memory store.now) first second) }
{
    match op {
        Op2::Subtract => apart(store, laid, first, second),
        Op2::Less => match distance_of(store, first, second) {
            Ok(bytes) => Ok(Int::from(bytes < 0)),
            Err(trouble) => Err(trouble),
        },
        Op2::Greater => match distance_of(store, first, second) {
            Ok(bytes) => Ok(Int::from(0 < bytes)),
            Err(trouble) => Err(trouble),
        },
        Op2::LessOrEqual => match distance_of(store, first, second) {
            Ok(bytes) => Ok(Int::from(bytes <= 0)),
            Err(trouble) => Err(trouble),
        },
        Op2::GreaterOrEqual => match distance_of(store, first, second) {
            Ok(bytes) => Ok(Int::from(0 <= bytes)),
            Err(trouble) => Err(trouble),
        },
        Op2::Equal => match equality_of(store, first, second) {
            Ok(same) => Ok(Int::from(same)),
            Err(trouble) => Err(trouble),
        },
        Op2::NotEqual => match equality_of(store, first, second) {
            Ok(same) => Ok(Int::from(!same)),
            Err(trouble) => Err(trouble),
        },
        _ => Err(Trouble::Memory),
    }
}

fn number_value(found: Result<Int, Trouble>) -> Result<Value, Trouble>
    ensures { (number : Result ℤ CWhy) → Finds (λ one. one) found number → Finds (λ one. one) result (as_number number) }
{
    match found {
        Ok(number) => Ok(Value::Whole(number)),
        Err(trouble) => Err(trouble),
    }
}

// What an operator gives whose left operand is this pointer.
fn with_pointer<S: Store>(
    store: &S,
    op: Op2,
    laid: Option<Laid>,
    at: Value,
    right: Value,
) -> Result<Value, Trouble>
    ensures { Finds (λ one. one) result (pointer_with op laid (S.memory store.now) at right) }
{
    match right {
        Value::Whole(count) => pointer_and_number(store, op, laid, at, count),
        Value::Null => number_value(two_pointers(store, op, laid, at, right)),
        Value::Object(_) => number_value(two_pointers(store, op, laid, at, right)),
        Value::Code(_) => number_value(two_pointers(store, op, laid, at, right)),
    }
}

// What an operator gives whose left operand is a number.
fn with_number<S: Store>(
    store: &S,
    setting: &Setting<'_>,
    op: Op2,
    ty: OperandTy<'_>,
    left: Typed<'_>,
    right: Typed<'_>,
) -> Result<Value, Trouble>
    ensures { IsNumber left.entry.value → Finds (λ one. one) result (binary_value (view_setting setting.now) op (view_operand_ty ty.entry)
        (S.memory store.now) (view_typed left.entry) (view_typed right.entry)) }
{
    let Value::Whole(count) = left.value else {
        return Err(Trouble::Memory);
    };
    match right.value {
        Value::Whole(other) => two_numbers(op, scalar_of(setting, ty), count, other),
        Value::Null => {
            number_and_pointer(store, op, element_of(setting, right.ty), right.value, count)
        }
        Value::Object(_) => {
            number_and_pointer(store, op, element_of(setting, right.ty), right.value, count)
        }
        Value::Code(_) => {
            number_and_pointer(store, op, element_of(setting, right.ty), right.value, count)
        }
    }
}

/// What an operator with two operands gives, in a type.
///
/// # Errors
///
/// `Undefined` by U2, U3 or U4 of numbers, or by U5, U11 or U12 of pointers.
#[tactic(auto, using(crate::proofs::Pairs::null_first, crate::proofs::Pairs::object_first, crate::proofs::Pairs::code_first))]
pub fn binary_value<S: Store>(
    store: &S,
    setting: &Setting<'_>,
    op: Op2,
    ty: OperandTy<'_>,
    left: Typed<'_>,
    right: Typed<'_>,
) -> Result<Value, Trouble>
    ensures { Finds (λ one. one) result
        (binary_value (view_setting setting.now) op (view_operand_ty ty.entry) (S.memory store.now) (view_typed left.entry) (view_typed right.entry)) }
{
    match left.value {
        Value::Whole(_) => with_number(store, setting, op, ty, left, right),
        Value::Null => {
            with_pointer(
                store,
                op,
                element_of(setting, left.ty),
                left.value,
                right.value,
            )
        }
        Value::Object(_) => {
            with_pointer(
                store,
                op,
                element_of(setting, left.ty),
                left.value,
                right.value,
            )
        }
        Value::Code(_) => {
            with_pointer(
                store,
                op,
                element_of(setting, left.ty),
                left.value,
                right.value,
            )
        }
    }
}
