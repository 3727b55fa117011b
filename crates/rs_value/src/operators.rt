//! What operators, methods and casts give of values (the Rust Reference, "Operator expressions" and
//! "Type cast expressions"; `core`, `pointer` and `Option`).

ghost use Rattle.std.specs.Prelude.{◌≡◌, ℤ, [], Err, map, Result};
ghost use Rattle.mem_bytes.specs.Pointers.{are_equal, moved, distance};
ghost use Rattle.rs_mean.specs.Layout.{laid_of};
ghost use Rattle.rs_mean.specs.Values as of;
ghost use Rattle.rs_mean.specs.Values.{typed, truth};
ghost use Rattle.rs_mean.specs.World.{or_cause, cause_of_pointer};
ghost use Rattle.rs_text.specs.Tree as tree;
ghost use Rattle.rs_tree.specs.Views.{ty_view, module_view};
ghost use Rattle.rs_layout.specs.Layouts.{ModulesAreAligned};
ghost use Rattle.rs_value.specs.Finds.{Finds};
ghost use Rattle.rs_value.specs.Operators.{unary_of, numbered, judged, ordered, pointing, offset_by, apart_by, is_null};
ghost use Rattle.rs_value.specs.Views.{typed_view};

use crate::numbers::{
    compared, complement, computed, computed_truth, converted_to, is_comparison, negated, wrapping,
    wrapping_negated,
};
use crate::trouble::Trouble;
use crate::typed::{TypedValue, ValueTy, result_ty};
use cr_base::{Int, Laid};
use mem_bytes::{PointerFault, Store, Value, difference, distance, moved};
use rs_layout::laid_of;
use rs_mean::Cause;
use rs_tree::{IntegerTy, Module, Operator, RTy, Wrapping};

/// A truth value.
#[inline(always)]
pub fn truth<'t>(test: bool) -> TypedValue<'t>
    ensures { typed_view result ≡ truth test }
{
    TypedValue {
        ty: ValueTy::Boolean,
        value: Value::Whole(Int::from(test)),
    }
}

/// A value of an integer type.
pub fn integer<'t>(ty: IntegerTy, number: Int) -> TypedValue<'t>
    ensures { typed_view result ≡ typed (tree.Integer ty) (Value.Whole number) }
{
    TypedValue {
        ty: ValueTy::Integer(ty),
        value: Value::Whole(number),
    }
}

// A number of an integer type.
#[inline(always)]
fn numbered<'t>(ty: IntegerTy, number: Result<Int, Trouble>) -> Result<TypedValue<'t>, Trouble>
    ensures { (found : Result ℤ Cause) → Finds (λ n. n) number found → Finds typed_view result (numbered ty found) }
{
    match number {
        Ok(number) => Ok(TypedValue {
            ty: ValueTy::Integer(ty),
            value: Value::Whole(number),
        }),
        Err(trouble) => Err(trouble),
    }
}

// A number as a truth value.
fn judged<'t>(number: Result<Int, Trouble>) -> Result<TypedValue<'t>, Trouble>
    ensures { (found : Result ℤ Cause) → Finds (λ n. n) number found → Finds typed_view result (judged found) }
{
    match number {
        Ok(number) => Ok(TypedValue {
            ty: ValueTy::Boolean,
            value: Value::Whole(number),
        }),
        Err(trouble) => Err(trouble),
    }
}

// An operator between two integers.
#[inline(always)]
fn on_integers<'t>(
    operator: Operator,
    ty: IntegerTy,
    left: Int,
    right: Int,
) -> Result<TypedValue<'t>, Trouble>
    ensures { Finds typed_view result (of.binary_of [] operator (typed (tree.Integer ty) (Value.Whole left)) (typed (tree.Integer ty) (Value.Whole right))) }
{
    if is_comparison(operator) {
        return Ok(truth(compared(operator, left, right)));
    }
    numbered(ty, computed(operator, ty, left, right))
}

// An operator between two truth values.
fn on_truths<'t>(operator: Operator, left: Int, right: Int) -> Result<TypedValue<'t>, Trouble>
    ensures { Finds typed_view result (of.binary_of [] operator (typed tree.Boolean (Value.Whole left)) (typed tree.Boolean (Value.Whole right))) }
{
    if is_comparison(operator) {
        return Ok(truth(compared(operator, left, right)));
    }
    judged(computed_truth(operator, left, right))
}

// Whether two pointers are one, null pointers too.
fn are_equal(first: Value, second: Value) -> bool
    ensures { result ≡ are_equal first second }
{
    match (first, second) {
        (Value::Null, Value::Null) => true,
        (Value::Object(one), Value::Object(other)) => {
            one.block == other.block && one.offset == other.offset
        }
        (Value::Code(one), Value::Code(other)) => one == other,
        _ => false,
    }
}

/// The cause of what is wrong with an operation on pointers.
pub fn cause_of_pointer(fault: PointerFault) -> Cause
    ensures { result ≡ cause_of_pointer fault }
{
    match fault {
        PointerFault::ToDead => Cause::Dead,
        PointerFault::LeavesObject => Cause::Offset,
        PointerFault::NotWithinOne => Cause::Apart,
        PointerFault::NoPointer => Cause::WrongCall,
    }
}

// The order of two pointers within one object.
fn ordered<'t, S: Store>(
    store: &S,
    operator: Operator,
    left: Value,
    right: Value,
) -> Result<TypedValue<'t>, Trouble>
    ensures { Finds typed_view result (ordered operator (or_cause cause_of_pointer (distance (S.memory store.now) left right))) }
{
    match distance(store, left, right) {
        Ok(bytes) => Ok(truth(compared(operator, bytes, 0))),
        Err(fault) => Err(Trouble::Wrong(cause_of_pointer(fault))),
    }
}

// An operator between two pointers to values of one type.
fn on_pointers<'t, S: Store>(
    store: &S,
    operator: Operator,
    target: &RTy,
    left: Value,
    right: Value,
) -> Result<TypedValue<'t>, Trouble>
    ensures { Finds typed_view result (of.binary_of (S.memory store.now) operator
        (typed (tree.Pointer (ty_view target.now)) left) (typed (tree.Pointer (ty_view target.now)) right)) }
{
    match operator {
        Operator::Equal => Ok(truth(are_equal(left, right))),
        Operator::NotEqual => Ok(truth(!are_equal(left, right))),
        Operator::Less => ordered(store, Operator::Less, left, right),
        Operator::LessEqual => ordered(store, Operator::LessEqual, left, right),
        Operator::Greater => ordered(store, Operator::Greater, left, right),
        Operator::GreaterEqual => ordered(store, Operator::GreaterEqual, left, right),
        _ => Err(Trouble::Wrong(Cause::WrongCall)),
    }
}

// An operator between two function pointers.
fn on_functions<'t>(
    operator: Operator,
    left: Value,
    right: Value,
) -> Result<TypedValue<'t>, Trouble>
    ensures { Finds typed_view result (of.binary_of [] operator (typed (tree.Code tree.no_tys tree.no_ty) left) (typed (tree.Code tree.no_tys tree.no_ty) right)) }
{
    match operator {
        Operator::Equal => Ok(truth(are_equal(left, right))),
        Operator::NotEqual => Ok(truth(!are_equal(left, right))),
        _ => Err(Trouble::Wrong(Cause::WrongCall)),
    }
}

// An operator between numbers, where both values are.
#[inline(always)]
fn on_numbers<'t>(
    operator: Operator,
    ty: IntegerTy,
    left: Value,
    right: Value,
) -> Result<TypedValue<'t>, Trouble>
    ensures { Finds typed_view result (of.binary_of [] operator (typed (tree.Integer ty) left) (typed (tree.Integer ty) right)) }
{
    match (left, right) {
        (Value::Whole(left), Value::Whole(right)) => on_integers(operator, ty, left, right),
        _ => Err(Trouble::Wrong(Cause::WrongCall)),
    }
}

// An operator between truth values, where both values are.
fn on_booleans<'t>(operator: Operator, left: Value, right: Value) -> Result<TypedValue<'t>, Trouble>
    ensures { Finds typed_view result (of.binary_of [] operator (typed tree.Boolean left) (typed tree.Boolean right)) }
{
    match (left, right) {
        (Value::Whole(left), Value::Whole(right)) => on_truths(operator, left, right),
        _ => Err(Trouble::Wrong(Cause::WrongCall)),
    }
}

/// What an operator between two operands gives.
#[inline(always)]
pub fn binary_of<'t, S: Store>(
    store: &S,
    operator: Operator,
    left: TypedValue<'t>,
    right: TypedValue<'t>,
) -> Result<TypedValue<'t>, Trouble>
    ensures { Finds typed_view result (of.binary_of (S.memory store.now) operator (typed_view left.entry) (typed_view right.entry)) }
{
    match left.ty {
        ValueTy::Integer(ty) => on_numbers(operator, ty, left.value, right.value),
        ValueTy::Boolean => on_booleans(operator, left.value, right.value),
        ValueTy::Pointer(target) => on_pointers(store, operator, target, left.value, right.value),
        ValueTy::Code(_, _) => on_functions(operator, left.value, right.value),
        ValueTy::Void | ValueTy::Array(_, _) | ValueTy::Record(_) => {
            Err(Trouble::Wrong(Cause::WrongCall))
        }
    }
}

/// What an operation modulo 2 to the width gives.
pub fn wrapping_of<'t>(
    operation: Wrapping,
    left: TypedValue<'t>,
    right: TypedValue<'t>,
) -> Result<TypedValue<'t>, Trouble>
    ensures { Finds typed_view result (of.wrapping_of operation (typed_view left.entry) (typed_view right.entry)) }
{
    match left.ty {
        ValueTy::Integer(ty) => wrapped_numbers(operation, ty, left.value, right.value),
        _ => Err(Trouble::Wrong(Cause::WrongCall)),
    }
}

fn wrapped_numbers<'t>(
    operation: Wrapping,
    ty: IntegerTy,
    left: Value,
    right: Value,
) -> Result<TypedValue<'t>, Trouble>
    ensures { Finds typed_view result (of.wrapping_of operation (typed (tree.Integer ty) left) (typed (tree.Integer ty) right)) }
{
    match (left, right) {
        (Value::Whole(left), Value::Whole(right)) => {
            numbered(ty, wrapping(operation, ty, left, right))
        }
        _ => Err(Trouble::Wrong(Cause::WrongCall)),
    }
}

// ---- one operand

/// An operator, a method or a cast with one operand.
#[derive(Clone, Copy)]
pub enum Unary<'t> {
    WrappingNeg,
    IsNull,
    IsNone,
    Neg,
    Not,
    /// `as` this type.
    Cast(&'t RTy),
    /// The same bits as a value of this type.
    Transmute(&'t RTy),
}

fn negated_value<'t>(ty: IntegerTy, value: Value) -> Result<TypedValue<'t>, Trouble>
    ensures { Finds typed_view result (of.neg_of (typed (tree.Integer ty) value)) }
{
    match value {
        Value::Whole(number) => numbered(ty, negated(ty, number)),
        _ => Err(Trouble::Wrong(Cause::WrongCall)),
    }
}

fn neg_of<'t>(operand: TypedValue<'t>) -> Result<TypedValue<'t>, Trouble>
    ensures { Finds typed_view result (of.neg_of (typed_view operand.entry)) }
{
    match operand.ty {
        ValueTy::Integer(ty) => negated_value(ty, operand.value),
        _ => Err(Trouble::Wrong(Cause::WrongCall)),
    }
}

fn wrapping_negated_value<'t>(ty: IntegerTy, value: Value) -> Result<TypedValue<'t>, Trouble>
    ensures { Finds typed_view result (of.wrapping_neg_of (typed (tree.Integer ty) value)) }
{
    match value {
        Value::Whole(number) => numbered(ty, wrapping_negated(ty, number)),
        _ => Err(Trouble::Wrong(Cause::WrongCall)),
    }
}

fn wrapping_neg_of<'t>(operand: TypedValue<'t>) -> Result<TypedValue<'t>, Trouble>
    ensures { Finds typed_view result (of.wrapping_neg_of (typed_view operand.entry)) }
{
    match operand.ty {
        ValueTy::Integer(ty) => wrapping_negated_value(ty, operand.value),
        _ => Err(Trouble::Wrong(Cause::WrongCall)),
    }
}

fn turned_number<'t>(ty: IntegerTy, value: Value) -> Result<TypedValue<'t>, Trouble>
    ensures { Finds typed_view result (of.not_of (typed (tree.Integer ty) value)) }
{
    match value {
        Value::Whole(number) => numbered(ty, complement(ty, number)),
        _ => Err(Trouble::Wrong(Cause::WrongCall)),
    }
}

fn turned_truth<'t>(value: Value) -> Result<TypedValue<'t>, Trouble>
    ensures { Finds typed_view result (of.not_of (typed tree.Boolean value)) }
{
    match value {
        Value::Whole(number) => Ok(truth(number == 0)),
        _ => Err(Trouble::Wrong(Cause::WrongCall)),
    }
}

fn not_of<'t>(operand: TypedValue<'t>) -> Result<TypedValue<'t>, Trouble>
    ensures { Finds typed_view result (of.not_of (typed_view operand.entry)) }
{
    match operand.ty {
        ValueTy::Integer(ty) => turned_number(ty, operand.value),
        ValueTy::Boolean => turned_truth(operand.value),
        _ => Err(Trouble::Wrong(Cause::WrongCall)),
    }
}

fn is_null_of<'t>(operand: TypedValue<'t>) -> Result<TypedValue<'t>, Trouble>
    ensures { Finds typed_view result (of.is_null_of (typed_view operand.entry)) }
{
    match operand.ty {
        ValueTy::Pointer(_) => Ok(truth(is_null(operand.value))),
        _ => Err(Trouble::Wrong(Cause::WrongCall)),
    }
}

fn is_none_of<'t>(operand: TypedValue<'t>) -> Result<TypedValue<'t>, Trouble>
    ensures { Finds typed_view result (of.is_none_of (typed_view operand.entry)) }
{
    match operand.ty {
        ValueTy::Code(_, _) => Ok(truth(is_null(operand.value))),
        _ => Err(Trouble::Wrong(Cause::WrongCall)),
    }
}

fn is_null(value: Value) -> bool
    ensures { result ≡ is_null value }
{
    matches!(value, Value::Null)
}

fn converted_value<'t>(ty: IntegerTy, value: Value) -> Result<TypedValue<'t>, Trouble>
    ensures { Finds typed_view result (of.cast_of (tree.Integer ty) (typed tree.Boolean value)) }
{
    match value {
        Value::Whole(number) => Ok(integer(ty, converted_to(ty, number))),
        _ => Err(Trouble::Wrong(Cause::WrongCall)),
    }
}

fn cast_to_integer<'t>(ty: IntegerTy, operand: TypedValue<'t>) -> Result<TypedValue<'t>, Trouble>
    ensures { Finds typed_view result (of.cast_of (tree.Integer ty) (typed_view operand.entry)) }
{
    match operand.ty {
        ValueTy::Integer(_) => converted_value(ty, operand.value),
        ValueTy::Boolean => converted_value(ty, operand.value),
        ValueTy::Void
        | ValueTy::Pointer(_)
        | ValueTy::Array(_, _)
        | ValueTy::Code(_, _)
        | ValueTy::Record(_) => Err(Trouble::Wrong(Cause::WrongCall)),
    }
}

fn cast_to_pointer<'t>(target: &'t RTy, operand: TypedValue<'t>) -> Result<TypedValue<'t>, Trouble>
    ensures { Finds typed_view result (of.cast_of (tree.Pointer (ty_view target.now)) (typed_view operand.entry)) }
{
    match operand.ty {
        ValueTy::Pointer(_) => Ok(TypedValue {
            ty: ValueTy::Pointer(target),
            value: operand.value,
        }),
        ValueTy::Integer(_)
        | ValueTy::Boolean
        | ValueTy::Void
        | ValueTy::Array(_, _)
        | ValueTy::Code(_, _)
        | ValueTy::Record(_) => Err(Trouble::Wrong(Cause::WrongCall)),
    }
}

fn cast_of<'t>(ty: &'t RTy, operand: TypedValue<'t>) -> Result<TypedValue<'t>, Trouble>
    ensures { Finds typed_view result (of.cast_of (ty_view ty.now) (typed_view operand.entry)) }
{
    match ty {
        RTy::Integer(ty) => cast_to_integer(*ty, operand),
        RTy::Pointer(target) => cast_to_pointer(target.get(), operand),
        RTy::Boolean | RTy::Void | RTy::Array(_, _) | RTy::Code(_, _) | RTy::Record(_) => {
            not_cast(operand.ty)
        }
    }
}

fn transmuted<'t>(to: &'t RTy, operand: TypedValue<'t>) -> Result<TypedValue<'t>, Trouble>
    ensures { Finds typed_view result (of.transmuted (ty_view to.now) (typed_view operand.entry)) }
{
    match operand.ty {
        ValueTy::Code(_, _) => as_code(to, operand.value),
        _ => Err(Trouble::Wrong(Cause::WrongCall)),
    }
}

/// What an operator, a method or a cast with one operand gives.
pub fn unary_of<'t>(operator: Unary<'t>, operand: TypedValue<'t>) -> Result<TypedValue<'t>, Trouble>
    ensures { Finds typed_view result (unary_of operator.entry (typed_view operand.entry)) }
{
    match operator {
        Unary::WrappingNeg => wrapping_neg_of(operand),
        Unary::IsNull => is_null_of(operand),
        Unary::IsNone => is_none_of(operand),
        Unary::Neg => neg_of(operand),
        Unary::Not => not_of(operand),
        Unary::Cast(ty) => cast_of(ty, operand),
        Unary::Transmute(to) => transmuted(to, operand),
    }
}

// ---- pointers

fn moved_by<'t, S: Store>(
    store: &S,
    target: &'t RTy,
    at: Value,
    bytes: Int,
) -> Result<TypedValue<'t>, Trouble>
    ensures { Finds typed_view result (pointing (ty_view target.now) (or_cause cause_of_pointer (moved (S.memory store.now) at bytes))) }
{
    match moved(store, at, bytes) {
        Ok(value) => Ok(TypedValue {
            ty: ValueTy::Pointer(target),
            value,
        }),
        Err(fault) => Err(Trouble::Wrong(cause_of_pointer(fault))),
    }
}

fn offset_by<'t, S: Store>(
    store: &S,
    target: &'t RTy,
    laid: Option<Laid>,
    at: Value,
    count: Value,
) -> Result<TypedValue<'t>, Trouble>
    ensures { Finds typed_view result (offset_by (S.memory store.now) (ty_view target.now) laid at count) }
{
    let Some(laid) = laid else {
        return Err(Trouble::Wrong(Cause::WrongCall));
    };
    let Value::Whole(count) = count else {
        return Err(Trouble::Wrong(Cause::WrongCall));
    };
    match count.checked_mul(Int::from(laid.size)) {
        Some(bytes) => moved_by(store, target, at, bytes),
        None => Err(Trouble::Memory),
    }
}

/// A pointer moved by so many values of its target.
pub fn offset_of<'t, S: Store>(
    store: &S,
    modules: &[Module],
    operand: TypedValue<'t>,
    count: TypedValue<'t>,
) -> Result<TypedValue<'t>, Trouble>
    requires { ModulesAreAligned (map module_view modules.now) }
    ensures { Finds typed_view result (of.offset_of (laid_of (map module_view modules.now)) (S.memory store.now) (typed_view operand.entry) (typed_view count.entry)) }
{
    match operand.ty {
        ValueTy::Pointer(target) => offset_by(
            store,
            target,
            laid_of(modules, target),
            operand.value,
            count.value,
        ),
        _ => Err(Trouble::Wrong(Cause::WrongCall)),
    }
}

fn apart_by<'t, S: Store>(
    store: &S,
    laid: Option<Laid>,
    first: Value,
    second: Value,
) -> Result<TypedValue<'t>, Trouble>
    ensures { Finds typed_view result (apart_by (S.memory store.now) laid first second) }
{
    let Some(laid) = laid else {
        return Err(Trouble::Wrong(Cause::WrongCall));
    };
    if laid.size == 0 {
        return Err(Trouble::Memory);
    }
    match difference(store, laid.size, first, second) {
        Ok(count) => numbered(IntegerTy::Isize, Ok(count)),
        Err(fault) => Err(Trouble::Wrong(cause_of_pointer(fault))),
    }
}

/// How many values of its target a pointer is behind another.
pub fn offset_from_of<'t, S: Store>(
    store: &S,
    modules: &[Module],
    operand: TypedValue<'t>,
    other: TypedValue<'t>,
) -> Result<TypedValue<'t>, Trouble>
    requires { ModulesAreAligned (map module_view modules.now) }
    ensures { Finds typed_view result (of.offset_from_of (laid_of (map module_view modules.now)) (S.memory store.now) (typed_view operand.entry) (typed_view other.entry)) }
{
    match operand.ty {
        ValueTy::Pointer(target) => {
            apart_by(store, laid_of(modules, target), operand.value, other.value)
        }
        _ => Err(Trouble::Wrong(Cause::WrongCall)),
    }
}

// ---- tests

/// What a condition says.
///
/// # Errors
///
/// `WrongCall` where it is no truth value.
pub fn test_of(operand: TypedValue<'_>) -> Result<bool, Cause>
    ensures { result ≡ of.test_of (typed_view operand.entry) }
{
    match operand.ty {
        ValueTy::Boolean => is_true(operand.value),
        _ => Err(Cause::WrongCall),
    }
}

fn is_true(value: Value) -> Result<bool, Cause>
    ensures { result ≡ of.test_of (typed tree.Boolean value) }
{
    match value {
        Value::Whole(number) => Ok(number != 0),
        _ => Err(Cause::WrongCall),
    }
}

fn not_cast<'t>(_from: ValueTy<'_>) -> Result<TypedValue<'t>, Trouble>
    ensures { Finds typed_view result (Err Cause.WrongCall) }
{
    Err(Trouble::Wrong(Cause::WrongCall))
}

// A function pointer as one of another type.
fn as_code<'t>(to: &'t RTy, value: Value) -> Result<TypedValue<'t>, Trouble>
    ensures { Finds typed_view result (of.transmuted (ty_view to.now) (typed (tree.Code tree.no_tys tree.no_ty) value)) }
{
    match to {
        RTy::Code(params, given) => Ok(TypedValue {
            ty: ValueTy::Code(params.as_slice(), result_ty(given)),
            value,
        }),
        _ => Err(Trouble::Wrong(Cause::WrongCall)),
    }
}
