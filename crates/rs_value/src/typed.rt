//! Values with their types, and places.

ghost use Rattle.std.specs.Prelude.{◌≡◌, option_map};
ghost use Rattle.std.specs.Option.{option_copied};
ghost use Rattle.rs_mean.specs.Scalars.{alike, integer_number, same_integer};
ghost use Rattle.rs_text.specs.Tree as tree;
ghost use Rattle.rs_tree.specs.Views.{ty_view};
ghost use Rattle.rs_value.specs.Views.{value_ty_view};

use cr_base::{Boxed, Items};
use mem_bytes::Value;
use rs_tree::{IntegerTy, RPath, RTy};

/// The type of a value, of which the parts are the crate's own (the Rust Reference, "Type system").
#[derive(Clone, Copy)]
pub enum ValueTy<'t> {
    Integer(IntegerTy),
    Boolean,
    Void,
    /// A pointer to a value of this type.
    Pointer(&'t RTy),
    /// So many values of this type.
    Array(&'t RTy, u64),
    /// A pointer to a function, by the types of its parameters and that of its result, if it has one.
    Code(&'t [RTy], Option<&'t RTy>),
    Record(&'t RPath),
}

/// A value and its type.
#[derive(Clone, Copy)]
pub struct TypedValue<'t> {
    pub ty: ValueTy<'t>,
    pub value: Value,
}

/// A place: a pointer, which may be null, to a value of a type, and whether its base is aligned, which is
/// what the last `*` on the way to it points to.
#[derive(Clone, Copy)]
pub struct ValueSpot<'t> {
    pub ty: &'t RTy,
    pub at: Value,
    pub is_based: bool,
}

/// The type of a result, if there is one.
pub fn result_ty(given: &Option<Boxed<RTy>>) -> Option<&RTy>
    ensures { option_copied result ≡ given.now }
{
    match given {
        Some(ty) => Some(ty.get()),
        None => None,
    }
}

/// The type of the values of a type.
#[inline(always)]
pub fn value_ty(ty: &RTy) -> ValueTy<'_>
    ensures { value_ty_view result ≡ ty_view ty.now }
{
    match ty {
        RTy::Integer(ty) => ValueTy::Integer(*ty),
        RTy::Boolean => ValueTy::Boolean,
        RTy::Void => ValueTy::Void,
        RTy::Pointer(target) => ValueTy::Pointer(target.get()),
        RTy::Array(element, size) => ValueTy::Array(element.get(), *size),
        RTy::Code(params, given) => ValueTy::Code(params.as_slice(), result_ty(given)),
        RTy::Record(path) => ValueTy::Record(path),
    }
}

// Whether two integer types are one.
fn same_integer(one: IntegerTy, other: IntegerTy) -> bool
    ensures { result ≡ same_integer one other }
{
    integer_number(one) == integer_number(other)
}

// A number by which an integer type is told from the others.
fn integer_number(ty: IntegerTy) -> u32
    ensures { result ≡ integer_number ty }
{
    match ty {
        IntegerTy::I8 => 0,
        IntegerTy::I16 => 1,
        IntegerTy::I32 => 2,
        IntegerTy::I64 => 3,
        IntegerTy::U8 => 4,
        IntegerTy::U16 => 5,
        IntegerTy::U32 => 6,
        IntegerTy::U64 => 7,
        IntegerTy::Isize => 8,
        IntegerTy::Usize => 9,
    }
}

/// Whether a value of a type may be passed for a parameter of another.
pub fn alike(param: &RTy, ty: ValueTy<'_>) -> bool
    ensures { result ≡ alike (ty_view param.now) (value_ty_view ty.entry) }
{
    match param {
        RTy::Integer(one) => is_integer(*one, ty),
        RTy::Boolean => matches!(ty, ValueTy::Boolean),
        RTy::Pointer(_) => matches!(ty, ValueTy::Pointer(_)),
        RTy::Code(_, _) => matches!(ty, ValueTy::Code(_, _)),
        RTy::Void | RTy::Array(_, _) | RTy::Record(_) => false,
    }
}

fn is_integer(one: IntegerTy, ty: ValueTy<'_>) -> bool
    ensures { result ≡ alike (tree.Integer one) (value_ty_view ty.entry) }
{
    match ty {
        ValueTy::Integer(other) => same_integer(one, other),
        _ => false,
    }
}
