//! Equal types (the Rust Reference, "Type system").

ghost use Rattle.std.specs.Prelude.{◌≡◌, ◌&&◌, bytes_eq, map, option_map};
ghost use Rattle.rs_mean.specs.Scalars.{integer_number, is_signed_integer, same_integer, same_type, same_types, same_results};
ghost use Rattle.rs_text.specs.Tree as tree;
ghost use Rattle.rs_text.specs.Tree.{tys, option_ty};
ghost use Rattle.rs_tree.specs.Views.{ty_view};

use cr_base::{Boxed, Items};
use rs_tree::{IntegerTy, RPath, RTy};

// A number by which an integer type is told from the others.
fn integer_number(ty: IntegerTy) -> u32
    ensures { result ≡ integer_number ty }
{
    match ty {
        IntegerTy::I8 => 0,
        IntegerTy::I16 => 1,
        IntegerTy::I32 => 2,
        IntegerTy::I64 => 3,
        IntegerTy::U8 => 4,
        IntegerTy::U16 => 5,
        IntegerTy::U32 => 6,
        IntegerTy::U64 => 7,
        IntegerTy::Isize => 8,
        IntegerTy::Usize => 9,
    }
}

pub fn same_integer(one: IntegerTy, other: IntegerTy) -> bool
    ensures { result ≡ same_integer one other }
{
    integer_number(one) == integer_number(other)
}

pub fn is_signed_integer(ty: IntegerTy) -> bool
    ensures { result ≡ is_signed_integer ty }
{
    matches!(
        ty,
        IntegerTy::I8 | IntegerTy::I16 | IntegerTy::I32 | IntegerTy::I64 | IntegerTy::Isize
    )
}

pub fn same_path(one: &RPath, other: &RPath) -> bool
    ensures { result ≡ (bytes_eq one.now.home other.now.home && bytes_eq one.now.name other.now.name) }
{
    one.home.bytes() == other.home.bytes() && one.name.bytes() == other.name.bytes()
}

pub fn is_integer_of(ty: IntegerTy, other: &RTy) -> bool
    ensures { result ≡ same_type (tree.Integer ty) (ty_view other.now) }
{
    match other {
        RTy::Integer(other) => same_integer(ty, *other),
        _ => false,
    }
}

fn is_boolean(other: &RTy) -> bool
    ensures { result ≡ same_type tree.Boolean (ty_view other.now) }
{
    matches!(other, RTy::Boolean)
}

fn is_void(other: &RTy) -> bool
    ensures { result ≡ same_type tree.Void (ty_view other.now) }
{
    matches!(other, RTy::Void)
}

fn is_record_of(path: &RPath, other: &RTy) -> bool
    ensures { result ≡ same_type (tree.Record path.now.home path.now.name) (ty_view other.now) }
{
    match other {
        RTy::Record(other) => same_path(path, other),
        _ => false,
    }
}

#[cycle(same)]
fn is_pointer_of(target: &Boxed<RTy>, other: &RTy) -> bool
    ensures { result ≡ same_type (tree.Pointer (ty_view target.now)) (ty_view other.now) }
{
    match other {
        RTy::Pointer(other) => same_type(target.get(), other.get()),
        _ => false,
    }
}

#[cycle(same)]
fn is_array_of(element: &Boxed<RTy>, size: u64, other: &RTy) -> bool
    ensures { result ≡ same_type (tree.Array (ty_view element.now) size) (ty_view other.now) }
{
    match other {
        RTy::Array(other, other_size) => {
            same_type(element.get(), other.get()) && size == *other_size
        }
        _ => false,
    }
}

/// Whether two types are equal.
#[cycle(same)]
pub fn same_type(one: &RTy, other: &RTy) -> bool
    ensures { result ≡ same_type (ty_view one.now) (ty_view other.now) }
{
    match one {
        RTy::Integer(ty) => is_integer_of(*ty, other),
        RTy::Boolean => is_boolean(other),
        RTy::Void => is_void(other),
        RTy::Pointer(target) => is_pointer_of(target, other),
        RTy::Array(element, size) => is_array_of(element, *size, other),
        RTy::Code(params, given) => match other {
            RTy::Code(other_params, other_given) => {
                same_types(params, other_params) && same_results(given, other_given)
            }
            _ => false,
        },
        RTy::Record(path) => is_record_of(path, other),
    }
}

#[cycle(same)]
pub fn same_types(ones: &Items<RTy>, others: &Items<RTy>) -> bool
    ensures { result ≡ same_types (tys (map ty_view ones.now)) (tys (map ty_view others.now)) }
{
    let mut left = others.as_slice();
    for one in ones.as_slice() {
        let Some((other, rest)) = left.split_first() else {
            return false;
        };
        if !same_type(one, other) {
            return false;
        }
        left = rest;
    }
    match left.split_first() {
        None => true,
        Some(_) => false,
    }
}

#[cycle(same)]
pub fn same_results(one: &Option<Boxed<RTy>>, other: &Option<Boxed<RTy>>) -> bool
    ensures { result ≡ same_results (option_ty (option_map ty_view one.now)) (option_ty (option_map ty_view other.now)) }
{
    match (one, other) {
        (None, None) => true,
        (Some(one), Some(other)) => same_type(one.get(), other.get()),
        _ => false,
    }
}
