//! The bytes behind an address, and numbers of 64 bits. Each is refused only for want of memory.

ghost use Rattle.std.specs.Prelude.{◌≡◌, ◌+◌, ◌≤◌, ◌^◌, pos, IfOk};
ghost use Rattle.lift_forms.specs.BitFields.{word, byte_place, byte_word};
ghost use Rattle.rs_text.specs.Tree as tree;
ghost use Rattle.rs_text.specs.declared.integer.IntegerTy.TheVariants.{U8, U32};
ghost use Rattle.rs_text.specs.declared.operator.Operator.TheVariants as rust;
ghost use Rattle.rs_tree.specs.Views.{ty_view, place_view, expr_view};

use cr_base::{Boxed, Int, Memory};
use rs_makers::{binary, cast, copy_expr, literal, offset, read, target};
use rs_tree::{IntegerTy, Operator, RExpr, RPlace, RTy};
use std::alloc::Global;

// ---- types and literals

pub(crate) fn integer(alloc: Global, which: IntegerTy) -> Result<Boxed<RTy>, Memory>
    ensures { IfOk result (λ made. ty_view made ≡ tree.Integer which) }
{
    Boxed::new(alloc, RTy::Integer(which))
}

// `*mut u8`
fn byte_pointer(alloc: Global) -> Result<Boxed<RTy>, Memory>
    ensures { IfOk result (λ made. ty_view made ≡ tree.Pointer (tree.Integer U8)) }
{
    let byte = integer(alloc, IntegerTy::U8)?;
    Boxed::new(alloc, RTy::Pointer(byte))
}

/// An expression as an integer of a type.
pub fn integer_as(alloc: Global, which: IntegerTy, e: Boxed<RExpr>) -> Result<Boxed<RExpr>, Memory>
    ensures { IfOk result (λ made. expr_view made ≡ tree.Cast (expr_view e) (tree.Integer which)) }
{
    let to = integer(alloc, which)?;
    cast(alloc, e, to)
}

/// A number of the type in which bytes are put together.
pub fn word(alloc: Global, number: u64) -> Result<Boxed<RExpr>, Memory>
    ensures { IfOk result (λ made. expr_view made ≡ word number) }
{
    literal(alloc, Int::from(number), IntegerTy::U64)
}

/// 2 to a power.
pub fn power(bits: u32) -> u64
    requires { bits ≤ 32 }
    ensures { result ≡ 2 ^ bits }
{
    1u64 << bits
}

// ---- operators

/// What is left of an expression after division by a power of two: so many of its lowest bits.
pub fn low_bits(alloc: Global, e: Boxed<RExpr>, bits: u32) -> Result<Boxed<RExpr>, Memory>
    requires { bits ≤ 32 }
    ensures { IfOk result (λ made. expr_view made ≡ tree.Binary (expr_view e) rust.Rem (word (2 ^ bits))) }
{
    let modulus = word(alloc, power(bits))?;
    binary(alloc, e, Operator::Rem, modulus)
}

/// `o >> bits`.
pub(crate) fn shifted_right(
    alloc: Global,
    e: Boxed<RExpr>,
    bits: u32,
) -> Result<Boxed<RExpr>, Memory>
    ensures { IfOk result (λ made. expr_view made ≡ tree.Binary (expr_view e) rust.Shr (tree.Literal (pos bits) U32)) }
{
    let count = literal(alloc, Int::from(bits), IntegerTy::U32)?;
    binary(alloc, e, Operator::Shr, count)
}

/// `o << bits`.
pub(crate) fn shifted_left(
    alloc: Global,
    e: Boxed<RExpr>,
    bits: u32,
) -> Result<Boxed<RExpr>, Memory>
    ensures { IfOk result (λ made. expr_view made ≡ tree.Binary (expr_view e) rust.Shl (tree.Literal (pos bits) U32)) }
{
    let count = literal(alloc, Int::from(bits), IntegerTy::U32)?;
    binary(alloc, e, Operator::Shl, count)
}

// ---- bytes

/// The byte that stands so many bytes behind an address, as a place: that of the first of a bit-field, and those behind it.
pub(crate) fn byte_place(
    alloc: Global,
    base: &RExpr,
    first: u64,
    behind: u32,
) -> Result<Boxed<RPlace>, Memory>
    ensures { IfOk result (λ made. place_view made ≡ byte_place (expr_view base.now) (first + behind)) }
{
    let base = copy_expr(alloc, base)?;
    let bytes = byte_pointer(alloc)?;
    let address = cast(alloc, base, bytes)?;
    let index = literal(
        alloc,
        Int::from(first) + Int::from(behind),
        IntegerTy::Isize,
    )?;
    let moved = offset(alloc, address, index)?;
    target(alloc, moved)
}

/// The same byte as a number.
pub(crate) fn byte_word(
    alloc: Global,
    base: &RExpr,
    first: u64,
    behind: u32,
) -> Result<Boxed<RExpr>, Memory>
    ensures { IfOk result (λ made. expr_view made ≡ byte_word (expr_view base.now) (first + behind)) }
{
    let place = byte_place(alloc, base, first, behind)?;
    let byte = read(alloc, place)?;
    integer_as(alloc, IntegerTy::U64, byte)
}
