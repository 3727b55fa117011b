//! Loads of bit-fields (ISO C99, 6.3.2.1p2). Each is refused only for want of memory.

ghost use Rattle.std.specs.Prelude.{◌≡◌, ◌+◌, ◌≤◌, IfOk};
ghost use Rattle.lift_forms.specs.BitFields.{word, bytes_word, more_bytes, shifted_word, unsigned_read, half, signed_read, bit_read};
ghost use Rattle.mem_bytes.specs.Calls.{IsFieldPlace};
ghost use Rattle.rs_text.specs.Tree as tree;
ghost use Rattle.rs_text.specs.declared.operator.Operator.TheVariants as rust;
ghost use Rattle.rs_tree.specs.Views.{expr_view};

use crate::bytes::{byte_word, integer_as, low_bits, power, shifted_right, word};
use cr_base::{Boxed, Int, Memory, Spot};
use rs_makers::{binary, literal};
use rs_tree::{IntegerTy, Operator, RExpr};
use std::alloc::Global;

/// How many bytes a bit-field touches behind the first one.
pub(crate) fn more_bytes(spot: Spot) -> u32
    requires { IsFieldPlace spot.bit spot.width }
    ensures { result ≡ more_bytes spot }
{
    (spot.bit + spot.width - 1) / 8
}

// A byte, and those behind it as a number times 256.
fn joined(alloc: Global, lowest: Boxed<RExpr>, others: Boxed<RExpr>) -> Result<Boxed<RExpr>, Memory>
    ensures { IfOk result (λ made. expr_view made ≡ tree.Binary (expr_view lowest) rust.Add (tree.Binary (expr_view others) rust.Mul (word 256))) }
{
    let base = word(alloc, 256)?;
    let raised = binary(alloc, others, Operator::Mul, base)?;
    binary(alloc, lowest, Operator::Add, raised)
}

// The number of the bytes from one on, the lowest first, of which `more` stand behind that one.
#[tactic(auto, using(crate::proofs::Steps::more_words))]
fn bytes_word(
    alloc: Global,
    base: &RExpr,
    first: u64,
    behind: u32,
    more: u32,
) -> Result<Boxed<RExpr>, Memory>
    requires { behind + more ≤ 5 }
    ensures { IfOk result (λ made. expr_view made ≡ bytes_word (expr_view base.now) (first + behind) more) }
{
    let lowest = byte_word(alloc, base, first, behind)?;
    if more == 0 {
        return Ok(lowest);
    }
    let others = bytes_word(alloc, base, first, behind + 1, more - 1)?;
    joined(alloc, lowest, others)
}

// The bits of the field and those above them.
fn shifted_word(alloc: Global, base: &RExpr, spot: Spot) -> Result<Boxed<RExpr>, Memory>
    requires { IsFieldPlace spot.bit spot.width }
    ensures { IfOk result (λ made. expr_view made ≡ shifted_word (expr_view base.now) spot) }
{
    let bytes = bytes_word(alloc, base, spot.byte, 0, more_bytes(spot))?;
    shifted_right(alloc, bytes, spot.bit)
}

fn unsigned_read(alloc: Global, base: &RExpr, spot: Spot) -> Result<Boxed<RExpr>, Memory>
    requires { IsFieldPlace spot.bit spot.width }
    ensures { IfOk result (λ made. expr_view made ≡ unsigned_read (expr_view base.now) spot) }
{
    let bits = shifted_word(alloc, base, spot)?;
    low_bits(alloc, bits, spot.width)
}

// Half of the numbers that fit in the bit-field.
fn half(spot: Spot) -> u64
    requires { IsFieldPlace spot.bit spot.width }
    ensures { result ≡ half spot }
{
    power(spot.width - 1)
}

fn signed_read(alloc: Global, base: &RExpr, spot: Spot) -> Result<Boxed<RExpr>, Memory>
    requires { IsFieldPlace spot.bit spot.width }
    ensures { IfOk result (λ made. expr_view made ≡ signed_read (expr_view base.now) spot) }
{
    let bits = shifted_word(alloc, base, spot)?;
    let up = word(alloc, half(spot))?;
    let raised = binary(alloc, bits, Operator::Add, up)?;
    let rest = low_bits(alloc, raised, spot.width)?;
    let number = integer_as(alloc, IntegerTy::I64, rest)?;
    let down = literal(alloc, Int::from(half(spot)), IntegerTy::I64)?;
    binary(alloc, number, Operator::Sub, down)
}

fn signed_or_not(
    alloc: Global,
    base: &RExpr,
    spot: Spot,
    signed: bool,
) -> Result<Boxed<RExpr>, Memory>
    requires { IsFieldPlace spot.bit spot.width }
    ensures { IfOk result (λ made. expr_view made ≡ bit_read (expr_view base.now) spot signed) }
{
    if signed {
        signed_read(alloc, base, spot)
    } else {
        unsigned_read(alloc, base, spot)
    }
}

/// The value of a bit-field in the object that an address points to: a `u64`, and with a sign an `i64`.
pub fn bit_read(alloc: Global, base: &RExpr, spot: Spot, signed: bool) -> Result<RExpr, Memory>
    requires { IsFieldPlace spot.bit spot.width }
    ensures { IfOk result (λ made. expr_view made ≡ bit_read (expr_view base.now) spot signed) }
{
    Ok(signed_or_not(alloc, base, spot, signed)?.into_inner())
}
