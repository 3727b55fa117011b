//! Stores in bit-fields (ISO C99, 6.5.16.1p2). Each is refused only for want of memory.

ghost use Rattle.std.specs.Prelude.{◌≡◌, suc, ◌+◌, ◌-◌, ◌≤◌, ◌++◌, map, IfOk, OnOk};
ghost use Rattle.lift_forms.specs.BitFields.{byte_word, more_bytes, bits_above, bits_placed, bits_below, byte_write, more_writes, bit_write};
ghost use Rattle.mem_bytes.specs.Calls.{IsFieldPlace};
ghost use Rattle.rs_text.specs.Tree as tree;
ghost use Rattle.rs_text.specs.declared.integer.IntegerTy.TheVariants.{U64};
ghost use Rattle.rs_text.specs.declared.operator.Operator.TheVariants as rust;
ghost use Rattle.rs_tree.specs.Views.{expr_view, stmt_view};

use crate::bytes::{byte_place, byte_word, integer_as, low_bits, shifted_left, shifted_right};
use crate::reads::more_bytes;
use cr_base::{Boxed, Items, Memory, Spot};
use rs_makers::{binary, copy_expr};
use rs_tree::{IntegerTy, Operator, RExpr, RStmt};
use std::alloc::Global;

// Which bits of a value are stored in a byte, and from which of its bits on.
#[derive(Clone, Copy)]
struct Placed {
    from: u32,
    count: u32,
    bit: u32,
}

// The bits of a byte from one on, where they stand.
fn bits_above(alloc: Global, old: Boxed<RExpr>, bit: u32) -> Result<Boxed<RExpr>, Memory>
    ensures { IfOk result (λ made. expr_view made ≡ bits_above (expr_view old) bit) }
{
    let down = shifted_right(alloc, old, bit)?;
    shifted_left(alloc, down, bit)
}

fn bits_placed(alloc: Global, value: Boxed<RExpr>, placed: Placed) -> Result<Boxed<RExpr>, Memory>
    requires { placed.count ≤ 8 }
    ensures { IfOk result (λ made. expr_view made ≡ bits_placed (expr_view value) placed.from placed.count placed.bit) }
{
    let left = shifted_right(alloc, value, placed.from)?;
    let bits = low_bits(alloc, left, placed.count)?;
    shifted_left(alloc, bits, placed.bit)
}

fn bits_below(alloc: Global, old: Boxed<RExpr>, bit: u32) -> Result<Boxed<RExpr>, Memory>
    requires { bit ≤ 8 }
    ensures { IfOk result (λ made. expr_view made ≡ bits_below (expr_view old) bit) }
{
    low_bits(alloc, old, bit)
}

// The number to store, as a `u64`.
fn as_word(alloc: Global, value: &RExpr) -> Result<Boxed<RExpr>, Memory>
    ensures { IfOk result (λ made. expr_view made ≡ tree.Cast (expr_view value.now) (tree.Integer U64)) }
{
    let value = copy_expr(alloc, value)?;
    integer_as(alloc, IntegerTy::U64, value)
}

// The byte with those bits of the value in it, as a number.
fn with_bits(
    alloc: Global,
    base: &RExpr,
    value: &RExpr,
    first: u64,
    behind: u32,
    placed: Placed,
) -> Result<Boxed<RExpr>, Memory>
    requires { placed.bit + placed.count ≤ 8 }
    ensures { IfOk result (λ made. expr_view made ≡ tree.Binary
        (tree.Binary (bits_above (byte_word (expr_view base.now) (first + behind)) (placed.bit + placed.count)) rust.Add
        (bits_placed (tree.Cast (expr_view value.now) (tree.Integer U64)) placed.from placed.count placed.bit)) rust.Add
        (bits_below (byte_word (expr_view base.now) (first + behind)) placed.bit)) }
{
    let old = byte_word(alloc, base, first, behind)?;
    let above = bits_above(alloc, old, placed.bit + placed.count)?;
    let word = as_word(alloc, value)?;
    let new = bits_placed(alloc, word, placed)?;
    let upper = binary(alloc, above, Operator::Add, new)?;
    let again = byte_word(alloc, base, first, behind)?;
    let below = bits_below(alloc, again, placed.bit)?;
    binary(alloc, upper, Operator::Add, below)
}

fn byte_write(
    alloc: Global,
    base: &RExpr,
    value: &RExpr,
    first: u64,
    behind: u32,
    placed: Placed,
) -> Result<RStmt, Memory>
    requires { placed.bit + placed.count ≤ 8 }
    ensures { IfOk result (λ made. stmt_view made ≡ byte_write (expr_view base.now) (tree.Cast (expr_view value.now) (tree.Integer U64)) (first + behind) placed.from placed.count placed.bit) }
{
    let number = with_bits(alloc, base, value, first, behind, placed)?;
    let byte = integer_as(alloc, IntegerTy::U8, number)?;
    let place = byte_place(alloc, base, first, behind)?;
    Ok(RStmt::Assign(place, byte))
}

// The bytes behind the first, in which `width` bits of the value from `from` on are stored.
fn more_writes(
    alloc: Global,
    made: &mut Items<RStmt>,
    base: &RExpr,
    value: &RExpr,
    spot: Spot,
    first: u32,
) -> Result<(), Memory>
    requires place { IsFieldPlace spot.bit spot.width }
    requires within { first ≤ spot.width }
    ensures { OnOk result (map stmt_view made.new ≡ map stmt_view made.old ++ more_writes (expr_view base.now) (tree.Cast (expr_view value.now) (tree.Integer U64)) (suc spot.byte) first (spot.width - first) (more_bytes spot)) }
{
    let mut from = first;
    let mut left = spot.width - first;
    for behind in 0..more_bytes(spot) {
        let count = 8u32.min(left);
        let placed = Placed {
            from,
            count,
            bit: 0,
        };
        made.push(byte_write(alloc, base, value, spot.byte, behind + 1, placed)?)?;
        from += count;
        left -= count;
    }
    Ok(())
}

/// Stores a value, modulo 2 to its width, in a bit-field of the object that an address points to; each byte keeps its other bits.
pub fn bit_write(
    alloc: Global,
    base: &RExpr,
    spot: Spot,
    value: &RExpr,
) -> Result<Items<RStmt>, Memory>
    requires { IsFieldPlace spot.bit spot.width }
    ensures { IfOk result (λ made. map stmt_view made ≡ bit_write (expr_view base.now) spot (expr_view value.now)) }
{
    let count = (8 - spot.bit).min(spot.width);
    let placed = Placed {
        from: 0,
        count,
        bit: spot.bit,
    };
    let mut made = Items::new(alloc);
    made.push(byte_write(alloc, base, value, spot.byte, 0, placed)?)?;
    more_writes(alloc, &mut made, base, value, spot, count)?;
    Ok(made)
}
