//! How an object becomes zero (ISO C99, 6.7.8p10, p21). Each maker is refused only for want of memory.

ghost use Rattle.std.specs.Prelude.{◌≡◌, pos, map, [], ◌∷◌, ◌++◌, IfOk, OnOk};
ghost use Rattle.cx_core.specs.Views.{view_type};
ghost use Rattle.lift_exprs.specs.Objects.{doubled, zeroed_bytes, zeroed};
ghost use Rattle.lift_forms.specs.Given as given;
ghost use Rattle.lift_forms.specs.Operators as operators;
ghost use Rattle.rs_mean.specs.Scalars.{is_scalar};
ghost use Rattle.lift_exprs.specs.Written as written;
ghost use Rattle.lift_stores.specs.Names.{lift_names};
ghost use Rattle.rs_items.specs.Known.{view_names};
ghost use Rattle.rs_text.specs.Tree as tree;
ghost use Rattle.rs_text.specs.declared.integer.IntegerTy.TheVariants.{U8, Isize, Usize};
ghost use Rattle.rs_tree.specs.Views.{ty_view, place_view, expr_view, stmt_view};

use cr_base::{Boxed, Int, Items, Memory};
use cx_core::Ty;
use lift_forms_code::{address_of, zero_of};
use lift_stores::{as_bytes, assign, one_stmt, type_in};
use rs_items::{NameMap, size_of};
use rs_makers::{copy_expr, literal, offset, target};
use rs_tree::{IntegerTy, RExpr, RPlace, RStmt, RTy};
use std::alloc::Global;

/// Objects have at most 2 to this power bytes.
const MOST_DOUBLINGS: u32 = 24;

fn bytes_of(alloc: Global, address: &RExpr) -> Result<Boxed<RExpr>, Memory>
    ensures { IfOk result (λ made. expr_view made ≡ written.as_bytes (expr_view address.now)) }
{
    let address = copy_expr(alloc, address)?;
    as_bytes(alloc, address)
}

// As many bytes behind an address as are zero.
fn bytes_behind(alloc: Global, address: &RExpr, done: u64) -> Result<Boxed<RExpr>, Memory>
    ensures { IfOk result (λ made. expr_view made ≡ tree.Offset (written.as_bytes (expr_view address.now)) (tree.Literal (pos done) Isize)) }
{
    let bytes = bytes_of(alloc, address)?;
    let count = literal(alloc, Int::from(done), IntegerTy::Isize)?;
    offset(alloc, bytes, count)
}

// Bytes that are zero are copied behind themselves.
fn doubling(alloc: Global, address: &RExpr, done: u64, count: u64) -> Result<Boxed<RStmt>, Memory>
    ensures { IfOk result (λ made. stmt_view made ≡ tree.CopyBytes (written.as_bytes (expr_view address.now))
        (tree.Offset (written.as_bytes (expr_view address.now)) (tree.Literal (pos done) Isize)) (tree.Literal (pos count) Usize)) }
{
    let source = bytes_of(alloc, address)?;
    let to = bytes_behind(alloc, address, done)?;
    let count = literal(alloc, Int::from(count), IntegerTy::Usize)?;
    Boxed::new(alloc, RStmt::CopyBytes(source, to, count))
}

// Twice as many bytes are zero with each statement, up to all of them.
fn doubled(
    alloc: Global,
    address: &RExpr,
    size: u64,
    done: u64,
    left: u32,
    made: &mut Items<RStmt>,
) -> Result<(), Memory>
    ensures { OnOk result (map stmt_view made.new ≡ map stmt_view made.old ++ doubled (expr_view address.now) size done left) }
{
    if left == 0 || size <= done {
        return Ok(());
    }
    let copy = doubling(alloc, address, done, done.min(size - done))?;
    made.push(copy.into_inner())?;
    match done.checked_add(done) {
        Some(more) => doubled(alloc, address, size, more, left - 1, made),
        None => Err(Memory),
    }
}

fn zero_byte(alloc: Global, address: &RExpr) -> Result<Boxed<RStmt>, Memory>
    ensures { IfOk result (λ made. stmt_view made ≡ tree.Assign (tree.Deref (written.as_bytes (expr_view address.now))) (tree.Literal (pos 0) U8)) }
{
    let bytes = bytes_of(alloc, address)?;
    let first = target(alloc, bytes)?;
    let zero = literal(alloc, 0, IntegerTy::U8)?;
    assign(alloc, first, zero)
}

// An object of so many bytes becomes zero, the bytes between its members too.
fn zeroed_bytes(alloc: Global, address: &RExpr, size: u64) -> Result<Items<RStmt>, Memory>
    ensures { IfOk result (λ made. map stmt_view made ≡ zeroed_bytes (expr_view address.now) size) }
{
    let first = zero_byte(alloc, address)?;
    let mut made = one_stmt(alloc, first)?;
    doubled(alloc, address, size, 1, MOST_DOUBLINGS, &mut made)?;
    Ok(made)
}

fn zero_scalar(alloc: Global, ty: &RTy, place: Boxed<RPlace>) -> Result<Items<RStmt>, Memory>
    ensures { IfOk result (λ made. map stmt_view made ≡ tree.Assign (place_view place) (operators.zero_of (ty_view ty.now)) ∷ []) }
{
    let zero = zero_of(alloc, ty)?;
    let store = assign(alloc, place, zero)?;
    one_stmt(alloc, store)
}

fn is_scalar(ty: &RTy) -> bool
    ensures { result ≡ is_scalar (ty_view ty.now) }
{
    matches!(
        ty,
        RTy::Integer(_) | RTy::Boolean | RTy::Pointer(_) | RTy::Code(_, _)
    )
}

fn zeroed_object(
    alloc: Global,
    names: &NameMap,
    ty: &Ty,
    place: Boxed<RPlace>,
) -> Result<Items<RStmt>, Memory>
    ensures { IfOk result (λ made. map stmt_view made ≡
        zeroed_bytes (given.address_of (place_view place)) ((lift_names (view_names names.now)).size_of (view_type ty.now))) }
{
    let size = size_of(ty, names)?;
    let address = address_of(alloc, place)?;
    zeroed_bytes(alloc, address.get(), size)
}

/// An object of a type becomes zero: a scalar by a store, any other byte by byte.
pub fn zeroed(
    alloc: Global,
    names: &NameMap,
    ty: &Ty,
    place: Boxed<RPlace>,
) -> Result<Items<RStmt>, Memory>
    ensures { IfOk result (λ made. map stmt_view made ≡ zeroed (lift_names (view_names names.now)) (view_type ty.now) (place_view place)) }
{
    let here = type_in(alloc, names, ty)?;
    if is_scalar(here.get()) {
        zero_scalar(alloc, here.get(), place)
    } else {
        zeroed_object(alloc, names, ty, place)
    }
}
