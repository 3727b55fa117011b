//! Places and addresses of what is given, and copies of bytes. Each maker is refused only for want of memory.

ghost use Rattle.std.specs.Prelude.{◌≡◌, pos, [], IfOk};
ghost use Rattle.lift_exprs.specs.Written.{as_bytes, copied, place_at, place_of_given, address_of_given};
ghost use Rattle.lift_forms_code.specs.Views.{given_view};
ghost use Rattle.rs_text.specs.Tree as tree;
ghost use Rattle.rs_text.specs.declared.integer.IntegerTy.TheVariants.{U8};
ghost use Rattle.rs_tree.specs.Views.{ty_view, place_view, expr_view, stmt_view};

use cr_base::{Boxed, Int, Memory, Name};
use lift_forms_code::{RGiven, address_of};
use rs_makers::{cast, literal, local, read, target};
use rs_tree::{IntegerTy, RExpr, RPlace, RStmt, RTy};
use std::alloc::Global;

/// Where an address points to: what the address of a place points to is the place.
pub fn place_at(alloc: Global, e: Boxed<RExpr>) -> Result<Boxed<RPlace>, Memory>
    ensures { IfOk result (λ made. place_view made ≡ place_at (expr_view e)) }
{
    match e.into_inner() {
        RExpr::AddressOf(place) => Ok(place),
        other => pointed(alloc, other),
    }
}

// `*e`
fn pointed(alloc: Global, e: RExpr) -> Result<Boxed<RPlace>, Memory>
    ensures { IfOk result (λ made. place_view made ≡ tree.Deref (expr_view e)) }
{
    let e = Boxed::new(alloc, e)?;
    target(alloc, e)
}

// No place: nothing that isn't used has one.
fn nowhere(alloc: Global) -> Result<Boxed<RPlace>, Memory>
    ensures { IfOk result (λ made. place_view made ≡ tree.Local []) }
{
    local(alloc, Name::of(Vec::new(alloc)))
}

/// The place of an lvalue.
pub fn place_of_given(alloc: Global, given: RGiven) -> Result<Boxed<RPlace>, Memory>
    ensures { IfOk result (λ made. place_view made ≡ place_of_given (given_view given)) }
{
    match given {
        RGiven::Nothing => nowhere(alloc),
        RGiven::Truth(e) | RGiven::Value(e) => place_at(alloc, e),
        RGiven::Place(place) => Ok(place),
    }
}

fn read_nowhere(alloc: Global) -> Result<Boxed<RExpr>, Memory>
    ensures { IfOk result (λ made. expr_view made ≡ tree.Read (tree.Local [])) }
{
    let place = nowhere(alloc)?;
    read(alloc, place)
}

/// The address of what is given: of an lvalue, or of a structure or union.
pub fn address_of_given(alloc: Global, given: RGiven) -> Result<Boxed<RExpr>, Memory>
    ensures { IfOk result (λ made. expr_view made ≡ address_of_given (given_view given)) }
{
    match given {
        RGiven::Nothing => read_nowhere(alloc),
        RGiven::Truth(e) | RGiven::Value(e) => Ok(e),
        RGiven::Place(place) => address_of(alloc, place),
    }
}

fn byte_pointer(alloc: Global) -> Result<Boxed<RTy>, Memory>
    ensures { IfOk result (λ made. ty_view made ≡ tree.Pointer (tree.Integer U8)) }
{
    let byte = Boxed::new(alloc, RTy::Integer(IntegerTy::U8))?;
    Boxed::new(alloc, RTy::Pointer(byte))
}

/// An address as that of bytes.
pub fn as_bytes(alloc: Global, address: Boxed<RExpr>) -> Result<Boxed<RExpr>, Memory>
    ensures { IfOk result (λ made. expr_view made ≡ as_bytes (expr_view address)) }
{
    let to = byte_pointer(alloc)?;
    cast(alloc, address, to)
}

/// So many bytes are copied from one address to another.
pub fn copied(
    alloc: Global,
    source: Boxed<RExpr>,
    to: Boxed<RExpr>,
    size: u64,
) -> Result<Boxed<RStmt>, Memory>
    ensures { IfOk result (λ made. stmt_view made ≡ copied (expr_view source) (expr_view to) size) }
{
    let source = as_bytes(alloc, source)?;
    let to = as_bytes(alloc, to)?;
    let count = literal(alloc, Int::from(size), IntegerTy::Usize)?;
    Boxed::new(alloc, RStmt::CopyBytes(source, to, count))
}
