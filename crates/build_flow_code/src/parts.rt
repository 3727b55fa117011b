//! What the parts of a body are written as (ISO C99, 6.2.4, 6.7.8, 6.8). Each maker is refused only for want of memory.

ghost use Rattle.std.specs.Prelude.{◌≡◌, ◌+◌, length, map, IfOk, Some};
ghost use Rattle.build_flow_code.specs.Bodies.{body_of};
ghost use Rattle.build_flow_code.specs.Parts as text;
ghost use Rattle.build_flow_nodes.specs.Parts as spec;
ghost use Rattle.cx_core.specs.Views.{puts_of, view_expr, view_put, view_type};
ghost use Rattle.lift.specs.Fits.{PutsFit};
ghost use Rattle.lift_exprs.specs.Temporaries.{held_types, held_types_in_puts};
ghost use Rattle.lift_stores.specs.Names.{lift_names};
ghost use Rattle.rs_items.specs.Known.{view_names};
ghost use Rattle.rs_mean.specs.Scalars.{is_scalar};
ghost use Rattle.rs_tree.specs.Views.{ty_view, expr_view, stmt_view};

use crate::body::{Body, object_numbered, zero_place};
use cr_base::{Boxed, Items, Memory};
use cx_core::{CoreExpr, Put, Ty, TyForm};
use lift::lifted_puts;
use lift_forms_code::{address_of, zero_of};
use lift_held::Asked;
use lift_objects::is_zeroed;
use lift_stores::{assign, copied, object_at, one_stmt, type_in};
use lift_temporaries::{held_types, held_types_in_puts};
use rs_items::{NameMap, size_of};
use rs_makers::address;
use rs_tree::{IntegerTy, RExpr, RStmt, RTy};
use std::alloc::Global;

/// Statements, and the number of the temporary behind theirs.
#[derive(Drop)]
pub struct Done {
    pub body: Items<RStmt>,
    pub next: u32,
}

/// A condition: its statements and its test.
#[derive(Drop)]
pub struct Tested {
    pub body: Items<RStmt>,
    pub test: Boxed<RExpr>,
    pub next: u32,
}

/// The operand of a `switch`: its statements, its value, and the type of that.
#[derive(Drop)]
pub struct Operand {
    pub body: Items<RStmt>,
    pub value: Boxed<RExpr>,
    pub by: IntegerTy,
    pub next: u32,
}

/// What is done before a return, and what is given back.
#[derive(Drop)]
pub struct Given {
    pub body: Items<RStmt>,
    pub value: Option<Boxed<RExpr>>,
    pub next: u32,
}

// A number behind so many temporaries: so many are never kept for want of memory.
fn number_behind(number: u32, count: usize) -> Result<u32, Memory>
    ensures { IfOk result (λ next. next ≡ number + count) }
{
    let Ok(count) = u32::try_from(count) else {
        return Err(Memory);
    };
    match number.checked_add(count) {
        Some(next) => Ok(next),
        None => Err(Memory),
    }
}

/// The number behind the temporaries of an expression.
pub fn behind_expr(
    alloc: Global,
    names: &NameMap,
    asked: Asked,
    e: &CoreExpr,
    number: u32,
) -> Result<u32, Memory>
    ensures { IfOk result (λ next. next ≡ number + length (held_types (lift_names (view_names names.now)) asked (view_expr e.now))) }
{
    let mut types = Items::new(alloc);
    held_types(alloc, names, asked, e, &mut types)?;
    number_behind(number, types.len())
}

// The number behind the temporaries of puts.
fn behind_puts(alloc: Global, names: &NameMap, puts: &[Put], number: u32) -> Result<u32, Memory>
    ensures { IfOk result (λ next. next ≡ number + length (held_types_in_puts (lift_names (view_names names.now)) (puts_of (map view_put puts.now)))) }
{
    let mut types = Items::new(alloc);
    held_types_in_puts(alloc, names, puts, &mut types)?;
    number_behind(number, types.len())
}

// ---- objects

fn is_scalar(ty: &RTy) -> bool
    ensures { result ≡ is_scalar (ty_view ty.now) }
{
    matches!(
        ty,
        RTy::Integer(_) | RTy::Boolean | RTy::Pointer(_) | RTy::Code(_, _)
    )
}

// The type of an object that the program doesn't have.
fn no_type() -> Ty
    ensures { view_type result ≡ text.void_type }
{
    Ty {
        form: TyForm::Void,
        is_const: false,
    }
}

// A scalar becomes zero.
#[tactic(auto, unfolding(crate::specs::Bodies::body_of))]
fn cleared_scalar(
    alloc: Global,
    of: &Body<'_>,
    ty: &Ty,
    here: &RTy,
    number: u32,
) -> Result<Items<RStmt>, Memory>
    ensures { IfOk result (λ made. map stmt_view made ≡ text.cleared_scalar (body_of of.now) (view_type ty.now) (ty_view here.now) number) }
{
    let place = object_at(alloc, of.names, ty, number)?;
    let zero = zero_of(alloc, here)?;
    let store = assign(alloc, place, zero)?;
    one_stmt(alloc, store)
}

// Any other object gets a copy of zero bytes.
#[tactic(auto, unfolding(crate::specs::Bodies::body_of))]
fn cleared_bytes(alloc: Global, of: &Body<'_>, ty: &Ty, number: u32) -> Result<Items<RStmt>, Memory>
    ensures { IfOk result (λ made. map stmt_view made ≡ text.cleared_bytes (body_of of.now) (view_type ty.now) number) }
{
    let zeros = zero_place(alloc, of, number)?;
    let source = address(alloc, zeros)?;
    let place = object_at(alloc, of.names, ty, number)?;
    let to = address_of(alloc, place)?;
    let size = size_of(ty, of.names)?;
    let copy = copied(alloc, source, to, size)?;
    one_stmt(alloc, copy)
}

// An object of a type becomes zero.
#[tactic(auto, unfolding(crate::specs::Bodies::body_of))]
fn cleared_as(alloc: Global, of: &Body<'_>, ty: &Ty, number: u32) -> Result<Items<RStmt>, Memory>
    ensures { IfOk result (λ made. map stmt_view made ≡ text.cleared_as (body_of of.now) (view_type ty.now) number) }
{
    let here = type_in(alloc, of.names, ty)?;
    if is_scalar(here.get()) {
        cleared_scalar(alloc, of, ty, here.get(), number)
    } else {
        cleared_bytes(alloc, of, ty, number)
    }
}

// An object becomes zero.
#[tactic(auto, unfolding(crate::specs::Bodies::body_of))]
fn cleared(alloc: Global, of: &Body<'_>, number: u32) -> Result<Items<RStmt>, Memory>
    ensures { IfOk result (λ made. map stmt_view made ≡ spec.cleared (body_of of.now) number) }
{
    match object_numbered(of.objects, number) {
        Some(one) => cleared_as(alloc, of, &one.ty, number),
        None => {
            let ty = no_type();
            cleared_as(alloc, of, &ty, number)
        }
    }
}

// Objects become zero, one behind the other.
fn all_cleared(alloc: Global, of: &Body<'_>, numbers: &[u32]) -> Result<Items<RStmt>, Memory>
    ensures { IfOk result (λ made. map stmt_view made ≡ spec.all_cleared (body_of of.now) numbers.now) }
{
    let mut made = Items::new(alloc);
    for number in numbers {
        made.append(cleared(alloc, of, *number)?)?;
    }
    Ok(made)
}

// The program has a bit-field member.
#[tactic(auto, unfolding(crate::specs::Bodies::body_of))]
fn has_bits(of: &Body<'_>) -> bool
    ensures { result ≡ (body_of of.now).names.has_bits }
{
    of.names.bits()
}

/// The lives of objects begin.
pub fn begun(alloc: Global, of: &Body<'_>, numbers: &[u32]) -> Result<Items<RStmt>, Memory>
    ensures { IfOk result (λ made. map stmt_view made ≡ spec.begun (body_of of.now) numbers.now) }
{
    if has_bits(of) {
        all_cleared(alloc, of, numbers)
    } else {
        Ok(Items::new(alloc))
    }
}

// An object of a type becomes zero where that is to be.
#[tactic(auto, unfolding(crate::specs::Bodies::body_of))]
fn cleared_where(
    alloc: Global,
    of: &Body<'_>,
    zero: bool,
    number: u32,
) -> Result<Items<RStmt>, Memory>
    ensures { IfOk result (λ made. map stmt_view made ≡ spec.cleared_where zero (body_of of.now) number) }
{
    if zero {
        cleared(alloc, of, number)
    } else {
        Ok(Items::new(alloc))
    }
}

// An object of a type gets values, where its bytes may become zero first.
#[tactic(auto, unfolding(crate::specs::Bodies::body_of))]
fn declared_as(
    alloc: Global,
    of: &Body<'_>,
    ty: &Ty,
    number: u32,
    puts: &[Put],
    next: u32,
) -> Result<Items<RStmt>, Memory>
    requires { PutsFit (puts_of (map view_put puts.now)) }
    ensures { IfOk result (λ made. map stmt_view made ≡ text.declared_as (body_of of.now) (view_type ty.now) number (puts_of (map view_put puts.now)) next) }
{
    let zero = is_zeroed(of.names, ty, puts)?;
    let mut body = cleared_where(alloc, of, zero, number)?;
    let contents = lifted_puts(alloc, of.names, ty, number, puts, next)?;
    body.append(contents.body)?;
    Ok(body)
}

// A declaration with an initialiser is reached.
#[tactic(auto, unfolding(crate::specs::Bodies::body_of))]
fn initialised(
    alloc: Global,
    of: &Body<'_>,
    number: u32,
    puts: &[Put],
    next: u32,
) -> Result<Items<RStmt>, Memory>
    requires { PutsFit (puts_of (map view_put puts.now)) }
    ensures { IfOk result (λ made. map stmt_view made ≡ spec.declared (body_of of.now) number (Some (puts_of (map view_put puts.now))) next) }
{
    match object_numbered(of.objects, number) {
        Some(one) => declared_as(alloc, of, &one.ty, number, puts, next),
        None => {
            let ty = no_type();
            declared_as(alloc, of, &ty, number, puts, next)
        }
    }
}

/// A declaration with an initialiser is reached.
#[tactic(auto, unfolding(crate::specs::Bodies::body_of))]
pub fn initialised_done(
    alloc: Global,
    of: &Body<'_>,
    number: u32,
    puts: &[Put],
    first: u32,
) -> Result<Done, Memory>
    requires { PutsFit (puts_of (map view_put puts.now)) }
    ensures body { IfOk result (λ made. map stmt_view made.body ≡ spec.declared (body_of of.now) number (Some (puts_of (map view_put puts.now))) first) }
    ensures next { IfOk result (λ made. made.next ≡ first + length (spec.temporaries_in_contents (body_of of.now).names (Some (puts_of (map view_put puts.now))))) }
{
    let next = behind_puts(alloc, of.names, puts, first)?;
    let body = initialised(alloc, of, number, puts, first)?;
    Ok(Done { body, next })
}

/// A declaration without initialiser is reached: in a program with a bit-field member the bytes of the object become zero.
#[tactic(auto, unfolding(crate::specs::Bodies::body_of))]
pub fn begun_alone(alloc: Global, of: &Body<'_>, number: u32) -> Result<Items<RStmt>, Memory>
    ensures { IfOk result (λ made. map stmt_view made ≡ spec.cleared_where (body_of of.now).names.has_bits (body_of of.now) number) }
{
    let zero = has_bits(of);
    cleared_where(alloc, of, zero, number)
}
