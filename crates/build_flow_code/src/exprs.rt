//! What full expressions, conditions and returns of a body are written as (ISO C99, 6.8). Each maker is refused only for want of memory.

ghost use Rattle.std.specs.Prelude.{◌≡◌, ◌+◌, length, map, IfOk, Some, None, option_map};
ghost use Rattle.build_flow_code.specs.Bodies.{body_of};
ghost use Rattle.build_flow_code.specs.Parts.{ContentsFit, OptionFits};
ghost use Rattle.build_flow_code.specs.Exprs as text;
ghost use Rattle.build_flow_nodes.specs.Parts as spec;
ghost use Rattle.cx_core.specs.Views.{view_expr, view_puts};
ghost use Rattle.lift.specs.Fits.{FieldsFit};
ghost use Rattle.lift_exprs.specs.Lifted.{lifted_full};
ghost use Rattle.lift_forms_code.specs.Views.{given_view};
ghost use Rattle.lift_stores.specs.Names.{lift_names};
ghost use Rattle.lift_stores.specs.Views.{text_of, text_view};
ghost use Rattle.rs_items.specs.Known.{view_names};
ghost use Rattle.rs_tree.specs.Views.{ty_view, expr_view, stmt_view};

use crate::body::Body;
use crate::parts::{Done, Given, Operand, Tested, begun_alone, behind_expr, initialised_done};
use cr_base::{Boxed, Items, Memory};
use cx_core::{CoreExpr, Put};
use lift::{full, lifted, operand};
use lift_forms_code::{RGiven, test_of, value_of, zero_of};
use lift_held::{is_record, is_void};
use lift_stores::{Written, address_of_given, copied, type_in};
use rs_items::{NameMap, size_of};
use rs_makers::{local, read};
use rs_tree::{IntegerTy, RExpr, RStmt, RTy};
use std::alloc::Global;

// What is written for a full expression.
#[tactic(auto, using(crate::proofs::Full::full_is))]
fn full_text(alloc: Global, names: &NameMap, e: &CoreExpr, number: u32) -> Result<Written, Memory>
    requires { FieldsFit (view_expr e.now) }
    ensures { IfOk result (λ made. text_view made ≡ text_of (lifted_full (lift_names (view_names names.now)) (view_expr e.now) number)) }
{
    let asked = full(e);
    lifted(alloc, names, asked, e, number)
}

// The number behind the temporaries of a full expression.
#[tactic(auto, using(crate::proofs::Full::count_is))]
fn behind_full(alloc: Global, names: &NameMap, e: &CoreExpr, number: u32) -> Result<u32, Memory>
    ensures { IfOk result (λ next. next ≡ number + spec.count_in_option (lift_names (view_names names.now)) (Some (view_expr e.now))) }
{
    let asked = full(e);
    behind_expr(alloc, names, asked, e, number)
}

// A full expression whose value isn't used.
#[tactic(auto, unfolding(crate::specs::Bodies::body_of))]
fn effect_of(alloc: Global, of: &Body<'_>, e: &CoreExpr, number: u32) -> Result<Done, Memory>
    requires { FieldsFit (view_expr e.now) }
    ensures body { IfOk result (λ made. map stmt_view made.body ≡ spec.effect (body_of of.now) (view_expr e.now) number) }
    ensures next { IfOk result (λ made. made.next ≡ number + spec.count_in_option (body_of of.now).names (Some (view_expr e.now))) }
{
    let next = behind_full(alloc, of.names, e, number)?;
    let one = full_text(alloc, of.names, e, number)?;
    Ok(Done {
        body: one.body,
        next,
    })
}

/// A full expression whose value isn't used, if there is one.
pub fn effect(
    alloc: Global,
    of: &Body<'_>,
    e: Option<&CoreExpr>,
    number: u32,
) -> Result<Done, Memory>
    requires { OptionFits (option_map (λ one. view_expr one.now) e) }
    ensures body { IfOk result (λ made. map stmt_view made.body ≡ spec.effect_of_option (body_of of.now) (option_map (λ one. view_expr one.now) e.entry) number) }
    ensures next { IfOk result (λ made. made.next ≡ number + spec.count_in_option (body_of of.now).names (option_map (λ one. view_expr one.now) e.entry)) }
{
    match e {
        Some(e) => effect_of(alloc, of, e, number),
        None => Ok(Done {
            body: Items::new(alloc),
            next: number,
        }),
    }
}

// The test of an operand that is given.
fn tested(
    alloc: Global,
    names: &NameMap,
    e: &CoreExpr,
    given: RGiven,
) -> Result<Boxed<RExpr>, Memory>
    ensures { IfOk result (λ made. expr_view made ≡ text.tested (lift_names (view_names names.now)) (view_expr e.now) (given_view given)) }
{
    let ty = type_in(alloc, names, &e.ty)?;
    test_of(alloc, ty.get(), given)
}

/// A condition.
#[tactic(auto, unfolding(crate::specs::Bodies::body_of))]
pub fn condition(alloc: Global, of: &Body<'_>, e: &CoreExpr, number: u32) -> Result<Tested, Memory>
    requires { FieldsFit (view_expr e.now) }
    ensures body { IfOk result (λ made. map stmt_view made.body ≡ (spec.condition (body_of of.now) (view_expr e.now) number).written.body) }
    ensures test { IfOk result (λ made. expr_view made.test ≡ (spec.condition (body_of of.now) (view_expr e.now) number).test) }
    ensures next { IfOk result (λ made. made.next ≡ number + spec.count_in_test (body_of of.now).names (view_expr e.now)) }
{
    let next = behind_expr(alloc, of.names, operand(), e, number)?;
    let one = lifted(alloc, of.names, operand(), e, number)?;
    let test = tested(alloc, of.names, e, one.given)?;
    Ok(Tested {
        body: one.body,
        test,
        next,
    })
}

// The integer type of an operand.
fn integer_of(ty: &RTy) -> IntegerTy
    ensures { result ≡ spec.integer_of (ty_view ty.now) }
{
    match ty {
        RTy::Integer(which) => *which,
        _ => IntegerTy::I32,
    }
}

/// The operand of a `switch`.
#[tactic(auto, unfolding(crate::specs::Bodies::body_of))]
pub fn operand_of(
    alloc: Global,
    of: &Body<'_>,
    e: &CoreExpr,
    number: u32,
) -> Result<Operand, Memory>
    requires { FieldsFit (view_expr e.now) }
    ensures body { IfOk result (λ made. map stmt_view made.body ≡ (spec.operand_of (body_of of.now) (view_expr e.now) number).body) }
    ensures value { IfOk result (λ made. expr_view made.value ≡ (spec.operand_of (body_of of.now) (view_expr e.now) number).value) }
    ensures by { IfOk result (λ made. made.by ≡ (spec.operand_of (body_of of.now) (view_expr e.now) number).by) }
    ensures next { IfOk result (λ made. made.next ≡ number + spec.count_in_test (body_of of.now).names (view_expr e.now)) }
{
    let next = behind_expr(alloc, of.names, operand(), e, number)?;
    let ty = type_in(alloc, of.names, &e.ty)?;
    let one = lifted(alloc, of.names, operand(), e, number)?;
    let value = value_of(alloc, one.given)?;
    Ok(Operand {
        body: one.body,
        value,
        by: integer_of(ty.get()),
        next,
    })
}

// A structure or union is written to where the result's parameter points.
#[tactic(auto, unfolding(crate::specs::Bodies::body_of))]
fn copied_out(
    alloc: Global,
    of: &Body<'_>,
    e: &CoreExpr,
    given: RGiven,
) -> Result<Boxed<RStmt>, Memory>
    ensures { IfOk result (λ made. stmt_view made ≡ text.copied_out (body_of of.now) (view_expr e.now) (given_view given)) }
{
    let source = address_of_given(alloc, given)?;
    let place = local(alloc, of.result.copy()?)?;
    let to = read(alloc, place)?;
    let size = size_of(&e.ty, of.names)?;
    copied(alloc, source, to, size)
}

// What is given back of a value that was written.
fn given_as(
    alloc: Global,
    of: &Body<'_>,
    e: &CoreExpr,
    one: Written,
    next: u32,
) -> Result<Given, Memory>
    ensures body { IfOk result (λ made. map stmt_view made.body ≡ (text.given_as (body_of of.now) (view_expr e.now) (text_view one)).body) }
    ensures value { IfOk result (λ made. option_map expr_view made.value ≡ (text.given_as (body_of of.now) (view_expr e.now) (text_view one)).value) }
    ensures next { IfOk result (λ made. made.next ≡ next) }
{
    let mut body = one.body;
    if is_record(&e.ty) {
        body.push(copied_out(alloc, of, e, one.given)?.into_inner())?;
        return Ok(Given {
            body,
            value: None,
            next,
        });
    }
    let value = Some(value_of(alloc, one.given)?);
    Ok(Given { body, value, next })
}

// A value is given back.
#[tactic(auto, unfolding(crate::specs::Bodies::body_of))]
fn given_of(alloc: Global, of: &Body<'_>, e: &CoreExpr, number: u32) -> Result<Given, Memory>
    requires { FieldsFit (view_expr e.now) }
    ensures body { IfOk result (λ made. map stmt_view made.body ≡ (spec.given (body_of of.now) (Some (view_expr e.now)) number).body) }
    ensures value { IfOk result (λ made. option_map expr_view made.value ≡ (spec.given (body_of of.now) (Some (view_expr e.now)) number).value) }
    ensures next { IfOk result (λ made. made.next ≡ number + spec.count_in_option (body_of of.now).names (Some (view_expr e.now))) }
{
    let next = behind_full(alloc, of.names, e, number)?;
    let one = full_text(alloc, of.names, e, number)?;
    given_as(alloc, of, e, one, next)
}

/// A `return`, with a value or without.
pub fn given(
    alloc: Global,
    of: &Body<'_>,
    e: Option<&CoreExpr>,
    number: u32,
) -> Result<Given, Memory>
    requires { OptionFits (option_map (λ one. view_expr one.now) e) }
    ensures body { IfOk result (λ made. map stmt_view made.body ≡ (spec.given (body_of of.now) (option_map (λ one. view_expr one.now) e.entry) number).body) }
    ensures value { IfOk result (λ made. option_map expr_view made.value ≡ (spec.given (body_of of.now) (option_map (λ one. view_expr one.now) e.entry) number).value) }
    ensures next { IfOk result (λ made. made.next ≡ number + spec.count_in_option (body_of of.now).names (option_map (λ one. view_expr one.now) e.entry)) }
{
    match e {
        Some(e) => given_of(alloc, of, e, number),
        None => Ok(Given {
            body: Items::new(alloc),
            value: None,
            next: number,
        }),
    }
}

/// What the end of the body gives back.
#[tactic(auto, unfolding(crate::specs::Bodies::body_of))]
pub fn at_end(alloc: Global, of: &Body<'_>) -> Result<Option<Boxed<RExpr>>, Memory>
    ensures { IfOk result (λ made. option_map expr_view made ≡ spec.at_end_of (body_of of.now)) }
{
    if is_void(of.result_ty) || is_record(of.result_ty) {
        return Ok(None);
    }
    let ty = type_in(alloc, of.names, of.result_ty)?;
    Ok(Some(zero_of(alloc, ty.get())?))
}

/// The declaration of an object is reached.
pub fn declared(
    alloc: Global,
    of: &Body<'_>,
    number: u32,
    puts: Option<&[Put]>,
    first: u32,
) -> Result<Done, Memory>
    requires { ContentsFit (option_map (λ list. view_puts list.now) puts) }
    ensures body { IfOk result (λ made. map stmt_view made.body ≡ spec.declared (body_of of.now) number (option_map (λ list. view_puts list.now) puts.entry) first) }
    ensures next { IfOk result (λ made. made.next ≡ first + length (spec.temporaries_in_contents (body_of of.now).names (option_map (λ list. view_puts list.now) puts.entry))) }
{
    match puts {
        Some(puts) => initialised_done(alloc, of, number, puts, first),
        None => Ok(Done {
            body: begun_alone(alloc, of, number)?,
            next: first,
        }),
    }
}
