//! The last `return` of a function (ISO C99, 6.9.1; the Rust Reference, "return expressions").

ghost use Rattle.std.specs.Prelude.{◌≡◌, map, true, Some, IfOk};
ghost use Rattle.build_flow_code.specs.Bodies.{body_of};
ghost use Rattle.cx_core.specs.Views.{view_type};
ghost use Rattle.lift_exprs.specs.Names.{type_in};
ghost use Rattle.lift_forms.specs.Operators as forms;
ghost use Rattle.rs_text.specs.Tree as tree;
ghost use Rattle.rs_text.specs.Tree.{stmts};
ghost use Rattle.rs_tree.specs.Views.{stmt_view};
ghost use Rattle.whole_bodies.specs.Bodies as spec;
ghost use Rattle.whole_texts.specs.Texts.{ended_text};

use build_flow_code::Body;
use cr_base::{Boxed, Items, Memory};
use cx_core::Ty;
use lift_forms_code::zero_of;
use lift_held::{is_record, is_void};
use lift_stores::type_in;
use rs_tree::RStmt;
use std::alloc::Global;

fn is_return(s: &RStmt) -> bool
    ensures { result ≡ spec.is_return (stmt_view s.now) }
{
    matches!(s, RStmt::Return(_))
}

// The last statement is a `return`.
fn ends_in_return(body: &[RStmt]) -> bool
    ensures { result ≡ spec.ends_in_return (stmts (map stmt_view body.now)) }
{
    match body.split_last() {
        Some((last, _)) => is_return(last),
        None => false,
    }
}

// A function with this result gives a value, not by a pointer.
fn gives_value(ty: &Ty) -> bool
    ensures { result ≡ spec.gives_value (view_type ty.now) }
{
    !is_void(ty) && !is_record(ty)
}

// The `return` that stands at an end that isn't reached: of zero.
#[tactic(auto, unfolding(build_flow_code::specs::Bodies::body_of))]
fn return_of_zero(alloc: Global, of: &Body<'_>) -> Result<Boxed<RStmt>, Memory>
    ensures { IfOk result (λ made. stmt_view made ≡ tree.Return (Some (forms.zero_of (type_in (body_of of.now).names (body_of of.now).result_type)))) }
{
    let ty = type_in(alloc, of.names, of.result_ty)?;
    let zero = zero_of(alloc, ty.get())?;
    Boxed::new(alloc, RStmt::Return(Some(zero)))
}

// The function gives a value, not by a pointer.
#[tactic(auto, unfolding(build_flow_code::specs::Bodies::body_of))]
fn needs_return(of: &Body<'_>) -> bool
    ensures { result ≡ spec.gives_value (body_of of.now).result_type }
{
    gives_value(of.result_ty)
}

// Statements whose last one is a `return`.
fn with_return(alloc: Global, of: &Body<'_>, body: Items<RStmt>) -> Result<Items<RStmt>, Memory>
    ensures { IfOk result (λ made. stmts (map stmt_view made) ≡ spec.with_last_return true (forms.zero_of (type_in (body_of of.now).names (body_of of.now).result_type)) (stmts (map stmt_view body))) }
{
    if ends_in_return(body.as_slice()) {
        return Ok(body);
    }
    let last = return_of_zero(alloc, of)?;
    let mut made = body;
    made.push(last.into_inner())?;
    Ok(made)
}

/// A function of the crate that gives a value ends in a `return`, though its end isn't reached. Refused only for want of memory.
pub(crate) fn with_last_return(
    alloc: Global,
    of: &Body<'_>,
    body: Items<RStmt>,
) -> Result<Items<RStmt>, Memory>
    ensures { IfOk result (λ made. stmts (map stmt_view made) ≡ ended_text (body_of of.now) (stmts (map stmt_view body))) }
{
    if needs_return(of) {
        return with_return(alloc, of, body);
    }
    Ok(body)
}
