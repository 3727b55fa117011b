//! Parameters (ISO C99, 6.7.5.3).

ghost use Rattle.std.specs.Prelude.{◌≡◌, IfOk, OnOk, option_map};
ghost use Rattle.cx_context.specs.Checks.{Checks};
ghost use Rattle.cx_context.specs.Views.{scope_of};
ghost use Rattle.cx_core.specs.Views.{view_type};
ghost use Rattle.cx_rules.specs.Pieces.{with_param};
ghost use Rattle.cx_rules.specs.Rules.{is_taken_by};
ghost use Rattle.cx_rules.specs.Shapes.{adjusted};
ghost use Rattle.cx_scope.specs.Views.{view_param};
ghost use Rattle.cx_shapes.specs.Views.{view_specs, view_shape};
ghost use Rattle.cx_type_steps.specs.Params.{param_at};
ghost use Rattle.cx_type_steps.specs.Steps as steps;

use crate::types::derives_seen;
use cr_base::{Boxed, Memory, Name, Stop};
use cx_context::Context;
use cx_core::{Ty, TyForm};
use cx_kinds::is_void;
use cx_lex::Keyword;
use cx_scope::Param;
use cx_shapes::{Shape, Specs};
use cx_type_breaks::param_rule;
use std::alloc::Global;

// A parameter of a type (ISO C99, 6.7.5.3).
fn param_seen(
    context: &mut Context,
    is_only: bool,
    line: u32,
    specs: &Specs,
    name: Option<Name>,
    ty: Boxed<Ty>,
) -> Result<Option<Param>, Stop>
    ensures { Checks (option_map view_param) result (scope_of context.new) (steps.param_seen is_only line (view_specs specs.now) name (view_type ty) (scope_of context.old)) }
{
    let taken = is_taken_by(context, &name);
    let t = ty.get();
    if let Some(rule) = param_rule(taken, is_only, specs, &name, t) {
        return Err(context.refused(rule, line));
    }
    let number = context.next_object();
    let made = param_added(context, number, specs, name, ty)?;
    Ok(made)
}

// The parameter comes into scope, where there is one.
fn param_added(
    context: &mut Context,
    number: u32,
    specs: &Specs,
    name: Option<Name>,
    ty: Boxed<Ty>,
) -> Result<Option<Param>, Memory>
    ensures made { IfOk result (λ made. option_map view_param made ≡ param_at number (view_specs specs.now) name (view_type ty)) }
    ensures scope { OnOk result (scope_of context.new ≡ with_param (param_at number (view_specs specs.now) name (view_type ty)) (scope_of context.old)) }
{
    let made = param_of(context.alloc(), number, specs, name, ty)?;
    context.add_param(&made)?;
    Ok(made)
}

/// A parameter with its specifiers and its declarator, and the lines on which both begin (ISO C99, 6.7.5.3).
#[tactic(auto, unfolding(cx_rules::specs::Readings::check_chain))]
pub fn param_derived(
    context: &mut Context,
    is_only: bool,
    line: u32,
    own: u32,
    specs: &Specs,
    shape: Shape,
) -> Result<Option<Param>, Stop>
    ensures { Checks (option_map view_param) result (scope_of context.new) (steps.param_derived is_only line own (view_specs specs.now) (view_shape shape) (scope_of context.old)) }
{
    let from = specs.base_type(context.alloc())?;
    let ty = derives_seen(context, own, from, &shape)?;
    param_seen(context, is_only, line, specs, shape.name, ty)
}

fn is_taken_by(context: &Context, name: &Option<Name>) -> bool
    ensures { result ≡ is_taken_by (scope_of context.now) name.now }
{
    match name {
        None => false,
        Some(name) => context.is_taken(name),
    }
}

// A parameter, unless it is `void` (6.7.5.3p10).
fn param_of(
    alloc: Global,
    number: u32,
    specs: &Specs,
    name: Option<Name>,
    ty: Boxed<Ty>,
) -> Result<Option<Param>, Memory>
    ensures { IfOk result (λ made. option_map view_param made ≡ param_at number (view_specs specs.now) name (view_type ty)) }
{
    if is_void(ty.get()) {
        return Ok(None);
    }
    let ty = adjusted(alloc, ty)?;
    Ok(Some(Param {
        name,
        object: number,
        ty: ty.into_inner(),
        is_register: specs.has_storage(Keyword::Register),
    }))
}

// The type of a parameter, after arrays and functions became pointers (6.7.5.3p7, p8).
fn adjusted(alloc: Global, ty: Boxed<Ty>) -> Result<Boxed<Ty>, Memory>
    ensures { IfOk result (λ made. view_type made ≡ adjusted (view_type ty)) }
{
    match &ty.get().form {
        TyForm::Array(element, _) => {
            let to = element.get().copy(alloc)?;
            Ty::pointer(alloc, to, false)
        }
        TyForm::Function(_) => Ty::pointer(alloc, ty, false),
        TyForm::Void
        | TyForm::Basic(_)
        | TyForm::Enum(_)
        | TyForm::Pointer(_)
        | TyForm::Record(_) => Ok(ty),
    }
}
