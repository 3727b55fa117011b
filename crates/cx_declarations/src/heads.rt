//! Heads of function definitions (ISO C99, 6.9.1).
#![tactic(auto, unfolding(cx_rules::specs::Readings::check_chain, cx_rules::specs::Readings::check_gives, cx_rules::specs::Readings::check_here))]

ghost use Rattle.std.specs.Prelude.{◌≡◌, map, IfOk};
ghost use Rattle.cx_context.specs.Checks.{Checks};
ghost use Rattle.cx_context.specs.Views.{scope_of};
ghost use Rattle.cx_core.specs.Views.{view_function_type, view_params, view_type};
ghost use Rattle.cx_decl_steps.specs.Views.{view_head};
ghost use Rattle.cx_declarations.specs.Walks as walks;
ghost use Rattle.cx_rules.specs.Types.{defined_form, defined_params, defined_type};
ghost use Rattle.cx_shapes.specs.Views.{view_specs};
ghost use Rattle.cx_tree.specs.Views.{declarator_view, spec_view, specs as spec_trees};

use cr_base::{Boxed, Items, Memory, Stop};
use cx_context::Context;
use cx_core::{FunctionTy, Params, Ty, TyForm};
use cx_decl_steps::{Head, head_seen};
use cx_rules::SpecsPlace;
use cx_shapes::{Specs, declarator_line, specs_line};
use cx_tree::{Declarator, Spec};
use cx_type_steps::{derives_seen, specs_seen};
use cx_walk::{declarator, specifiers};
use std::alloc::Global;

// What a definition says of its parameters, by what its declarator says.
fn defined_params(alloc: Global, params: Params) -> Params
    ensures { view_params result ≡ defined_params (view_params params) }
{
    match params {
        Params::Unlisted => Params::Listed(Items::new(alloc)),
        Params::Listed(list) => Params::Listed(list),
    }
}

fn defined_function(alloc: Global, one: Boxed<FunctionTy>) -> Result<Boxed<FunctionTy>, Memory>
    ensures { IfOk result (λ made. view_function_type made ≡ defined_form (view_function_type one)) }
{
    let FunctionTy {
        result_ty,
        params,
        is_variadic,
    } = one.into_inner();
    Boxed::new(
        alloc,
        FunctionTy {
            result_ty,
            params: defined_params(alloc, params),
            is_variadic,
        },
    )
}

// The type of a function that is defined, by the one that its declarator says (ISO C99, 6.7.5.3p14).
fn defined_type(alloc: Global, written: Boxed<Ty>) -> Result<Boxed<Ty>, Memory>
    ensures { IfOk result (λ made. view_type made ≡ defined_type (view_type written)) }
{
    let Ty { form, is_const } = written.into_inner();
    let TyForm::Function(one) = form else {
        return Boxed::new(alloc, Ty { form, is_const });
    };
    let one = defined_function(alloc, one)?;
    Boxed::new(
        alloc,
        Ty {
            form: TyForm::Function(one),
            is_const,
        },
    )
}

// The declarator of a definition (ISO C99, 6.9.1p2).
fn head_of(
    context: &mut Context,
    specs: &Specs,
    missing: u32,
    one: &Declarator,
) -> Result<Head, Stop>
    ensures { Checks view_head result (scope_of context.new) (walks.head_kept (view_specs specs.now) missing (declarator_view one.now) (scope_of context.old)) }
{
    let line = declarator_line(missing, one);
    let shape = declarator(context, one)?;
    let from = specs.base_type(context.alloc())?;
    let written = derives_seen(context, line, from, &shape)?;
    let written = defined_type(context.alloc(), written)?;
    head_seen(context, line, specs, shape, written)
}

/// The specifiers and the declarator of a function definition: the function is declared, and the scope of its body begins (ISO C99,
/// 6.9.1).
pub fn definition_begins(
    context: &mut Context,
    list: &[Spec],
    one: &Declarator,
) -> Result<Head, Stop>
    ensures { Checks view_head result (scope_of context.new) (walks.definition_begins (spec_trees (map spec_view list.now)) (declarator_view one.now) (scope_of context.old)) }
{
    let line = specs_line(list);
    let all = specifiers(context, false, list)?;
    specs_seen(context, SpecsPlace::Definition, line, &all)?;
    head_of(context, &all, line, one)
}
