//! Types that declarators derive (ISO C99, 6.7.5).

ghost use Rattle.std.specs.Prelude.{◌≡◌, false, map, reverse, IfOk, option_map};
ghost use Rattle.cx_core.specs.Trees.{ty, function};
ghost use Rattle.cx_core.specs.Views.{view_type, view_params, types_of};
ghost use Rattle.cx_rules.specs.Shapes.{derived, step_on, params_of, param_types};
ghost use Rattle.cx_scope.specs.Views.{view_param};
ghost use Rattle.cx_shapes.specs.Views.{view_step};

use crate::steps::Step;
use cr_base::{Boxed, Items, Memory};
use cx_core::{Params, Ty};
use cx_scope::Param;
use std::alloc::Global;

/// The type to which steps lead from a type; the first one stands last. Refused only for want of memory.
pub fn derived(alloc: Global, from: Boxed<Ty>, steps: &[Step]) -> Result<Boxed<Ty>, Memory>
    ensures { IfOk result (λ made. view_type made ≡ derived (view_type from) (reverse (map view_step steps.now))) }
{
    let mut made = from;
    let mut left = steps;
    while let Some((first, others)) = left.split_last() {
        made = step_on(alloc, made, first)?;
        left = others;
    }
    Ok(made)
}

fn step_on(alloc: Global, from: Boxed<Ty>, step: &Step) -> Result<Boxed<Ty>, Memory>
    ensures { IfOk result (λ made. view_type made ≡ step_on (view_type from) (view_step step.now)) }
{
    match step {
        Step::Pointer { is_const, .. } => Ty::pointer(alloc, from, *is_const),
        Step::Array { length } => Ty::array(alloc, from, *length),
        Step::Function {
            params,
            variadic,
            ..
        } => function_of(alloc, from, params, *variadic),
    }
}

fn function_of(
    alloc: Global,
    from: Boxed<Ty>,
    params: &Option<Items<Param>>,
    variadic: bool,
) -> Result<Boxed<Ty>, Memory>
    ensures { IfOk result (λ made. view_type made ≡ ty (function (view_type from) (params_of (option_map (map view_param) params.now)) variadic) false) }
{
    let params = params_of(alloc, params)?;
    Ty::function(alloc, from, params, variadic)
}

fn params_of(alloc: Global, params: &Option<Items<Param>>) -> Result<Params, Memory>
    ensures { IfOk result (λ made. view_params made ≡ params_of (option_map (map view_param) params.now)) }
{
    match params {
        None => Ok(Params::Unlisted),
        Some(params) => Ok(Params::Listed(param_types(alloc, params.as_slice())?)),
    }
}

fn param_types(alloc: Global, params: &[Param]) -> Result<Items<Ty>, Memory>
    ensures { IfOk result (λ made. types_of (map view_type made) ≡ param_types (map view_param params.now)) }
{
    let mut types = Items::new(alloc);
    for one in params {
        types.push(one.ty.copy(alloc)?.into_inner())?;
    }
    Ok(types)
}
