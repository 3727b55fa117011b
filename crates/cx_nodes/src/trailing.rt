//! The types of arguments that no parameter takes (ISO C99, 6.5.2.2p6).

ghost use Rattle.std.specs.Prelude.{◌≡◌, map, IfOk};
ghost use Rattle.cx_core.specs.Trees.{type_of};
ghost use Rattle.cx_core.specs.Views.{view_type, view_types, view_params, types_of};
ghost use Rattle.cx_nodes.specs.Trailing.{trailing_in};
ghost use Rattle.cx_operands.specs.Views.{view_operand};
ghost use Rattle.cx_rules.specs.Meanings.{trailing_types, trailing_from, trailing_value};

use cr_base::{Boxed, Items, Memory};
use cx_core::{Params, Ty, Types};
use cx_operands::{Operand, value_type};
use cx_operators::{promoted_ty, ty_of};
use cx_pairs::callee_of;
use std::alloc::Global;

/// The types of the arguments of a call behind those that parameters take, after the default promotions (ISO C99,
/// 6.5.2.2p6, p7); none where the function has no parameter list. Refused only for want of memory.
#[tactic(auto, using(crate::proofs::Callees::by_called, crate::proofs::Callees::function_view))]
pub fn trailing_types(
    alloc: Global,
    types: &Types,
    callee: &Operand,
    args: &[Operand],
) -> Result<Items<Ty>, Memory>
    ensures { IfOk result (λ made. map view_type made ≡ trailing_types (view_types types.now) (view_operand callee.now) (map view_operand args.now)) }
{
    let Some(function) = callee_of(callee) else {
        return Ok(Items::new(alloc));
    };
    trailing_in(alloc, types, &function.params, args)
}

fn trailing_in(
    alloc: Global,
    types: &Types,
    params: &Params,
    args: &[Operand],
) -> Result<Items<Ty>, Memory>
    ensures { IfOk result (λ made. map view_type made ≡ trailing_in (view_types types.now) (view_params params.now) (map view_operand args.now)) }
{
    match params {
        Params::Unlisted => Ok(Items::new(alloc)),
        Params::Listed(list) => trailing_from(alloc, types, list.as_slice(), args),
    }
}

// The types of the arguments behind so many as there are parameters.
fn trailing_from(
    alloc: Global,
    types: &Types,
    params: &[Ty],
    args: &[Operand],
) -> Result<Items<Ty>, Memory>
    ensures { IfOk result (λ made. map view_type made ≡ trailing_from (view_types types.now) (types_of (map view_type params.now)) (map view_operand args.now)) }
{
    let mut made = Items::new(alloc);
    for index in params.len()..args.len() {
        let ty = trailing_ty(alloc, types, &args[index])?;
        made.push(ty.into_inner())?;
    }
    Ok(made)
}

fn trailing_ty(alloc: Global, types: &Types, arg: &Operand) -> Result<Boxed<Ty>, Memory>
    ensures { IfOk result (λ made. view_type made ≡ type_of (trailing_value (view_types types.now) (view_operand arg.now))) }
{
    let v = value_type(arg);
    if v.is_integer(types) {
        promoted_ty(alloc, types, arg)
    } else {
        ty_of(alloc, v)
    }
}
