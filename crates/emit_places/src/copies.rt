//! Copies of nests. Each is refused only for want of memory.

ghost use Rattle.std.specs.Prelude.{◌≡◌, map, IfOk};
ghost use Rattle.emit_nests.specs.Views.{chain_view, nest_view};

use cr_base::{Boxed, Items, Memory};
use emit_nests::{Chain, Nest};
use std::alloc::Global;

/// An equal nest.
#[cycle(copying)]
pub fn copy_nest(alloc: Global, nest: &Nest) -> Result<Boxed<Nest>, Memory>
    ensures { IfOk result (λ made. nest_view made ≡ nest_view nest.now) }
{
    match nest {
        Nest::Single { node, arms } => {
            let arms = copy_arms(alloc, arms)?;
            Boxed::new(alloc, Nest::Single { node: *node, arms })
        }
        Nest::Choice { heads, arms } => {
            let heads = Items::from_slice(alloc, heads.as_slice())?;
            let arms = copy_arms(alloc, arms)?;
            Boxed::new(alloc, Nest::Choice { heads, arms })
        }
        Nest::Group(members) => {
            let members = copy_nests(alloc, members)?;
            Boxed::new(alloc, Nest::Group(members))
        }
        Nest::Repeated { head, body } => {
            let body = copy_nests(alloc, body)?;
            Boxed::new(alloc, Nest::Repeated { head: *head, body })
        }
        Nest::Dispatched { heads, body } => {
            let heads = Items::from_slice(alloc, heads.as_slice())?;
            let body = copy_nests(alloc, body)?;
            Boxed::new(alloc, Nest::Dispatched { heads, body })
        }
    }
}

/// Equal nests, in their order.
#[cycle(copying)]
pub fn copy_nests(alloc: Global, nests: &Items<Nest>) -> Result<Items<Nest>, Memory>
    ensures { IfOk result (λ made. map nest_view made ≡ map nest_view nests.now) }
{
    let mut made = Items::new(alloc);
    for nest in nests.as_slice() {
        made.push(copy_nest(alloc, nest)?.into_inner())?;
    }
    Ok(made)
}

#[cycle(copying)]
fn copy_arms(alloc: Global, arms: &Items<Chain>) -> Result<Items<Chain>, Memory>
    ensures { IfOk result (λ made. map chain_view made ≡ map chain_view arms.now) }
{
    let mut made = Items::new(alloc);
    for arm in arms.as_slice() {
        made.push(copy_arm(alloc, arm)?)?;
    }
    Ok(made)
}

#[cycle(copying)]
fn copy_arm(alloc: Global, arm: &Chain) -> Result<Chain, Memory>
    ensures { IfOk result (λ made. chain_view made ≡ chain_view arm.now) }
{
    let nests = copy_nests(alloc, &arm.nests)?;
    Ok(Chain { nests })
}
