ghost use Rattle.std.specs.Prelude.{◌≡◌, min, ◌-◌, ◌^◌, map};
ghost use Rattle.straight_tree.specs.Depth as depth;
ghost use Rattle.straight_tree.specs.Views.{declarator_view, param_view, params};

use crate::declarator::{Declarator, Param};

#[cycle(declarator_depths)]
pub fn declarator_depth(declarator: &Declarator) -> u64
    ensures { result ≡ min (depth.declarator_depth (declarator_view declarator.now)) (2 ^ 64 - 1) }
{
    match declarator {
        Declarator::Missing | Declarator::Identifier { .. } => 1,
        Declarator::Function { of, params, .. } => declarator_depth(of.get())
            .max(params_depth(params.as_slice()))
            .saturating_add(1),
    }
}

#[cycle(declarator_depths)]
fn param_depth(param: &Param) -> u64
    ensures { result ≡ min (depth.param_depth (param_view param.now)) (2 ^ 64 - 1) }
{
    declarator_depth(&param.declarator).max(1).saturating_add(1)
}

#[cycle(declarator_depths)]
fn params_depth(list: &[Param]) -> u64
    ensures { result ≡ min (depth.params_depth (params (map param_view list.now))) (2 ^ 64 - 1) }
{
    let mut deepest = 0u64;
    for param in list {
        deepest = deepest.max(param_depth(param));
    }
    deepest
}
