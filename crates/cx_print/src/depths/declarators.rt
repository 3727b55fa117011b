//! The depth of declarators (ISO C99, 6.7.5).

ghost use Rattle.std.specs.Prelude.{◌≡◌, min, ◌-◌, ◌^◌, map};
ghost use Rattle.cx_tree.specs.Depth as depth;
ghost use Rattle.cx_tree.specs.Views.{brackets_view, declarator_view, param_view, params};

use crate::depths::above::above_two;
use crate::depths::exprs::expr_depth;
use crate::depths::specifiers::specs_depth;
use cx_tree::{Brackets, Declarator, Param};

#[cycle(tree_depths)]
pub fn declarator_depth(declarator: &Declarator) -> u64
    ensures { result ≡ min (depth.declarator_depth (declarator_view declarator.now)) (2 ^ 64 - 1) }
{
    match declarator {
        Declarator::Missing => 0,
        Declarator::Identifier { .. } => 1,
        Declarator::Group { inner: of, .. }
        | Declarator::Pointer { of, .. }
        | Declarator::Identifiers { of, .. } => declarator_depth(of.get()).saturating_add(1),
        Declarator::Array { of, brackets, .. } => {
            above_two(declarator_depth(of.get()), brackets_depth(brackets))
        }
        Declarator::Function { of, params, .. } => {
            above_two(declarator_depth(of.get()), params_depth(params.as_slice()))
        }
    }
}

#[cycle(tree_depths)]
fn brackets_depth(brackets: &Brackets) -> u64
    ensures { result ≡ min (depth.brackets_depth (brackets_view brackets.now)) (2 ^ 64 - 1) }
{
    match brackets {
        Brackets::Unsized { .. } | Brackets::Star { .. } => 0,
        Brackets::Length { length, .. }
        | Brackets::StaticFirst { length, .. }
        | Brackets::StaticLast { length, .. } => expr_depth(length.get()),
    }
}

#[cycle(tree_depths)]
fn params_depth(list: &[Param]) -> u64
    ensures { result ≡ min (depth.params_depth (params (map param_view list.now))) (2 ^ 64 - 1) }
{
    let mut deepest = 0u64;
    for param in list {
        deepest = deepest.max(param_depth(param));
    }
    deepest
}

#[cycle(tree_depths)]
fn param_depth(param: &Param) -> u64
    ensures { result ≡ min (depth.param_depth (param_view param.now)) (2 ^ 64 - 1) }
{
    above_two(
        specs_depth(param.specs.as_slice()),
        declarator_depth(param.declarator.get()),
    )
}
