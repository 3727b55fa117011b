//! How many nodes stand on the longest path of a tree.

mod declarators;
mod exprs;
mod stmts;

ghost use Rattle.std.specs.Prelude.{◌≡◌, min, ◌-◌, ◌^◌, map, option_map};
ghost use Rattle.straight_tree.specs.Depth as depth;
ghost use Rattle.straight_tree.specs.Views.{decl_view, external_view, init_declarator_view, initialiser_view, unit_view};

use crate::declaration::{Decl, InitDeclarator, Initialiser};
use crate::unit::{External, Unit};
use declarators::declarator_depth;
use exprs::expr_depth;
use stmts::stmt_depth;

fn init_depth(init: &Option<Initialiser>) -> u64
    ensures { result ≡ min (depth.init_depth (option_map initialiser_view init.now)) (2 ^ 64 - 1) }
{
    match init {
        None => 0,
        Some(Initialiser::Expr(expr)) => expr_depth(expr),
    }
}

fn init_declarator_depth(declarator: &InitDeclarator) -> u64
    ensures { result ≡ min (depth.init_declarator_depth (init_declarator_view declarator.now)) (2 ^ 64 - 1) }
{
    declarator_depth(&declarator.declarator)
        .max(init_depth(&declarator.init))
        .saturating_add(1)
}

fn init_declarators_depth(list: &[InitDeclarator]) -> u64
    ensures { result ≡ min (depth.init_declarators_depth (map init_declarator_view list.now)) (2 ^ 64 - 1) }
{
    let mut deepest = 0u64;
    for declarator in list {
        deepest = deepest.max(init_declarator_depth(declarator));
    }
    deepest
}

fn decl_depth(decl: &Decl) -> u64
    ensures { result ≡ min (depth.decl_depth (decl_view decl.now)) (2 ^ 64 - 1) }
{
    init_declarators_depth(decl.list.as_slice())
        .max(1)
        .saturating_add(1)
}

fn external_depth(external: &External) -> u64
    ensures { result ≡ min (depth.external_depth (external_view external.now)) (2 ^ 64 - 1) }
{
    match external {
        External::Function {
            declarator,
            body,
            ..
        } => declarator_depth(declarator)
            .max(stmt_depth(body))
            .max(1)
            .saturating_add(1),
        External::Decl(decl) => decl_depth(decl),
    }
}

fn externals_depth(parts: &[External]) -> u64
    ensures { result ≡ min (depth.externals_depth (map external_view parts.now)) (2 ^ 64 - 1) }
{
    let mut deepest = 0u64;
    for part in parts {
        deepest = deepest.max(external_depth(part));
    }
    deepest
}

/// How many nodes stand on the longest path of a unit's tree, or 2^64 - 1 where there are more. A node
/// stands for a production of its own: an alternative that only wraps another, and a list, are none.
/// It takes no memory.
pub fn depth(unit: &Unit) -> u64
    ensures { result ≡ min (depth.unit_depth (unit_view unit.now)) (2 ^ 64 - 1) }
{
    externals_depth(unit.parts.as_slice()).saturating_add(1)
}
