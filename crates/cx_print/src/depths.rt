//! How many nodes stand on the longest path of a tree.

mod above;
mod declarators;
mod exprs;
mod initialisers;
mod specifiers;
mod stmts;

ghost use Rattle.std.specs.Prelude.{◌≡◌, min, ◌-◌, ◌^◌, map, option_map};
ghost use Rattle.cx_tree.specs.Depth as depth;
ghost use Rattle.cx_tree.specs.Views.{decl_view, definition_view, external_view, init_declarator_view, initialiser_view, unit_view};

use above::{above_three, above_two};
use cr_base::Boxed;
use cx_tree::{Decl, Definition, External, InitDeclarator, Initialiser, Unit};
use declarators::declarator_depth;
use initialisers::initialiser_depth;
use specifiers::specs_depth;
use stmts::stmt_depth;

fn init_depth(init: &Option<Boxed<Initialiser>>) -> u64
    ensures { result ≡ min (depth.init_depth (option_map initialiser_view init.now)) (2 ^ 64 - 1) }
{
    match init {
        None => 0,
        Some(init) => initialiser_depth(init.get()),
    }
}

fn init_declarator_depth(declarator: &InitDeclarator) -> u64
    ensures { result ≡ min (depth.init_declarator_depth (init_declarator_view declarator.now)) (2 ^ 64 - 1) }
{
    above_two(
        declarator_depth(declarator.declarator.get()),
        init_depth(&declarator.init),
    )
}

fn init_declarators_depth(list: &[InitDeclarator]) -> u64
    ensures { result ≡ min (depth.init_declarators_depth (map init_declarator_view list.now)) (2 ^ 64 - 1) }
{
    let mut deepest = 0u64;
    for declarator in list {
        deepest = deepest.max(init_declarator_depth(declarator));
    }
    deepest
}

fn decl_depth(decl: &Decl) -> u64
    ensures { result ≡ min (depth.decl_depth (decl_view decl.now)) (2 ^ 64 - 1) }
{
    above_two(
        specs_depth(decl.specs.as_slice()),
        init_declarators_depth(decl.list.as_slice()),
    )
}

fn definition_depth(definition: &Definition) -> u64
    ensures { result ≡ min (depth.definition_depth (definition_view definition.now)) (2 ^ 64 - 1) }
{
    above_three(
        specs_depth(definition.specs.as_slice()),
        declarator_depth(definition.declarator.get()),
        stmt_depth(definition.body.get()),
    )
}

fn external_depth(external: &External) -> u64
    ensures { result ≡ min (depth.external_depth (external_view external.now)) (2 ^ 64 - 1) }
{
    match external {
        External::Function(definition) => definition_depth(definition.get()),
        External::Declaration(decl) => decl_depth(decl.get()),
    }
}

fn externals_depth(parts: &[External]) -> u64
    ensures { result ≡ min (depth.externals_depth (map external_view parts.now)) (2 ^ 64 - 1) }
{
    let mut deepest = 0u64;
    for part in parts {
        deepest = deepest.max(external_depth(part));
    }
    deepest
}

/// How many nodes stand on the longest path of a unit's tree, or 2^64 - 1 where there are more. A node is a
/// value of a tree type; lists, what may be missing, the brackets of an array, and what only wraps another
/// node are none. It takes no memory.
pub fn depth(unit: &Unit) -> u64
    ensures { result ≡ min (depth.unit_depth (unit_view unit.now)) (2 ^ 64 - 1) }
{
    externals_depth(unit.parts.as_slice()).saturating_add(1)
}
