//! Objects of compound literals (ISO C99, 6.5.2.5p6).
#![tactic(auto, unfolding(cx_scope::specs::Views::view_scope))]

ghost use Rattle.std.specs.Prelude.{◌≡◌, drop, map, IfOk};
ghost use Rattle.cx_contents.specs.Contents.{block_literals};
ghost use Rattle.cx_scope.specs.Views.{view_made, view_scope};

use cr_base::{Items, Memory};
use cx_scope::{Made, Scope};
use std::alloc::Global;

fn block_literals(alloc: Global, literals: &[Made]) -> Result<Items<u32>, Memory>
    ensures { IfOk result (λ made. made ≡ block_literals (map view_made literals.now)) }
{
    let mut objects = Items::new(alloc);
    for one in literals {
        if one.fixed.is_none() {
            objects.push(one.object)?;
        }
    }
    Ok(objects)
}

fn literals_behind(literals: &[Made], count: usize) -> &[Made]
    ensures { result.now ≡ drop count literals.now }
{
    if count < literals.len() {
        &literals[count..]
    } else {
        &[]
    }
}

/// The objects of the compound literals of a block that came since there were so many literals (ISO C99, 6.5.2.5p6). Refused only for
/// want of memory.
pub fn literals_since(scope: &Scope, count: u64) -> Result<Items<u32>, Memory>
    ensures { IfOk result (λ made. made ≡ block_literals (drop count (view_scope scope.now).literals)) }
{
    block_literals(
        scope.alloc,
        literals_behind(scope.literals.as_slice(), count as usize),
    )
}
