//! How control goes to a node.

ghost use Rattle.std.specs.Prelude.{◌≡◌, map, IfOk};
ghost use Rattle.emit_rules.specs.Jumps.{by_label, current_block, goes_to, leaves, tells, told};
ghost use Rattle.emit_texts.specs.Scopes.{jump_view, jumps_of};
ghost use Rattle.rs_text.specs.Tree.{stmts};
ghost use Rattle.rs_tree.specs.Views.{place_view, stmt_view};

use crate::scopes::{Jump, Scope, is_next, jump_to};
use cr_base::{Boxed, Int, Items, Memory, Name};
use emit_stmts::label_of;
use rs_makers::{literal, local};
use rs_tree::{IntegerTy, RPlace, RStmt};
use std::alloc::Global;

// The name of the local that says at which head a dispatch is entered.
const CURRENT_BLOCK: &[u8] = b"current_block";

/// The local that says at which head a dispatch is entered.
pub(crate) fn current_block(alloc: Global) -> Result<Boxed<RPlace>, Memory>
    ensures { IfOk result (λ place. place_view place ≡ current_block) }
{
    local(alloc, Name::of(Vec::from_slice(alloc, CURRENT_BLOCK)?))
}

// It says so from here on.
fn tells(alloc: Global, node: u32) -> Result<Boxed<RStmt>, Memory>
    ensures { IfOk result (λ s. stmt_view s ≡ tells node) }
{
    let place = current_block(alloc)?;
    let value = literal(alloc, Int::from(node), IntegerTy::U32)?;
    Boxed::new(alloc, RStmt::Assign(place, value))
}

/// A node is told in front of statements, where it has to be.
pub(crate) fn told(
    alloc: Global,
    is_told: bool,
    node: u32,
    ss: Items<RStmt>,
) -> Result<Items<RStmt>, Memory>
    ensures { IfOk result (λ made. stmts (map stmt_view made) ≡ told is_told node (stmts (map stmt_view ss))) }
{
    if !is_told {
        return Ok(ss);
    }
    let mut made = Items::new(alloc);
    made.push(tells(alloc, node)?.into_inner())?;
    made.append(ss)?;
    Ok(made)
}

fn by_label(alloc: Global, jump: Jump) -> Result<Boxed<RStmt>, Memory>
    ensures { IfOk result (λ s. stmt_view s ≡ by_label (jump_view jump)) }
{
    let label = label_of(alloc, jump.label)?;
    if jump.turns {
        return Boxed::new(alloc, RStmt::Continue(label));
    }
    Boxed::new(alloc, RStmt::Break(label))
}

fn leaves(alloc: Global, is_next: bool, jump: Jump) -> Result<Items<RStmt>, Memory>
    ensures { IfOk result (λ made. stmts (map stmt_view made) ≡ leaves is_next (jump_view jump)) }
{
    let mut made = Items::new(alloc);
    if is_next {
        return Ok(made);
    }
    made.push(by_label(alloc, jump)?.into_inner())?;
    Ok(made)
}

/// Control goes to a node.
pub(crate) fn goes_to(alloc: Global, scopes: &[Scope], node: u32) -> Result<Items<RStmt>, Memory>
    ensures { IfOk result (λ made. stmts (map stmt_view made) ≡ goes_to (jumps_of scopes.now) node) }
{
    match jump_to(scopes, node) {
        None => Ok(Items::new(alloc)),
        Some(jump) => {
            let way = leaves(alloc, is_next(scopes, node), jump)?;
            told(alloc, jump.is_told, node, way)
        }
    }
}
