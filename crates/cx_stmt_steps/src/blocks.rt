//! Statements that are blocks of their own (ISO C99, 6.8.4p3, 6.8.5p5).

ghost use Rattle.std.specs.Prelude.{◌≡◌, ◌++◌, IfOk, OnOk};
ghost use Rattle.cx_core.specs.Views.{view_stmt};
ghost use Rattle.cx_rules.specs.UnitWalk.{as_block};
ghost use Rattle.cx_stmt_steps.specs.Blocks.{own_objects, with_objects};
ghost use Rattle.cx_stmt_steps.specs.Views.{view_stated};

use crate::stated::Stated;
use cr_base::{Boxed, Items, Memory};
use cx_core::CoreStmt;
use std::alloc::Global;

/// A statement as a block of its own, which holds the objects. Refused only for want of memory.
#[tactic(auto, using(crate::proofs::Holding::holds_none, crate::proofs::Holding::holds_both))]
pub fn as_block(alloc: Global, one: Stated) -> Result<Boxed<CoreStmt>, Memory>
    ensures { IfOk result (λ made. view_stmt made ≡ as_block (view_stated one)) }
{
    if one.objects.is_empty() {
        return Ok(one.stmt);
    }
    let objects = joined(alloc, one.objects, one.stmt.get())?;
    held(alloc, objects, one.stmt)
}

// Objects with those of a statement behind them.
#[tactic(auto, using(crate::proofs::Holding::own_view))]
fn joined(alloc: Global, objects: Items<u32>, stmt: &CoreStmt) -> Result<Items<u32>, Memory>
    ensures { IfOk result (λ all. all ≡ objects ++ own_objects (view_stmt stmt.now)) }
{
    let own = Items::from_slice(alloc, stmt.objects.as_slice())?;
    let mut all = objects;
    all.append(own)?;
    Ok(all)
}

// A statement that holds these objects.
fn held(
    alloc: Global,
    objects: Items<u32>,
    stmt: Boxed<CoreStmt>,
) -> Result<Boxed<CoreStmt>, Memory>
    ensures { IfOk result (λ made. view_stmt made ≡ with_objects objects (view_stmt stmt)) }
{
    let inner = stmt.into_inner();
    Boxed::new(
        alloc,
        CoreStmt {
            place: inner.place,
            objects,
            form: inner.form,
        },
    )
}
