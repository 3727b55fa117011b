//! What declarations and statements mean: typed statements, and the objects of their block (ISO C99, 6.2.4p5, 6.5.2.5p6).

ghost use Rattle.std.specs.Prelude.{◌≡◌, OnOk};
ghost use Rattle.cx_decl_steps.specs.Views.{view_meant};
ghost use Rattle.cx_rules.specs.UnitWalk as unit;

use cr_base::{Items, Memory};
use cx_core::CoreStmt;
use std::alloc::Global;

/// Typed statements, and the objects that belong to the block in which they stand (ISO C99, 6.2.4p5, 6.5.2.5p6).
#[derive(Drop)]
pub struct Meant {
    pub stmts: Items<CoreStmt>,
    pub objects: Items<u32>,
}

impl Meant {
    /// Nothing yet. It takes no memory.
    pub fn new(alloc: Global) -> Meant
        ensures { view_meant result ≡ unit.nothing_meant }
    {
        Meant {
            stmts: Items::new(alloc),
            objects: Items::new(alloc),
        }
    }

    /// Adds what stands behind it. Refused only for want of memory.
    pub fn add(&mut self, more: Meant) -> Result<(), Memory>
        ensures { OnOk result (view_meant self.new ≡ unit.meant_behind (view_meant self.old) (view_meant more)) }
    {
        let Meant { stmts, objects } = more;
        self.stmts.append(stmts)?;
        self.objects.append(objects)?;
        Ok(())
    }
}
