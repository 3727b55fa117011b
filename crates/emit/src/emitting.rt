//! The whole text.

ghost use Rattle.std.specs.Prelude.{◌≡◌, map, IfOk};
ghost use Rattle.emit_rules.specs.Bodies.{emitted};
ghost use Rattle.flow.specs.Views.{flow_view};
ghost use Rattle.reloop.specs.Shapes.{shape_view};
ghost use Rattle.rs_text.specs.Tree.{stmts};
ghost use Rattle.rs_tree.specs.Views.{stmt_view};

use cr_base::{Items, Memory};
use emit_sorting::nests_of;
use emit_texts::body_of;
use flow::Flow;
use reloop::Shape;
use rs_tree::RStmt;
use std::alloc::Global;

/// The statements that are written from a flow and the shape of its graph.
///
/// # Errors
///
/// `Memory`: the allocator gave no memory.
pub fn emit(alloc: Global, flow: &Flow, shape: &Shape) -> Result<Items<RStmt>, Memory>
    ensures { IfOk result (λ made. stmts (map stmt_view made) ≡ emitted (flow_view flow.now) (shape_view shape.now)) }
{
    let nests = nests_of(alloc, flow, shape)?;
    body_of(alloc, flow, &nests)
}
