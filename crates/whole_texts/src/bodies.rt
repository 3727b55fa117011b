//! The bodies of functions.

ghost use Rattle.std.specs.Prelude.{map, IfOk};
ghost use Rattle.build_flow_code.specs.Bodies.{body_of};
ghost use Rattle.build_flow_code.specs.Fits.{StmtFits};
ghost use Rattle.build_flow_nodes.specs.Flows as flows;
ghost use Rattle.cx_core.specs.Trees.{CFun};
ghost use Rattle.cx_core.specs.Views.{view_stmt};
ghost use Rattle.flow.specs.Flows.{graph_of, IsClosed};
ghost use Rattle.flow.specs.Views.{flow_view};
ghost use Rattle.reloop.specs.Graphs.{IsFlow};
ghost use Rattle.whole_names.specs.Kept.{NamedProgram};
ghost use Rattle.whole_texts.specs.Texts.{AreNames};
ghost use Rattle.whole_texts.specs.Views.{IsText, IsWritten, passed_view};

use crate::passed::{Passed, copies_of};
use crate::returns::with_last_return;
use crate::shapes::has_dispatch;
use build_flow::flow_of;
use build_flow_code::Body;
use cr_base::{Items, Memory};
use cx_core::CoreStmt;
use emit::emit;
use flow::{Flow, graph_of};
use reloop::shape;
use rs_tree::RStmt;
use std::alloc::Global;

/// The body of a function of the crate.
#[derive(Drop)]
pub struct BodyText {
    /// Whether it says by a number where it goes on, which it keeps in a local of its own.
    pub has_dispatch: bool,
    pub statements: Items<RStmt>,
}

// The body that is written from a flow.
fn text_of(
    alloc: Global,
    of: &Body<'_>,
    passed: &[Passed<'_>],
    flow: &Flow,
) -> Result<BodyText, Memory>
    requires closed { IsClosed (flow_view flow.now) }
    requires reached { IsFlow (graph_of (flow_view flow.now)) }
    ensures { IfOk result (λ made. IsText (body_of of.now) (map passed_view passed.now) (flow_view flow.now) made) }
{
    let graph = graph_of(alloc, flow)?;
    let shape = shape(alloc, &graph)?;
    let mut statements = copies_of(alloc, of, passed)?;
    statements.append(emit(alloc, flow, &shape)?)?;
    let statements = with_last_return(alloc, of, statements)?;
    Ok(BodyText {
        has_dispatch: has_dispatch(&shape),
        statements,
    })
}

/// The body of a function: what is passed by pointers is copied, then its flow is written by a shape that fits, and where it gives a value it ends in a `return`.
///
/// # Errors
///
/// `Memory`: the allocator gave no memory, as which more temporaries or places than a number of 32 bits tells count, too.
pub fn written_body(
    alloc: Global,
    of: &Body<'_>,
    passed: &[Passed<'_>],
    body: &CoreStmt,
) -> Result<BodyText, Memory>
    requires { StmtFits (view_stmt body.now) }
    ensures text { IfOk result (λ made. IsText (body_of of.now) (map passed_view passed.now) (flows.flow_of (body_of of.now) (view_stmt body.now)) made) }
    ensures written { IfOk result (λ made. (program : NamedProgram) (fun : CFun) → AreNames program fun (body_of of.now) (map passed_view passed.now) (view_stmt body.now) → IsWritten program fun made) }
{
    let flow = flow_of(alloc, of, body)?;
    text_of(alloc, of, passed, &flow)
}
