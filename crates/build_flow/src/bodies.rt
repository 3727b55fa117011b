//! The flow of a body.

ghost use Rattle.std.specs.Prelude.{◌≡◌, IfOk};
ghost use Rattle.build_flow_code.specs.Bodies.{body_of};
ghost use Rattle.build_flow_code.specs.Fits.{StmtFits};
ghost use Rattle.build_flow_nodes.specs.Flows as spec;
ghost use Rattle.cx_core.specs.Views.{view_stmt};
ghost use Rattle.flow.specs.Flows.{graph_of, IsClosed};
ghost use Rattle.flow.specs.Views.{flow_view};
ghost use Rattle.reloop.specs.Graphs.{IsFlow};

use build_flow_code::{Body, body_code};
use build_flow_reached::flow_of_code;
use cr_base::Memory;
use cx_core::CoreStmt;
use flow::Flow;
use std::alloc::Global;

/// The flow of the body of a function. Its nodes are the places of the body that control reaches, in the order of the text, and the body itself is the first, which is
/// entered. Its entry and the targets of its branches are nodes, and each node is reached from the entry.
///
/// # Errors
///
/// `Memory`: the allocator gave no memory, as which more temporaries or places than a number of 32 bits tells count, too.
pub fn flow_of(alloc: Global, of: &Body<'_>, body: &CoreStmt) -> Result<Flow, Memory>
    requires { StmtFits (view_stmt body.now) }
    ensures flow { IfOk result (λ made. flow_view made ≡ spec.flow_of (body_of of.now) (view_stmt body.now)) }
    ensures closed { IfOk result (λ made. IsClosed (flow_view made)) }
    ensures reached { IfOk result (λ made. IsFlow (graph_of (flow_view made))) }
{
    let code = body_code(alloc, of, body)?;
    flow_of_code(alloc, code)
}
