//! Laws of the graphs of flows.

ghost use Rattle.build_flow_graphs.specs.Laws.{BodiesFlow};

/// Law: the entry of the flow of a body and the targets of its branches are its nodes, and each of them is reached from the entry.
pub fn bodies_flow()
    ensures { BodiesFlow }
{}
