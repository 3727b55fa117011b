//! Laws of the parts of bodies. The functions do nothing: their contracts are the laws.

ghost use Rattle.build_flow_parts.specs.Bodies.{EndsAreDone, PartsAreDone};
ghost use Rattle.build_flow_parts.specs.Tells.{NodesAreTold};

/// Law: what is written for full expressions, conditions, operands of `switch`, returns, the lives of objects and declarations that are reached does what these do, with and without bit-field
/// members in the program, and so does what is written for initial values, where the module declares the external functions that are called.
/// Used for the text of a body.
pub fn parts_done()
    ensures { PartsAreDone }
{}

/// Law: where the end of a body is reached, what is written there is given back: 0 for `main`.
/// Used for the text of a body.
pub fn ends_done()
    ensures { EndsAreDone }
{}

/// Law: `current_block` is told a node, wherever both stand in a body: they stand there behind it, too, and it is read as this node.
/// Used for texts with a dispatch.
pub fn nodes_told()
    ensures { NodesAreTold }
{}
