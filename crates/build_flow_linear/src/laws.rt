//! Laws of linear code.

ghost use Rattle.build_flow_linear.specs.Laws.{LinearCodeStands};

/// Law: what linear code says of its places is what the places of the body are.
pub fn linear_code_stands()
    ensures { LinearCodeStands }
{}
