//! Laws of the bodies of functions. The functions do nothing: their contracts are the laws.

ghost use Rattle.build_flow_bodies.specs.Laws.{BodiesFollow};

/// Law: the text of any shape that fits the flow of a body owes what the body of C does.
/// Used for the functions of a crate that is written for a program.
pub fn bodies_follow()
    ensures { BodiesFollow }
{}
