//! What is written in Rust for an expression of C does what the expression does in the leftmost order (ISO C99, 6.5; the Rust Reference, "Statements").
#![tactic(auto)]

ghost use Rattle.lift_does.specs.Does.{LiftingDoes};

/// Law: so it is with each expression, where the module declares the external functions that it calls so that they take the arguments.
/// Used for the text of a body.
pub fn lifting_does()
    ensures { LiftingDoes }
{}
