//! Law: the leftmost run of a typed expression is typed (ISO C99, 6.5 and 5.1.2.3).
#![tactic(auto)]

ghost use Rattle.cx_typed_leftmost.specs.Laws.{LeftmostStaysTyped};

/// Law: an expression of a typed program that comes to its end in the leftmost order gives an operand of its type, and leaves a typed memory in which each
/// object in scope lives on, where the functions that it calls do.
pub fn leftmost_stays_typed()
    ensures { LeftmostStaysTyped }
{}
