//! A law of the moves of C's bodies: what they leave of the objects of open statements.
#![tactic(auto)]

ghost use Rattle.cx_mean_moves.specs.Laws.{MovesLeave};

/// Law: what follows in a body, a jump, a choice and a statement that does what it does leave the objects of the innermost open statements,
/// which die, and stand among the others. So what holds of memory as its objects die holds behind every move.
pub fn moves_leave()
    ensures { MovesLeave }
{}
