//! Laws of pieces of the leftmost run (ISO C99, 5.1.2.3).

ghost use Rattle.cx_mean_laws.specs.Laws.{AskedBehindSteps, GoesUnfold, LeavesNoMore, UnfinishedTakes};

/// Law: values, moves and calls leave no more steps than they had. So what a simulation owes for a piece is owed within the bound that it
/// was given.
pub fn leaves_no_more()
    ensures { LeavesNoMore }
{}

/// Law: an expression that isn't finished takes a step. So what drops its value, which takes none then, goes on behind a step.
pub fn unfinished_takes()
    ensures { UnfinishedTakes }
{}

/// Law: what a piece calls, and how it goes on, plays a part within less steps than the piece has. So an induction on steps may take
/// calls and moves as it knows them below its bound.
pub fn asked_behind_steps()
    ensures { AskedBehindSteps }
{}

/// Law: the depth to which moves are followed plays no part, where it is more than the bound; a move is one step and what goes on
/// behind it. So a proof that follows a function's moves, or a loop's turns, needs to speak of no depth.
pub fn goes_unfold()
    ensures { GoesUnfold }
{}
