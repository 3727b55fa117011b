ghost use Rattle.straight_mean.specs.Laws.{LeftmostIsRun, EndedRunsStay, StaticsBegin};
ghost use Rattle.straight_mean.specs.Sound.{TypedIsSound};
ghost use Rattle.straight_mean.specs.Unwritten.{UnwrittenStays};

/// Law: under the empty order, which always takes the leftmost node, a run shows after any number of
/// steps what the leftmost run shows that goes by recursion on the program's trees.
pub fn leftmost_is_run()
    ensures { LeftmostIsRun }
{}

/// Law: a run that has ended, or that came to an undefined step, shows the same from then on.
pub fn ended_runs_stay()
    ensures { EndedRunsStay }
{}

/// Law: static objects begin in text order, one a step, and each gets the block with its number in that
/// order, all of whose bytes are 0.
pub fn statics_begin_in_order()
    ensures { StaticsBegin }
{}

/// Law: a typed expression of a linked program gives an operand of its type, or comes to a step that C
/// leaves undefined, and never to one that no typed program has.
pub fn typed_expressions_are_sound()
    ensures { TypedIsSound }
{}

/// Law: where a typed expression of a linked program comes to its end, what its marks don't say that it
/// wrote is what it was before: cells, and what is loaded from them.
pub fn unwritten_stays()
    ensures { UnwrittenStays }
{}
