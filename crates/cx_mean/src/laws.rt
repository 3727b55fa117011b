//! Laws of the meaning of C. The functions do nothing: their contracts are the laws.

ghost use Rattle.cx_mean.specs.Laws.{CompatibleTypesAreFound, LeftmostIsRun, EndedRunsStay, EventsOnlyGrow, TrailIsOutside, StaticsBegin};
ghost use Rattle.cx_mean.specs.Unwritten.{UnwrittenStays, UnwrittenStaysInAnyOrder};

/// Law: under the empty order, which always takes the leftmost node, a run shows after any number of
/// steps what the leftmost run shows that goes by recursion on the program's trees.
pub fn leftmost_is_run()
    ensures { LeftmostIsRun }
{}

/// Law: a run that has ended, or that goes no further, shows the same from then on.
pub fn ended_runs_stay()
    ensures { EndedRunsStay }
{}

/// Law: what a run has called, it has called from then on, in this order and before all else.
pub fn events_only_grow()
    ensures { EventsOnlyGrow }
{}

/// Law: a run under a trail, unless it stops for the trail or its store, is the run to which the outside
/// gives the answers of the trail.
pub fn trail_is_outside()
    ensures { TrailIsOutside }
{}

/// Law: static objects begin in text order, one a step, and each gets the block with its number in that
/// order, all of whose bytes are 0.
pub fn statics_begin()
    ensures { StaticsBegin }
{}

/// Law: an expression without calls changes only what its marks say that it wrote: every cell, value,
/// structure, union and bit-field elsewhere is what it was, and nothing but memory changed.
pub fn unwritten_stays()
    ensures { UnwrittenStays }
{}

/// Law: the same in whatever order an expression without calls is evaluated, and no step of it calls.
pub fn unwritten_stays_in_any_order()
    ensures { UnwrittenStaysInAnyOrder }
{}

/// Law: the types that a run takes as compatible, where a function is called through a pointer, are those that
/// are compatible (ISO C99, 6.2.7, 6.5.2.2p9).
pub fn compatible_types_are_found()
    ensures { CompatibleTypesAreFound }
{}
