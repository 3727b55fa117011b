//! Laws of the leftmost run of C: what its values and moves leave of the lives and sizes of objects.
#![tactic(auto)]

ghost use Rattle.cx_mean_lives.specs.Laws.{ScopeLives, UnwrittenSizes};

/// Law: an expression without calls makes no object, ends no object's life, and leaves each as large as it was. So a pointer may be moved, and
/// pointers may be compared, behind it as in front of it.
pub fn unwritten_sizes()
    ensures { UnwrittenSizes }
{}

/// Law: whatever functions an expression calls, each object that was made before and that isn't one of those that may be freed keeps its size
/// and isn't one of those behind it; so do the moves of a function with the objects that aren't its own. So an operand without loads may be
/// computed behind a call that stands to its right.
pub fn scope_lives()
    ensures { ScopeLives }
{}
