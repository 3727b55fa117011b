//! Laws: what stays as it was while a program runs (ISO C99, 6.2.4 and 6.5p2).
#![tactic(auto)]

ghost use Rattle.cx_stays.specs.Called.{CalledLeavesUnreached};
ghost use Rattle.cx_stays.specs.Reach.{UnreachedStays};
ghost use Rattle.cx_stays.specs.Stays.{DeadStaysDead, QuietCallsLeaveRest, RunsHoldCells};

/// Law: an expression whose calls store in no object and end no object's life changes only what its marks say that it wrote, in
/// whatever order it is evaluated: every cell, value, structure, union and bit-field elsewhere is what it was, in each block that was
/// made before. The cells of live blocks stay ones that a machine holds.
pub fn quiet_calls_leave_rest()
    ensures { QuietCallsLeaveRest }
{}

/// Law: no step of a program brings a dead block back to life, nor changes how large or how aligned one is that lives on, nor gives a
/// number of a block up. So a place outside of every live block stays outside, whatever is called.
pub fn dead_stays_dead()
    ensures { DeadStaysDead }
{}

/// Law: in every run of a program, after however many steps, each cell of a live block is one that a machine holds.
pub fn runs_hold_cells()
    ensures { RunsHoldCells }
{}

/// Law: what no name and no pointer of a program leads to stays as it is, whatever is called: where a set of blocks has all that a state
/// names or points to, no step leads out of it, and each block that it leaves out is the same, with all that is loaded from it. So it is
/// with an expression by itself, which reaches of the objects in scope those that it names.
pub fn unreached_stays()
    ensures { UnreachedStays }
{}

/// Law: functions that wait have objects of their own. What the arguments of a function that was called and the static objects don't lead
/// to stays as it is until it returns, whatever it calls; and what an expression in a run doesn't reach, of the objects of its function
/// by those that it names, stays as it is until it is finished, whatever functions it calls.
pub fn called_leaves_unreached()
    ensures { CalledLeavesUnreached }
{}
