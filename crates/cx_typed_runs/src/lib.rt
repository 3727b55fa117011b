//! Laws: no run of a linked program is stuck (ISO C99, 3.4.3 and 5.1.2.3). It goes on, ends, or breaks a numbered rule of undefined steps;
//! under a trail it may also want an answer or more store, or be given an answer that isn't the store's. Each block that it makes is one
//! that a store makes (6.2.4).
#![tactic(auto)]

ghost use Rattle.cx_typed_runs.specs.Blocks.{AllocationsFitStores, ObjectsFitStores, RunsHoldFitBlocks, RunsMakeFewBlocks};
ghost use Rattle.cx_typed_runs.specs.Runs.{OpenRunsWantNothing, RunsAreNeverStuck, RunsBeginTyped, StatesStayTyped};

/// Law: the state before the first step of a linked program is typed.
pub fn runs_begin_typed()
    ensures { RunsBeginTyped }
{}

/// Law: each step of a linked program keeps its state typed, at whichever ready node, and whatever the outside answers.
pub fn states_stay_typed()
    ensures { StatesStayTyped }
{}

/// Law: no run of a linked program is stuck, after however many steps, under whatever order and outside.
pub fn runs_are_never_stuck()
    ensures { RunsAreNeverStuck }
{}

/// Law: a run of any program that isn't one under a trail never wants for store, nor for an answer.
pub fn open_runs_want_nothing()
    ensures { OpenRunsWantNothing }
{}

/// Law: each object of a linked program is one that a store has a block for: it isn't larger than the largest object of the profile, and
/// its alignment is one that a store knows. So it is also where a limited store has no room for it.
pub fn objects_fit_stores()
    ensures { ObjectsFitStores }
{}

/// Law: what a known function asks to allocate is what a store has a block for, also where a limited store has no room for it.
pub fn allocations_fit_stores()
    ensures { AllocationsFitStores }
{}

/// Law: a run of any program makes no more blocks than it takes steps.
pub fn runs_make_few_blocks()
    ensures { RunsMakeFewBlocks }
{}

/// Law: in a run of a linked program, after however many steps, under whatever order, terms and outside, each live block, of an object or
/// of an allocation, has a size and an alignment that a store gives.
pub fn runs_hold_fit_blocks()
    ensures { RunsHoldFitBlocks }
{}
