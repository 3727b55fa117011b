//! Laws of calls. The functions do nothing: their contracts are the laws.

ghost use Rattle.lift_calls.specs.Laws.{AllCallsOwe, CallNodesOwe, CallsKeep, PromisesShrink, ReturnsMeet};

/// Law: what calls owe below two bounds they owe below smaller ones, and what is promised there is promised here.
pub fn promises_shrink()
    ensures { PromisesShrink }
{}

/// Law: each call of a program owes what it does below all bounds, where each function is entered beside that of C, and its body owes what C's does if called
/// functions do below smaller bounds.
pub fn all_calls_owe()
    ensures { AllCallsOwe }
{}

/// Law: a call of a function that the program defines owes what both functions owe, behind a step of C and a unit of the crate.
pub fn call_nodes_owe()
    ensures { CallNodesOwe }
{}

/// Law: over a call, what is inside of the function that calls stays so: its objects and locals agree, its result has its place, and what isn't its own is as
/// it was.
pub fn calls_keep()
    ensures { CallsKeep }
{}

/// Law: where the statements of a body have come to a return of C, its locals may end, and the call has come to where that of C has.
pub fn returns_meet()
    ensures { ReturnsMeet }
{}
