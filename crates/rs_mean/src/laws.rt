ghost use Rattle.rs_mean.specs.Laws.{MoreBudgetContinues, EventsGrow, EndedStaysEnded, TrailIsOutside, LeavesNoMore, ShowsNothing, ListsFollow, LoopsUnfold, BodiesUnfold};

/// Law: a run that doesn't go on within its budget shows the same within every greater budget.
pub fn more_budget_continues()
    ensures { MoreBudgetContinues }
{}

/// Law: within a greater budget the events begin with those within a smaller one.
pub fn events_only_grow()
    ensures { EventsGrow }
{}

/// Law: a run that has ended stays ended, with its status.
pub fn ended_stays_ended()
    ensures { EndedStaysEnded }
{}

/// Law: a run under a trail of answers, where the trail's end, a full store or an answer of another
/// store doesn't stop it, is the run under the outside of these answers.
pub fn trail_is_outside()
    ensures { TrailIsOutside }
{}

/// Law: expressions and statements leave no more units than they had.
pub fn leaves_no_more()
    ensures { LeavesNoMore }
{}

/// Law: expressions and statements without a unit call nothing outside.
pub fn shows_nothing()
    ensures { ShowsNothing }
{}

/// Law: a list of statements behind another runs where control goes on behind that.
pub fn lists_follow()
    ensures { ListsFollow }
{}

/// Law: a loop takes a unit, does its body, and goes on as that says.
pub fn loops_unfold()
    ensures { LoopsUnfold }
{}

/// Law: a called body runs as deep as the units go, so how deep calls may be nested plays no part.
pub fn bodies_unfold()
    ensures { BodiesUnfold }
{}
