ghost use Rattle.straight_rust_mean.specs.Laws.{MoreBudgetContinues, EventsGrow, EndedStaysEnded};

/// Law: a run that doesn't go on within its budget shows the same within every greater budget.
pub fn more_budget_continues()
    ensures { MoreBudgetContinues }
{}

/// Law: within a greater budget the events begin with those within a smaller one.
pub fn events_only_grow()
    ensures { EventsGrow }
{}

/// Law: a run that has ended stays ended, with its status.
pub fn ended_stays_ended()
    ensures { EndedStaysEnded }
{}
