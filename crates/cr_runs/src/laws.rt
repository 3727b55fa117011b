ghost use Rattle.cr_runs.specs.Laws.{ValuesOwe, NothingOwed, PiecesOwe, TicksOwe, StepOwes, UnitOwes, NamesOwe, LessOwed, EndsAreKnown};

/// Law: values at once owe each other no more than to stand to each other.
pub fn values_owe<F, G, S, T, A, B, E>()
    ensures { ValuesOwe F G S T A B E }
{}

/// Law: where the source has no meaning, the target owes nothing.
pub fn nothing_is_owed<F, G, S, T, A, B, E>()
    ensures { NothingOwed F G S T A B E }
{}

/// Law: what is owed piece by piece is owed by one piece after another.
pub fn pieces_owe<F, G, S, T, A, B, C, D, E>()
    ensures { PiecesOwe F G S T A B C D E }
{}

/// Law: a step of the source and a unit of the target may be taken together.
pub fn ticks_owe<F, G, S, T, A, B, E>()
    ensures { TicksOwe F G S T A B E }
{}

/// Law: the source may take a step alone.
pub fn step_owes<F, G, S, T, A, B, E>()
    ensures { StepOwes F G S T A B E }
{}

/// Law: the target may take a unit alone where the source waits.
pub fn unit_owes<F, G, S, T, A, B, E>()
    ensures { UnitOwes F G S T A B E }
{}

/// Law: runs that are the same under each bound owe the same.
pub fn names_owe<F, G, S, T, A, B, E>()
    ensures { NamesOwe F G S T A B E }
{}

/// Law: what is owed may be said of less, and under smaller bounds.
pub fn less_is_owed<F, G, S, T, A, B, E>()
    ensures { LessOwed F G S T A B E }
{}

/// Law: what each end of the source is known to be may be said of both ends, too.
pub fn ends_are_known<F, G, S, T, A, B, E>()
    ensures { EndsAreKnown F G S T A B E }
{}
