ghost use Rattle.cr_runs_rules.specs.Laws.{TicksBy, Together, Alone, UnitAlone, TickTarget, PiecesTaken, SourceGoesOn, HaltedOwe};

/// Law: a step of the source and a unit of the target may be taken together, under every pair of bounds.
/// Used for where both come to the same place of a graph, with nothing known of the bounds.
pub fn ticks_by<F, G, S, T, A, B, E>()
    ensures { TicksBy F G S T A B E }
{}

/// Law: so they may of runs that are told by what they are under each bound. Used for a step of C and a
/// unit of its crate, of which neither is written as one.
pub fn together<F, G, S, T, A, B, E>()
    ensures { Together F G S T A B E }
{}

/// Law: the source may take a step alone, under every pair of bounds. Used for steps of C for which the
/// crate has nothing.
pub fn alone<F, G, S, T, A, B, E>()
    ensures { Alone F G S T A B E }
{}

/// Law: the target may take a unit alone where the source fails or waits. Used for turns and branches that
/// only the crate has.
pub fn unit_alone<F, G, S, T, A, B, E>()
    ensures { UnitAlone F G S T A B E }
{}

/// Law: the target may take a unit in front of what it owes where the source fails or waits. Used for a
/// branch of a graph at which C waits, or has no meaning.
pub fn tick_target<F, G, S, T, A, B, E>()
    ensures { TickTarget F G S T A B E }
{}

/// Law: behind a first piece that takes a step, the second is owed under one bound less. Used for an
/// expression of C whose value is dropped behind it.
pub fn pieces_taken<F, G, S, T, A, B, C, D, E>()
    ensures { PiecesTaken F G S T A B C D E }
{}

/// Law: a source waits at a step, and with what stands in front of it and behind it. Used for what the
/// source is asked for by a unit of the target alone.
pub fn source_goes_on<F, S, A, B, E>()
    ensures { SourceGoesOn F S A B E }
{}

/// Law: programs that end with one status at the same events owe each other no more. Used for `exit` and
/// `abort` in both.
pub fn halted_owe<F, G, S, T, A, B, E>()
    ensures { HaltedOwe F G S T A B E }
{}
