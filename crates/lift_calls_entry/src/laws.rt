//! The law of entries. The function does nothing: its contract is the law.

ghost use Rattle.lift_calls_entry.specs.Laws.{EntriesOwe};

/// Law: a function of the crate that is entered beside that of C stands before its body beside it, under every pair of bounds.
/// Used for whole programs, where each function is entered so.
pub fn entries_owe()
    ensures { EntriesOwe }
{}
