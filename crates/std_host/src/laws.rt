//! A law of what calls write. The function does nothing: its contract is the law.

ghost use Rattle.std_host.specs.Laws.{OneMoreWrites};

/// Law: what calls have written is what `out_of` says of them, one call after the other.
pub fn one_more_writes()
    ensures { OneMoreWrites }
{}
