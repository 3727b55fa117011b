//! Laws: what stops a run of a crate that is on a trail of answers.
#![tactic(auto)]

ghost use Rattle.rs_stops.specs.Full.{UnlimitedRunsAreNeverFull};

/// Law: over a store without limit no object of a run of any crate goes past the limit, whatever the trail answers and however
/// many units there are.
pub fn unlimited_runs_are_never_full()
    ensures { UnlimitedRunsAreNeverFull }
{}
