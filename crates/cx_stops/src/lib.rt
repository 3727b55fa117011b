//! Laws: where runs stop (ISO C99, 3.4.3 and 5.1.2.3). An undefined step stands at a place of its program's text; over a store without a
//! limit no run stops for want of store.
#![tactic(auto)]

ghost use Rattle.cx_stops.specs.Full.{UnlimitedRunsAreNeverFull};
ghost use Rattle.cx_stops.specs.Runs.{UndefinedStepsStandInUnits};

/// Law: an undefined step of a run stands in a unit of its program. Where every place of a program's objects and functions is of some
/// units, and unit 0 is one of them, so is the place of each undefined step, after however many steps, under whatever order, terms and
/// outside.
pub fn undefined_steps_stand_in_units()
    ensures { UndefinedStepsStandInUnits }
{}

/// Law: a run of any program under a trail over a store without a limit never wants for store, after however many steps, under whatever
/// order and outside.
pub fn unlimited_runs_are_never_full()
    ensures { UnlimitedRunsAreNeverFull }
{}
