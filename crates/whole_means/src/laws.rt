ghost use Rattle.whole_means.specs.Laws.{BaresMean, EntriesMeanInCrate, NamesMeanInCrate, NamesOfBodies, OutersMean, ProgramsAgree};

/// Law: the names of a module of the written crate mean what they say.
pub fn names_mean()
    ensures { NamesMeanInCrate }
{}

/// Law: no two names of a function are one, and what a function keeps has its name.
pub fn names_of_bodies()
    ensures { NamesOfBodies }
{}

/// Law: a program agrees with its crate on functions and static objects as it begins.
pub fn programs_agree()
    ensures { ProgramsAgree }
{}

/// Law: the parameters and locals of a function are what its names say.
pub fn entries_mean()
    ensures { EntriesMeanInCrate }
{}

/// Law: a unit that calls an external function declares it, with its own symbol and type.
pub fn outers_mean()
    ensures { OutersMean }
{}

/// Law: a unit that calls an external function without arguments, though it has parameters elsewhere, declares it once more without parameters.
pub fn bares_mean()
    ensures { BaresMean }
{}
