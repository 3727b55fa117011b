ghost use Rattle.whole_valid.specs.Laws.{CratesAreValid};

/// Law: the crate that is written for a linked program is a crate of the subset.
pub fn crates_are_valid()
    ensures { CratesAreValid }
{}
