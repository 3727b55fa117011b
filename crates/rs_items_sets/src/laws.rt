//! Laws of names. The functions do nothing: their contracts are the laws.

ghost use Rattle.rs_items_sets.specs.LawsNames.{NamesAreFirst, NamesDiffer};

/// Law: the Rust name of a name is its first candidate that isn't taken, however many are, and an identifier.
pub fn names_are_first()
    ensures { NamesAreFirst }
{}

/// Law: names that are taken one behind the other differ from each other and from those that were taken.
pub fn names_differ()
    ensures { NamesDiffer }
{}
