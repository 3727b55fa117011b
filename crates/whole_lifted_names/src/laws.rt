//! Laws of names that are kept. The functions do nothing: their contracts are the laws.

ghost use Rattle.whole_lifted_names.specs.Laws.{KeptNamesAreLifted, TemporariesAreFew};

/// Law: where what is kept is what the things of a program are in the module of a unit, in a function with its names, expressions are written with the names of that function. Sizes of types
/// are those by the sizes of structures and unions that are kept, so that an array that is too large has one, too.
pub fn kept_names_are_lifted()
    ensures { KeptNamesAreLifted }
{}

/// Law: a function has no temporary that has no type.
pub fn temporaries_are_few()
    ensures { TemporariesAreFew }
{}
