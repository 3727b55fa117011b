//! Laws of names. The functions do nothing: their contracts are the laws.

ghost use Rattle.whole_names.specs.Laws.{NamesOfFunctions, NamesOfModules};

/// Law: no two items of a module have one name, so that a path names one.
pub fn names_of_modules()
    ensures { NamesOfModules }
{}

/// Law: no two parameters or locals of a function have one name, and none has that of an item of its module.
pub fn names_of_functions()
    ensures { NamesOfFunctions }
{}
