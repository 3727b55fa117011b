//! Laws of the checks. The functions do nothing: their contracts are the laws.

ghost use Rattle.cx_rules.specs.Laws.{ExpressionsStop, TypeNamesStop, InitialisersStop, UnitsStop};

/// Law: the walk over an expression that stops at the first broken node refuses what the walk over all its
/// nodes has as its first broken one, and means the same where none is broken.
pub fn expressions_stop()
    ensures { ExpressionsStop }
{}

/// Law: the same of a type name.
pub fn type_names_stop()
    ensures { TypeNamesStop }
{}

/// Law: the same of an initialiser, for an object of any type.
pub fn initialisers_stop()
    ensures { InitialisersStop }
{}

/// Law: the same of a unit, all of whose nodes are walked.
pub fn units_stop()
    ensures { UnitsStop }
{}
