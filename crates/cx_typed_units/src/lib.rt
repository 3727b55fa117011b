//! Laws: statements, declarations and units that break no rule are typed (ISO C99, 6.7 to 6.9).
#![tactic(auto)]

ghost use Rattle.cx_typed_units.specs.Forms.{DeclarationsGo, InitialisersGo, StatementsGo};
ghost use Rattle.cx_typed_units.specs.Rest.{ExpressionsLeaveRest};
ghost use Rattle.cx_typed_units.specs.Spelled.{SpelledStatementsGo};

/// Law: expressions, types and initialisers leave all of a scope but its declarations, types, literals and mentions.
pub fn expressions_leave_rest()
    ensures { ExpressionsLeaveRest }
{}

/// Law: the walk over a statement that finds no broken node gives a typed one, where its expressions and declarations go so (ISO C99, 6.8).
pub fn statements_are_typed()
    ensures { StatementsGo }
{}

/// Law: the walk over a declaration in a block that finds no broken node gives a typed one, where its specifiers, declarators and
/// initialisers go so (ISO C99, 6.7).
pub fn declarations_are_typed()
    ensures { DeclarationsGo }
{}

/// Law: a declarator in a block whose initialiser stores typed values gives a typed declaration (ISO C99, 6.7.8).
pub fn initialised_objects_are_typed()
    ensures { InitialisersGo }
{}

/// Law: the walk over a statement or over items of a block that tokens can spell gives typed ones, where it finds no broken node (ISO C99, 6.8).
pub fn spelled_statements_are_typed()
    ensures { SpelledStatementsGo }
{}
