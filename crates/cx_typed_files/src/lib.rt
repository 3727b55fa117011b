//! Laws: what stands between the external declarations of a unit is known, and a unit that breaks no rule is typed (ISO C99, 6.9).
#![tactic(auto)]

ghost use Rattle.cx_typed_files.specs.Covered.{MentionsAreCovered};
ghost use Rattle.cx_typed_files.specs.Defining.{MentionsDefine};
ghost use Rattle.cx_typed_files.specs.FileScope.{FileDeclarationsGo, UnitsBeginAtFileScope};
ghost use Rattle.cx_typed_files.specs.FileUnits.{DefinitionsGo, ExternalsGo};
ghost use Rattle.cx_typed_files.specs.Ordered.{OrderedThingsAreThere};
ghost use Rattle.cx_typed_files.specs.UnbrokenUnits.{ReadUnitsAreTyped, UnbrokenUnitsAreTyped};

/// Law: before the first declaration of a unit all that was declared is known, held and typed.
pub fn units_begin_at_file_scope()
    ensures { UnitsBeginAtFileScope }
{}

/// Law: a declaration outside of functions that tokens can spell and that breaks no rule keeps what is known there (ISO C99, 6.7, 6.9).
pub fn file_declarations_keep()
    ensures { FileDeclarationsGo }
{}

/// Law: a function definition that tokens can spell and that breaks no rule keeps what is known between external declarations (ISO C99, 6.9.1).
pub fn definitions_keep()
    ensures { DefinitionsGo }
{}

/// Law: so do all external declarations of a unit (ISO C99, 6.9).
pub fn external_declarations_keep()
    ensures { ExternalsGo }
{}

/// Law: a unit that tokens can spell and that breaks no rule is typed (ISO C99, 6.9).
pub fn unbroken_units_are_typed()
    ensures { UnbrokenUnitsAreTyped }
{}

/// Law: so is the unit that the bytes of a file spell, where it breaks no rule (ISO C99, 5.1.1.2, 6.9).
pub fn read_units_are_typed()
    ensures { ReadUnitsAreTyped }
{}

/// Law: what such a unit declares and doesn't define says all that each mention of its name says (ISO C99, 6.2.7).
pub fn mentions_are_covered()
    ensures { MentionsAreCovered }
{}

/// Law: what a mention says that such a unit defines, it defines (ISO C99, 6.9, 6.9.2).
pub fn mentions_define()
    ensures { MentionsDefine }
{}

/// Law: what such a unit orders by its first declarations is a function or an object that it defines or declares (ISO C99, 6.2.2).
pub fn ordered_things_are_there()
    ensures { OrderedThingsAreThere }
{}
