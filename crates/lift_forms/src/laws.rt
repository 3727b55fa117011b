//! Laws of the forms' types. The functions do nothing: their contracts are the laws.

ghost use Rattle.lift_forms.specs.LawsValid.{FormsAreValid, LeavesAreValid};
ghost use Rattle.lift_forms.specs.LawsTyping.{FormsAreTyped, ConstantsAreTyped, PlacesAreTyped, BitFieldsAreTyped};

/// Law: operators, tests and conversions of operands that have the types that C's rules give them have the type of C's result.
pub fn forms_are_typed()
    ensures { FormsAreTyped }
{}

/// Law: constants, null pointers and functions have their types.
pub fn constants_are_typed()
    ensures { ConstantsAreTyped }
{}

/// Law: the place of an object has the type with which it is used, and so do addresses.
pub fn places_are_typed()
    ensures { PlacesAreTyped }
{}

/// Law: a bit-field is read as a number of 64 bits, and what stores one is well typed.
pub fn bit_fields_are_typed()
    ensures { BitFieldsAreTyped }
{}

/// Law: operators, tests and conversions of valid operands are valid, where their types are.
pub fn forms_are_valid()
    ensures { FormsAreValid }
{}

/// Law: so are constants, functions, places and addresses.
pub fn leaves_are_valid()
    ensures { LeavesAreValid }
{}
