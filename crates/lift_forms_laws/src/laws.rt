//! Laws of the forms' meaning. The functions do nothing: their contracts are the laws.

ghost use Rattle.lift_forms_laws.specs.LawsBits.{BitFieldsGive, BitFieldsStore};
ghost use Rattle.lift_forms_laws.specs.LawsBoth.{BitFieldsInBoth};
ghost use Rattle.lift_forms_laws.specs.LawsMeaning.{FormsStand, ChoicesStand, ConstantsStand, PlacesStand};

/// Law: from operands that stand for C's, operators and conversions give what stands for C's result.
pub fn forms_stand()
    ensures { FormsStand }
{}

/// Law: so do `&&`, `||` and a choice, of which only one part may be evaluated.
pub fn choices_stand()
    ensures { ChoicesStand }
{}

/// Law: constants, null pointers and functions give what they are.
pub fn constants_stand()
    ensures { ConstantsStand }
{}

/// Law: an object is where it is kept, with whatever type it is used, and its address is that place.
pub fn places_stand()
    ensures { PlacesStand }
{}

/// Law: what is read of a bit-field by its bytes is C's value of it.
pub fn bit_fields_give()
    ensures { BitFieldsGive }
{}

/// Law: the statements that store in a bit-field put as many low bits of the number there as it has, leave the bits beside it, and write no other byte.
pub fn bit_fields_store()
    ensures { BitFieldsStore }
{}

/// Law: so in both memories: what C loads from a bit-field the crate reads, and where C stores in one the crate leaves what stands for it.
pub fn bit_fields_in_both()
    ensures { BitFieldsInBoth }
{}
