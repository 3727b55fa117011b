//! The law of bit-fields. The function does nothing: its contract is the law.

ghost use Rattle.lift_stands_bits.specs.Laws.{BitFieldsStand};

/// Law: in a program with bit-field members, the bytes of the crate that a bit-field of C touches are bytes, the bit-field is so many bits of their
/// number, and after a store of the bytes of that number with another field the memories stand for each other.
pub fn bit_fields_stand()
    ensures { BitFieldsStand }
{}
