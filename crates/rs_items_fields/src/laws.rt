//! Laws of the fields of members. The function does nothing: its contract is the law.

ghost use Rattle.rs_items_fields.specs.LawsFields.{FieldsFound};

/// Law: a field that is found stands where it was looked for, each member that is no bit-field is found, and of several the first.
pub fn fields_are_found()
    ensures { FieldsFound }
{}
