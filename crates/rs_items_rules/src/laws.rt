ghost use Rattle.rs_items_rules.specs.LawsRecords.{BitsAreCovered, FieldsStand, RecordsAgree, TypesAgree};

/// Law: the Rust type of a complete type has its size and alignment.
pub fn types_agree()
    ensures { TypesAgree }
{}

/// Law: the record of a structure or union has its size and alignment.
pub fn records_agree()
    ensures { RecordsAgree }
{}

/// Law: each member that is no bit-field has a field of its own name, which stands where the member stands.
pub fn fields_stand()
    ensures { FieldsStand }
{}

/// Law: the bytes in which a bit-field stands are in a field of bytes.
pub fn bits_are_covered()
    ensures { BitsAreCovered }
{}
