ghost use Rattle.std.specs.Prelude.{◌≡◌, map, option_map};
ghost use Rattle.std.specs.List.{list_any};
ghost use Rattle.cx_core.specs.BitFields.{has_bit_field, has_bit_fields, is_bit_field};
ghost use Rattle.cx_core.specs.Views.{view_member, view_record, view_types};

use crate::ty::{Member, RecordTy, Types};

fn members_have_one(members: &[Member]) -> bool
    ensures { result ≡ list_any is_bit_field (map view_member members.now) }
{
    for one in members {
        if one.bits.is_some() {
            return true;
        }
    }
    false
}

fn has_bit_field(found: &Option<RecordTy>) -> bool
    ensures { result ≡ has_bit_field (option_map view_record found.now) }
{
    match found {
        Some(one) => members_have_one(one.members.as_slice()),
        None => false,
    }
}

/// Whether some completed structure or union has a bit-field, named or unnamed (ISO C99, 6.7.2.1p9).
pub fn has_bit_fields(types: &Types) -> bool
    ensures { result ≡ has_bit_fields (view_types types.now) }
{
    for one in types.records.as_slice() {
        if has_bit_field(one) {
            return true;
        }
    }
    false
}
