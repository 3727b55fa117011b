ghost use Rattle.std.specs.Prelude.{◌≡◌, map, option_map};
ghost use Rattle.rs_items.specs.Known.{view_field, view_names};
ghost use Rattle.rs_items_fields.specs.Fields.{field_name, name_at, stands_at};
ghost use Rattle.rs_tree.specs.Views.{ty_view};

use cr_base::{Name, Spot};
use rs_items::{MemberField, NameMap};
use rs_same::same_type;
use rs_tree::RTy;

/// The name of the field of a member that is no bit-field, by the number of its structure or union, the spot at which it stands and its Rust type. None where no record
/// of that number was written, or no member stands there with that type; the first where several do, as members of a union may.
pub fn field_name<'a>(names: &'a NameMap, number: u32, spot: Spot, ty: &RTy) -> Option<&'a Name>
    ensures { option_map (λ name. name.now) result ≡ field_name (view_names names.now) number spot (ty_view ty.now) }
{
    let fields = names.fields(number)?;
    name_at(spot.byte, ty, fields.as_slice())
}

// The name of the first field that stands at this byte with this type.
fn name_at<'a>(byte: u64, ty: &RTy, fields: &'a [MemberField]) -> Option<&'a Name>
    ensures { option_map (λ name. name.now) result ≡ name_at byte (ty_view ty.now) (map view_field fields.now) }
{
    for one in fields {
        if stands_at(byte, ty, one) {
            return Some(&one.name);
        }
    }
    None
}

fn stands_at(byte: u64, ty: &RTy, one: &MemberField) -> bool
    ensures { result ≡ stands_at byte (ty_view ty.now) (view_field one.now) }
{
    one.byte == byte && same_type(one.ty.get(), ty)
}
