//! Sizes of types of C, and what is known of their alignments.

ghost use Rattle.std.specs.Prelude.{◌≡◌, true, IfOk, map};
ghost use Rattle.cx_core.specs.Views.{view_member, view_type};
ghost use Rattle.rs_items.specs.Known.{view_names};
ghost use Rattle.rs_items.specs.Records.{elements_size, fields_align, has_named_bits, is_named_bits, kept_size, least_align, member_align, raised_to, size_of};
ghost use Rattle.rs_items.specs.declared.known.Named.TheVariants as named;

use crate::known::Named;
use crate::map::NameMap;
use cr_base::Memory;
use cx_core::{Member, Ty, TyForm};

/// The size of a type in bytes: 0 for what has none. Refused where it is no number of 64 bits.
pub fn size_of(t: &Ty, names: &NameMap) -> Result<u64, Memory>
    ensures { IfOk result (λ size. size ≡ size_of (view_names names.now).known (view_type t.now)) }
{
    match &t.form {
        TyForm::Basic(which) => Ok(u64::from(which.width() / 8)),
        TyForm::Enum(_) => Ok(4),
        TyForm::Pointer(_) => Ok(8),
        TyForm::Array(element, length) => {
            let size = size_of(element.get(), names)?;
            elements_size(*length, size)
        }
        TyForm::Record(number) => Ok(record_size(*number, names)),
        TyForm::Void | TyForm::Function(_) => Ok(0),
    }
}

fn elements_size(length: Option<u64>, element: u64) -> Result<u64, Memory>
    ensures { IfOk result (λ size. size ≡ elements_size length element) }
{
    match length {
        None => Ok(0),
        Some(count) => match count.checked_mul(element) {
            Some(size) => Ok(size),
            None => Err(Memory),
        },
    }
}

fn record_size(number: u32, names: &NameMap) -> u64
    ensures { result ≡ kept_size ((view_names names.now).known (named.Record number)) }
{
    match names.known(Named::Record(number)) {
        Some(one) => one.size,
        None => 0,
    }
}

// The alignment that a type is known to have.
fn least_align(t: &Ty) -> u64
    ensures { result ≡ least_align (view_type t.now) }
{
    match &t.form {
        TyForm::Basic(which) => u64::from(which.width() / 8),
        TyForm::Enum(_) => 4,
        TyForm::Pointer(_) => 8,
        TyForm::Array(element, _) => least_align(element.get()),
        TyForm::Void | TyForm::Record(_) | TyForm::Function(_) => 1,
    }
}

fn member_align(one: &Member) -> u64
    ensures { result ≡ member_align (view_member one.now) }
{
    match one.bits {
        Some(_) => 1,
        None => least_align(&one.ty),
    }
}

// The alignment that the fields of members are known to have.
fn fields_align(members: &[Member]) -> u64
    ensures { result ≡ fields_align (map view_member members.now) }
{
    let mut found = 1;
    for one in members {
        found = member_align(one).max(found);
    }
    found
}

// Whether a member is a bit-field with a name.
fn is_named_bits(one: &Member) -> bool
    ensures { result ≡ is_named_bits (view_member one.now) }
{
    one.bits.is_some() && one.name.is_some()
}

// Whether one of the members is a bit-field with a name.
fn has_named_bits(members: &[Member]) -> bool
    ensures { result ≡ has_named_bits (map view_member members.now) }
{
    for one in members {
        if is_named_bits(one) {
            return true;
        }
    }
    false
}

/// The N of `align(N)` of a record with these members, if it has to stand. Refused where N is no number of 32 bits.
pub(crate) fn raised_to(align: u64, members: &[Member]) -> Result<Option<u32>, Memory>
    ensures { IfOk result (λ raised. raised ≡ raised_to align (map view_member members.now)) }
{
    if !has_named_bits(members) || fields_align(members) >= align {
        return Ok(None);
    }
    match u32::try_from(align) {
        Ok(align) => Ok(Some(align)),
        Err(_) => Err(Memory),
    }
}
