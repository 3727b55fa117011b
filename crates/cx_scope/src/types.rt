//! New structure, union and enumerated types (ISO C99, 6.7.2.1 to 6.7.2.3).
#![tactic(auto, unfolding(crate::specs::Views::view_scope))]

ghost use Rattle.std.specs.Prelude.{◌≡◌, OnOk, OnErr};
ghost use Rattle.cx_core.specs.Views.{view_record, view_types};
ghost use Rattle.cx_rules.specs.Scope.{with_record, with_enum, with_enum_type};
ghost use Rattle.cx_scope.specs.Changes.{with_contents, with_enum_types, with_number_completed, with_record_types, with_tag_of};
ghost use Rattle.cx_scope.specs.Views.{view_scope};

use crate::lists::{drop_last, replace_at};
use crate::scope::Scope;
use cr_base::{Memory, Name};
use cx_core::{RecordTag, RecordTy, Types};

impl Scope {
    /// A structure or union comes into being that isn't completed (ISO C99, 6.7.2.3p4). Refused only for want of memory,
    /// and then nothing changed.
    pub fn add_record(&mut self, tag: Option<Name>, is_union: bool) -> Result<(), Memory>
        ensures added { OnOk result (view_scope self.new ≡ with_record tag is_union (view_scope self.old)) }
        ensures refused { OnErr result (view_scope self.new ≡ view_scope self.old) }
    {
        put_record(&mut self.types, tag, is_union, self.unit)
    }

    /// The number of a structure or union stands behind those that were completed (ISO C99, 6.7.2.3p4). Refused only for want of
    /// memory, and then nothing changed.
    pub fn note_completed(&mut self, number: u32) -> Result<(), Memory>
        ensures noted { OnOk result (view_scope self.new ≡ with_number_completed number (view_scope self.old)) }
        ensures refused { OnErr result (view_scope self.new ≡ view_scope self.old) }
    {
        self.completed.push(number)
    }

    /// The structure or union with its number has these members (ISO C99, 6.7.2.1p7). It takes no memory.
    pub fn complete_record(&mut self, one: RecordTy)
        ensures { view_scope self.new ≡ with_contents one.number (view_record one) (view_scope self.old) }
    {
        let index = one.number as usize;
        replace_at(&mut self.types.records, index, Some(one));
    }

    /// An enumerated type comes into being, whose list may follow (ISO C99, 6.7.2.2). Refused only for want of memory, and
    /// then nothing changed.
    pub fn add_enum(&mut self) -> Result<(), Memory>
        ensures added { OnOk result (view_scope self.new ≡ with_enum (view_scope self.old)) }
        ensures refused { OnErr result (view_scope self.new ≡ view_scope self.old) }
    {
        put_enum(&mut self.types, self.unit)
    }

    /// Whether the enumerated type with a number is compatible with `int` (ISO C99, 6.7.2.2p4). It takes no memory.
    pub fn set_enum_type(&mut self, number: u32, is_int: bool)
        ensures { view_scope self.new ≡ with_enum_type number is_int (view_scope self.old) }
    {
        replace_at(&mut self.types.enums, number as usize, is_int);
    }
}

fn put_record(types: &mut Types, tag: Option<Name>, is_union: bool, unit: u32) -> Result<(), Memory>
    ensures added { OnOk result (view_types types.new ≡ with_record_types tag is_union unit (view_types types.old)) }
    ensures refused { OnErr result (types.new ≡ types.old) }
{
    types.records.push(None)?;
    match put_tag(types, tag, is_union, unit) {
        Ok(()) => Ok(()),
        Err(memory) => {
            drop_last(&mut types.records);
            Err(memory)
        }
    }
}

// The tag, the kind and the unit of a new record.
fn put_tag(types: &mut Types, tag: Option<Name>, is_union: bool, unit: u32) -> Result<(), Memory>
    ensures added { OnOk result (view_types types.new ≡ with_tag_of tag is_union unit (view_types types.old)) }
    ensures refused { OnErr result (types.new ≡ types.old) }
{
    types.record_tags.push(RecordTag { tag, is_union })?;
    match types.record_units.push(unit) {
        Ok(()) => Ok(()),
        Err(memory) => {
            drop_last(&mut types.record_tags);
            Err(memory)
        }
    }
}

fn put_enum(types: &mut Types, unit: u32) -> Result<(), Memory>
    ensures added { OnOk result (view_types types.new ≡ with_enum_types unit (view_types types.old)) }
    ensures refused { OnErr result (types.new ≡ types.old) }
{
    types.enums.push(true)?;
    match types.enum_units.push(unit) {
        Ok(()) => Ok(()),
        Err(memory) => {
            drop_last(&mut types.enums);
            Err(memory)
        }
    }
}
