//! Tags (ISO C99, 6.7.2.3).
#![tactic(auto, unfolding(crate::specs::Views::view_scope))]

ghost use Rattle.std.specs.Prelude.{◌≡◌, OnOk, OnErr, IfOk, option_map, is_some, slice_get};
ghost use Rattle.std.specs.Option.{option_flatten};
ghost use Rattle.cx_core.specs.Views.{view_types};
ghost use Rattle.cx_rules.specs.Pieces.{with_used, continued, with_open_enum, with_closed_enum};
ghost use Rattle.cx_rules.specs.Scope.{with_tag};
ghost use Rattle.cx_scope.specs.Changes.{with_declared_record, without_tag, is_of_kind, is_continued};
ghost use Rattle.cx_scope.specs.Views.{view_scope, view_tag};

use crate::meant::{Declared, Meant, Tag};
use crate::scope::Scope;
use cr_base::{Memory, Name};
use cx_core::Types;

impl Scope {
    /// A tag comes into scope, where there is one. Refused only for want of memory, and then nothing changed.
    pub fn add_tag(
        &mut self,
        name: &Option<Name>,
        is_record: bool,
        is_open: bool,
        number: u32,
    ) -> Result<(), Memory>
        ensures added { OnOk result (view_scope self.new ≡ with_tag name.now is_record is_open number (view_scope self.old)) }
        ensures refused { OnErr result (view_scope self.new ≡ view_scope self.old) }
    {
        match name {
            None => Ok(()),
            Some(name) => {
                let name = name.copy()?;
                self.add(Declared {
                    name,
                    meant: Meant::Tag {
                        is_record,
                        is_open,
                        number,
                    },
                })
            }
        }
    }

    // Drops the newest declaration, where there is a tag.
    fn drop_tag(&mut self, name: &Option<Name>)
        ensures { view_scope self.new ≡ without_tag name.now (view_scope self.old) }
    {
        match name {
            None => {}
            Some(_) => self.declared.drop_newest(),
        }
    }

    /// A structure or union that is named and not there yet is declared (ISO C99, 6.7.2.3p8). Refused only for want of
    /// memory, and then nothing changed.
    pub fn use_record(
        &mut self,
        found: Option<Tag>,
        name: &Option<Name>,
        is_union: bool,
    ) -> Result<(), Memory>
        ensures added { OnOk result (view_scope self.new ≡ with_used (option_map view_tag found) name.now is_union (view_scope self.old)) }
        ensures refused { OnErr result (view_scope self.new ≡ view_scope self.old) }
    {
        match found {
            None => self.declare_record(name, is_union),
            Some(_) => Ok(()),
        }
    }

    // A new structure or union is declared.
    fn declare_record(&mut self, name: &Option<Name>, is_union: bool) -> Result<(), Memory>
        ensures added { OnOk result (view_scope self.new ≡ with_declared_record name.now is_union (view_scope self.old)) }
        ensures refused { OnErr result (view_scope self.new ≡ view_scope self.old) }
    {
        let Ok(number) = u32::try_from(self.types.records.len()) else {
            return Err(Memory);
        };
        let tag = copy_name(name)?;
        self.add_tag(name, true, false, number)?;
        match self.add_record(tag, is_union) {
            Ok(()) => Ok(()),
            Err(memory) => {
                self.drop_tag(name);
                Err(memory)
            }
        }
    }

    /// The tag that a list of members completes: what it declares in the same scope, where that is such a record and isn't
    /// completed (ISO C99, 6.7.2.3p6).
    pub fn continued(&self, is_union: bool, found: Option<Tag>) -> Option<Tag>
        ensures { option_map view_tag result ≡ continued (view_scope self.now).types is_union (option_map view_tag found) }
    {
        let one = found?;
        if is_continued(&self.types, is_union, one) {
            Some(one)
        } else {
            None
        }
    }

    /// The tag of an enumerated type whose list begins comes into scope, where there is one (ISO C99, 6.2.1p7). Refused
    /// only for want of memory, and then nothing changed.
    pub fn open_enum(&mut self, name: &Option<Name>) -> Result<(), Memory>
        ensures added { OnOk result (view_scope self.new ≡ with_open_enum name.now (view_scope self.old)) }
        ensures refused { OnErr result (view_scope self.new ≡ view_scope self.old) }
    {
        let Ok(number) = u32::try_from(self.types.enums.len()) else {
            return Err(Memory);
        };
        self.add_tag(name, false, true, number)?;
        match self.add_enum() {
            Ok(()) => Ok(()),
            Err(memory) => {
                self.drop_tag(name);
                Err(memory)
            }
        }
    }

    /// The list of an enumerated type has ended; whether it has a negative value. Refused only for want of memory, and then
    /// nothing changed.
    pub fn close_enum(
        &mut self,
        name: &Option<Name>,
        number: u32,
        negative: bool,
    ) -> Result<(), Memory>
        ensures added { OnOk result (view_scope self.new ≡ with_closed_enum name.now number negative (view_scope self.old)) }
        ensures refused { OnErr result (view_scope self.new ≡ view_scope self.old) }
    {
        self.add_tag(name, false, false, number)?;
        self.set_enum_type(number, negative);
        Ok(())
    }
}

fn copy_name(name: &Option<Name>) -> Result<Option<Name>, Memory>
    ensures { IfOk result (λ copy. copy ≡ name.now) }
{
    match name {
        None => Ok(None),
        Some(name) => Ok(Some(name.copy()?)),
    }
}

// Whether a list of members completes what a tag declares.
fn is_continued(types: &Types, is_union: bool, one: Tag) -> bool
    ensures { result ≡ is_continued (view_types types.now) is_union (view_tag one) }
{
    if !one.is_record {
        return false;
    }
    if !is_of_kind(types, is_union, one.number) {
        return false;
    }
    !is_completed(types, one.number)
}

// Whether the record with a number is a union, or a structure.
fn is_of_kind(types: &Types, is_union: bool, number: u32) -> bool
    ensures { result ≡ is_of_kind is_union (slice_get (view_types types.now).record_tags number) }
{
    match types.record_tags.get(number as usize) {
        None => false,
        Some(one) => one.is_union == is_union,
    }
}

fn is_completed(types: &Types, number: u32) -> bool
    ensures { result ≡ is_some (option_flatten (slice_get (view_types types.now).records number)) }
{
    match types.records.get(number as usize) {
        None => false,
        Some(one) => one.is_some(),
    }
}
