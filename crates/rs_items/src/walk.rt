//! The fields of a record, one behind the other.

ghost use Rattle.std.specs.Prelude.{◌≡◌, ◌+◌, ◌<◌, ◌^◌, [], IfOk, OnOk};
ghost use Rattle.cx_core.specs.Views.{view_member};
ghost use Rattle.rs_items.specs.Known.{view_names};
ghost use Rattle.rs_items.specs.Records.{filled, no_fields, placed_member, field_name, member_name, put_bytes, put_field, put_member, reached, size_of, struct_end, struct_step, union_step, whole_bytes};
ghost use Rattle.rs_items.specs.Walks.{view_walk, with_field_names};
ghost use Rattle.rs_text.specs.Tree as tree;
ghost use Rattle.rs_text.specs.declared.integer.IntegerTy.TheVariants.{U8};
ghost use Rattle.rs_tree.specs.Views.{ty_view};

use crate::known::MemberField;
use crate::map::NameMap;
use crate::sizes::size_of;
use crate::types::rust_type;
use cr_base::{Boxed, Items, Memory, Name, Spot};
use cx_core::Member;
use rs_text::IntegerTy;
use rs_tree::{Field, RTy};
use std::alloc::Global;

/// What the members in front have become: so many bytes are in fields, and bit-fields reach over so many.
#[derive(Drop)]
pub(crate) struct Walk {
    pub(crate) taken: u64,
    pub(crate) due: u64,
    pub(crate) fields: Items<Field>,
    /// The fields of members that are no bit-fields.
    pub(crate) members: Items<MemberField>,
}

impl Walk {
    /// No member stands in front.
    pub(crate) fn new(alloc: Global) -> Walk
        ensures { view_walk [] result ≡ no_fields }
    {
        Walk {
            taken: 0,
            due: 0,
            fields: Items::new(alloc),
            members: Items::new(alloc),
        }
    }

    // One more field, which gets the first name that is free: that name.
    fn put_field(
        &mut self,
        wanted: &Name,
        ty: Boxed<RTy>,
        names: &mut NameMap,
    ) -> Result<Name, Memory>
        ensures rest { names.new ≡ with_field_names names.old names.new.scopes.field_names }
        ensures walk { OnOk result (view_walk names.new.scopes.field_names self.new ≡ put_field (view_walk names.old.scopes.field_names self.old) wanted.now (ty_view ty)) }
        ensures name { IfOk result (λ name. name ≡ field_name (view_walk names.old.scopes.field_names self.old) wanted.now) }
    {
        let name = names.field_name(wanted)?;
        let copy = name.copy()?;
        self.fields.push(Field { name, ty })?;
        Ok(copy)
    }

    // So many bytes, in which bit-fields stand: no field where there are none.
    fn put_bytes(&mut self, alloc: Global, count: u64, names: &mut NameMap) -> Result<(), Memory>
        ensures rest { names.new ≡ with_field_names names.old names.new.scopes.field_names }
        ensures walk { OnOk result (view_walk names.new.scopes.field_names self.new ≡ put_bytes (view_walk names.old.scopes.field_names self.old) count) }
    {
        if count == 0 {
            return Ok(());
        }
        let wanted = Name::of(Vec::from_slice(alloc, b"bits")?);
        let ty = bytes_type(alloc, count)?;
        self.put_field(&wanted, ty, names)?;
        Ok(())
    }

    // The field of a member that is no bit-field.
    fn put_member(
        &mut self,
        alloc: Global,
        one: &Member,
        spot: Spot,
        names: &mut NameMap,
    ) -> Result<(), Memory>
        ensures rest { names.new ≡ with_field_names names.old names.new.scopes.field_names }
        ensures walk { OnOk result (view_walk names.new.scopes.field_names self.new ≡
            put_member (view_walk names.old.scopes.field_names self.old) (placed_member (view_names names.old).known (view_member one.now) spot)) }
    {
        let wanted = member_name(alloc, one)?;
        let ty = rust_type(alloc, &one.ty, names)?;
        let kept = rust_type(alloc, &one.ty, names)?;
        let name = self.put_field(&wanted, ty, names)?;
        self.members.push(MemberField {
            byte: spot.byte,
            ty: kept,
            name,
        })?;
        Ok(())
    }

    /// One more member of a structure.
    #[tactic(auto, unfolding(crate::specs::Records::struct_step))]
    pub(crate) fn struct_step(
        &mut self,
        alloc: Global,
        one: &Member,
        spot: Spot,
        names: &mut NameMap,
    ) -> Result<(), Memory>
        ensures rest { names.new ≡ with_field_names names.old names.new.scopes.field_names }
        ensures walk { OnOk result (view_walk names.new.scopes.field_names self.new ≡
            struct_step (view_walk names.old.scopes.field_names self.old) (placed_member (view_names names.old).known (view_member one.now) spot)) }
    {
        match one.bits {
            Some(_) => self.reach(spot),
            None => self.plain_step(alloc, one, spot, names),
        }
    }

    // One more member of a structure that is no bit-field.
    fn plain_step(
        &mut self,
        alloc: Global,
        one: &Member,
        spot: Spot,
        names: &mut NameMap,
    ) -> Result<(), Memory>
        ensures rest { names.new ≡ with_field_names names.old names.new.scopes.field_names }
        ensures walk { OnOk result (view_walk names.new.scopes.field_names self.new ≡
            filled (put_member (struct_end (view_walk names.old.scopes.field_names self.old)) (placed_member (view_names names.old).known (view_member one.now) spot))
            (spot.byte + size_of (view_names names.old).known (view_member one.now).type)) }
    {
        let size = size_of(&one.ty, names)?;
        self.struct_end(alloc, names)?;
        self.put_member(alloc, one, spot, names)?;
        let end = sum(spot.byte, size)?;
        self.taken = end;
        self.due = end;
        Ok(())
    }

    // A bit-field of a structure.
    fn reach(&mut self, spot: Spot) -> Result<(), Memory>
        ensures { OnOk result (self.new ≡ record self.old { due = reached spot }) }
    {
        let bits = u64::from(spot.bit) + u64::from(spot.width);
        self.due = sum(spot.byte, whole_bytes(bits))?;
        Ok(())
    }

    /// Bit-fields at the end of a structure, or in front of a member that is none.
    #[tactic(auto, unfolding(crate::specs::Records::struct_end))]
    pub(crate) fn struct_end(&mut self, alloc: Global, names: &mut NameMap) -> Result<(), Memory>
        ensures rest { names.new ≡ with_field_names names.old names.new.scopes.field_names }
        ensures walk { OnOk result (view_walk names.new.scopes.field_names self.new ≡ struct_end (view_walk names.old.scopes.field_names self.old)) }
    {
        self.put_bytes(alloc, self.due.saturating_sub(self.taken), names)
    }

    /// One more member of a union.
    pub(crate) fn union_step(
        &mut self,
        alloc: Global,
        one: &Member,
        spot: Spot,
        names: &mut NameMap,
    ) -> Result<(), Memory>
        ensures rest { names.new ≡ with_field_names names.old names.new.scopes.field_names }
        ensures walk { OnOk result (view_walk names.new.scopes.field_names self.new ≡
            union_step (view_walk names.old.scopes.field_names self.old) (placed_member (view_names names.old).known (view_member one.now) spot)) }
    {
        match one.bits {
            Some(width) => self.put_bytes(alloc, whole_bytes(u64::from(width)), names),
            None => self.put_member(alloc, one, spot, names),
        }
    }
}

// So many bits in whole bytes.
fn whole_bytes(bits: u64) -> u64
    requires { bits < 2 ^ 34 }
    ensures { result ≡ whole_bytes bits }
{
    (bits + 7) / 8
}

fn sum(one: u64, other: u64) -> Result<u64, Memory>
    ensures { IfOk result (λ sum. sum ≡ one + other) }
{
    match one.checked_add(other) {
        Some(sum) => Ok(sum),
        None => Err(Memory),
    }
}

// `[u8; N]`.
fn bytes_type(alloc: Global, count: u64) -> Result<Boxed<RTy>, Memory>
    ensures { IfOk result (λ made. ty_view made ≡ tree.Array (tree.Integer U8) count) }
{
    let byte = Boxed::new(alloc, RTy::Integer(IntegerTy::U8))?;
    Boxed::new(alloc, RTy::Array(byte, count))
}

// The name of a member that is no bit-field, which has one.
fn member_name(alloc: Global, one: &Member) -> Result<Name, Memory>
    ensures { IfOk result (λ name. name ≡ member_name (view_member one.now).name) }
{
    match &one.name {
        Some(name) => name.copy(),
        None => Ok(Name::of(Vec::new(alloc))),
    }
}
