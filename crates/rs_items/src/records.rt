//! The record of a structure or union.

ghost use Rattle.std.specs.Prelude.{◌≡◌, ℕ, ◌==◌, if◌then◌else◌, [], Some, map, IfOk, OnErr, OnOk};
ghost use Rattle.cx_core.specs.Views.{view_member, view_record};
ghost use Rattle.rs_items.specs.Known.{view_names};
ghost use Rattle.rs_items.specs.Laid.{IsLaidOut};
ghost use Rattle.rs_items.specs.Records.{fields_walk, no_fields, path_name, placed_members, record_name, record_tree, record_walk, struct_end, struct_walk, union_walk};
ghost use Rattle.rs_items.specs.Types.{path_in};
ghost use Rattle.rs_items.specs.Walks.{view_walk, with_field_names, with_fields_of};
ghost use Rattle.rs_items.specs.declared.known.Named.TheVariants as named;
ghost use Rattle.rs_items_sets.specs.Sets.{begun};
ghost use Rattle.rs_items_sets.specs.declared.scope.NameScope.TheVariants.{Fields};
ghost use Rattle.rs_text.specs.Tree as tree;
ghost use Rattle.rs_tree.specs.Views.{item_view, ty_view};

use crate::known::Named;
use crate::map::NameMap;
use crate::sizes::raised_to;
use crate::walk::Walk;
use cr_base::{Memory, Name, Spot};
use cx_core::{Member, RecordTy};
use rs_tree::{Item, RTy, Record};
use std::alloc::Global;

/// The record of a completed structure or union, which is kept with its path, where its members stand at these spots and it has this size and alignment. Its
/// fields get their names in a set of their own, and are kept. Refused only for want of memory; then no name is taken among those of fields.
pub fn record_item(
    alloc: Global,
    r: &RecordTy,
    spots: &[Spot],
    size: u64,
    align: u64,
    names: &mut NameMap,
) -> Result<Item, Memory>
    requires { IsLaidOut (view_record r.now) spots.now size align }
    ensures item { IfOk result (λ item. item_view item ≡ tree.RecordItem (record_tree (view_names names.old).known (view_record r.now) spots.now align)) }
    ensures fields { OnOk result ((number : ℕ) → (view_names names.new).fields number ≡
        if number == r.now.number then Some (fields_walk (view_names names.old).known (view_record r.now) spots.now).members else (view_names names.old).fields number) }
    ensures no_fields { OnErr result ((number : ℕ) → (view_names names.new).fields number ≡ (view_names names.old).fields number) }
    ensures taken { OnOk result ((view_names names.new).taken ≡
        record (view_names names.old).taken { field_names = (fields_walk (view_names names.old).known (view_record r.now) spots.now).names }) }
    ensures no_names { OnErr result ((view_names names.new).taken ≡ begun Fields (view_names names.old).taken) }
    ensures known { (view_names names.new).known ≡ (view_names names.old).known }
    ensures unit { (view_names names.new).unit ≡ (view_names names.old).unit }
    ensures bits { (view_names names.new).has_bits ≡ (view_names names.old).has_bits }
{
    let made = record_of(alloc, r, spots, align, names);
    if made.is_err() {
        names.begin_fields();
    }
    made
}

// The same, whatever spots and alignment these are.
fn record_of(
    alloc: Global,
    r: &RecordTy,
    spots: &[Spot],
    align: u64,
    names: &mut NameMap,
) -> Result<Item, Memory>
    ensures item { IfOk result (λ item. item_view item ≡ tree.RecordItem (record_tree (view_names names.old).known (view_record r.now) spots.now align)) }
    ensures fields { OnOk result ((number : ℕ) → (view_names names.new).fields number ≡
        if number == r.now.number then Some (fields_walk (view_names names.old).known (view_record r.now) spots.now).members else (view_names names.old).fields number) }
    ensures err { OnErr result ((number : ℕ) → (view_names names.new).fields number ≡ (view_names names.old).fields number) }
    ensures taken { OnOk result (names.new.scopes.field_names ≡ (fields_walk (view_names names.old).known (view_record r.now) spots.now).names) }
    ensures rest { names.new ≡ with_fields_of names.old names.new }
{
    let Walk {
        fields,
        members,
        ..
    } = walk_all(alloc, r.is_union, r.members.as_slice(), spots, names)?;
    let name = record_name(alloc, r.number, names)?;
    let align = raised_to(align, r.members.as_slice())?;
    names.keep_fields(r.number, members)?;
    Ok(Item::Record(Record {
        align,
        is_union: r.is_union,
        name,
        fields,
    }))
}

// The fields of a structure or union.
fn walk_all(
    alloc: Global,
    is_union: bool,
    members: &[Member],
    spots: &[Spot],
    names: &mut NameMap,
) -> Result<Walk, Memory>
    ensures rest { names.new ≡ with_field_names names.old names.new.scopes.field_names }
    ensures walk { IfOk result (λ walk. view_walk names.new.scopes.field_names walk ≡
        record_walk is_union (placed_members (view_names names.old).known (map view_member members.now) spots.now)) }
{
    names.begin_fields();
    if is_union {
        walk_union(alloc, members, spots, names)
    } else {
        walk_struct(alloc, members, spots, names)
    }
}

// The fields of a union.
fn walk_union(
    alloc: Global,
    members: &[Member],
    spots: &[Spot],
    names: &mut NameMap,
) -> Result<Walk, Memory>
    requires { names.old.scopes.field_names ≡ [] }
    ensures rest { names.new ≡ with_field_names names.old names.new.scopes.field_names }
    ensures walk { IfOk result (λ walk. view_walk names.new.scopes.field_names walk ≡
        union_walk no_fields (placed_members (view_names names.old).known (map view_member members.now) spots.now)) }
{
    let mut walk = Walk::new(alloc);
    let mut left = spots;
    for one in members {
        let Some((spot, others)) = left.split_first() else {
            return Ok(walk);
        };
        walk.union_step(alloc, one, *spot, names)?;
        left = others;
    }
    Ok(walk)
}

// The fields of a structure.
fn walk_struct(
    alloc: Global,
    members: &[Member],
    spots: &[Spot],
    names: &mut NameMap,
) -> Result<Walk, Memory>
    requires { names.old.scopes.field_names ≡ [] }
    ensures rest { names.new ≡ with_field_names names.old names.new.scopes.field_names }
    ensures walk { IfOk result (λ walk. view_walk names.new.scopes.field_names walk ≡
        struct_end (struct_walk no_fields (placed_members (view_names names.old).known (map view_member members.now) spots.now))) }
{
    let mut walk = walk_members(alloc, members, spots, names)?;
    walk.struct_end(alloc, names)?;
    Ok(walk)
}

// The fields of the members of a structure.
fn walk_members(
    alloc: Global,
    members: &[Member],
    spots: &[Spot],
    names: &mut NameMap,
) -> Result<Walk, Memory>
    requires { names.old.scopes.field_names ≡ [] }
    ensures rest { names.new ≡ with_field_names names.old names.new.scopes.field_names }
    ensures walk { IfOk result (λ walk. view_walk names.new.scopes.field_names walk ≡
        struct_walk no_fields (placed_members (view_names names.old).known (map view_member members.now) spots.now)) }
{
    let mut walk = Walk::new(alloc);
    let mut left = spots;
    for one in members {
        let Some((spot, others)) = left.split_first() else {
            return Ok(walk);
        };
        walk.struct_step(alloc, one, *spot, names)?;
        left = others;
    }
    Ok(walk)
}

// The name of the record that is kept.
fn record_name(alloc: Global, number: u32, names: &NameMap) -> Result<Name, Memory>
    ensures { IfOk result (λ name. name ≡ record_name ((view_names names.now).known (named.Record number))) }
{
    match names.known(Named::Record(number)) {
        Some(one) => path_name(alloc, &one.ty),
        None => Ok(Name::of(Vec::new(alloc))),
    }
}

fn path_name(alloc: Global, ty: &RTy) -> Result<Name, Memory>
    ensures { IfOk result (λ name. name ≡ path_name (path_in (ty_view ty.now))) }
{
    match ty {
        RTy::Record(path) => path.name.copy(),
        _ => Ok(Name::of(Vec::new(alloc))),
    }
}
