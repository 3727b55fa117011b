//! Structures and unions that are completed (ISO C99, 6.7.2.1p7).

ghost use Rattle.std.specs.Prelude.{◌≡◌, IfOk, OnOk, OnErr, map, slice_get};
ghost use Rattle.cx_context.specs.Laid.{IsLaid};
ghost use Rattle.cx_context.specs.Slots.{is_open};
ghost use Rattle.cx_context.specs.Views.{scope_of};
ghost use Rattle.cx_core.specs.Views.{view_member, view_record, view_types};
ghost use Rattle.cx_layout.specs.Calls.{AddsRecord, HaveSameRows};
ghost use Rattle.cx_rules.specs.Rules.{record_too_large};
ghost use Rattle.cx_rules.specs.Scope.{with_completed};
ghost use Rattle.cx_scope.specs.Views.{view_scope};

use crate::context::Context;
use cr_base::Memory;
use cx_core::{RecordTy, Types};
use cx_layout::{Layouts, adding_is_completing, have_fitting_bits};
use cx_scope::Scope;

impl Context {
    /// Whether a structure or union with these members is too large, or has one whose size isn't known. Refused only for want
    /// of memory.
    pub fn is_record_too_large(&self, one: &RecordTy) -> Result<bool, Memory>
        ensures { IfOk result (λ large. record_too_large (scope_of self.now).types one.now.is_union one.now.number (map view_member one.now.members) ≡ large) }
    {
        is_too_large(&self.scope, &self.layouts, one)
    }

    /// A structure or union is completed. Refused only for want of memory, and then nothing is said of the scope.
    pub fn end_record(&mut self, one: RecordTy) -> Result<(), Memory>
        ensures { OnOk result (scope_of self.new ≡ with_completed one.number (view_record one) (scope_of self.old)) }
    {
        complete(&mut self.scope, &mut self.layouts, one)
    }
}

#[tactic(auto, using(crate::proofs::Completed::large_by))]
fn is_too_large(scope: &Scope, layouts: &Layouts, one: &RecordTy) -> Result<bool, Memory>
    requires { IsLaid (view_scope scope.now).types layouts.now }
    ensures { IfOk result (λ large. record_too_large (view_scope scope.now).types one.now.is_union one.now.number (map view_member one.now.members) ≡ large) }
{
    // K22 leaves no wider bit-field.
    if !have_fitting_bits(one.members.as_slice()) {
        return Err(Memory);
    }
    let found = layouts.has_row(one)?;
    Ok(!found)
}

// A record of the types is completed, and its layout is added to those of the types.
fn complete(scope: &mut Scope, layouts: &mut Layouts, one: RecordTy) -> Result<(), Memory>
    requires { IsLaid (view_scope scope.old).types layouts.old }
    ensures completed { OnOk result (view_scope scope.new ≡ with_completed one.number (view_record one) (view_scope scope.old)) }
    ensures laid { IsLaid (view_scope scope.new).types layouts.new }
{
    // Its number is one of the scope's types, and K24 leaves no second list.
    if !is_open(scope.types(), one.number) {
        return Err(Memory);
    }
    scope.note_completed(one.number)?;
    add_row(layouts, &one)?;
    adding_is_completing();
    scope.complete_record(one);
    Ok(())
}

// The layout of a record is added.
fn add_row(layouts: &mut Layouts, one: &RecordTy) -> Result<(), Memory>
    ensures added { OnOk result (AddsRecord layouts.old (view_record one.now) layouts.new) }
    ensures refused { OnErr result (HaveSameRows layouts.old layouts.new) }
{
    // K22 leaves no wider bit-field.
    if !have_fitting_bits(one.members.as_slice()) {
        return Err(Memory);
    }
    // K5 leaves no incomplete member, and M3 no larger record.
    if !layouts.has_row(one)? {
        return Err(Memory);
    }
    match layouts.add(one) {
        Ok(()) => Ok(()),
        Err(_) => Err(Memory),
    }
}

fn is_open(types: &Types, number: u32) -> bool
    ensures { result ≡ is_open (slice_get (view_types types.now).records number) }
{
    match types.records.as_slice().get(number as usize) {
        None => false,
        Some(found) => found.is_none(),
    }
}
