ghost use Rattle.std.specs.Prelude.{◌≡◌, ◌<◌, ◌||◌, ℕ, true, false, map, All, IfOk, IfErr, OnOk, length};
ghost use Rattle.cx_core.specs.Layouts.{layouts_of, row_at};
ghost use Rattle.cx_core.specs.Views.{view_types, view_record, view_member};
ghost use Rattle.cx_layout.specs.Building.{AreBuilt, IsNoneReady, AddsNew, IsPassed, unlaid};
ghost use Rattle.cx_layout.specs.Calls.{AreGrounded, AreLayoutsOf, AreAllLaidOut, HasTooLarge, IsMemberComplete, HasFittingBits, IsTooLarge};

use crate::layouts::{LayoutFault, Layouts};
use cx_core::{RecordTy, Types};
use std::alloc::Global;

impl Layouts {
    /// The layouts of all completed records of a program, of which none holds itself or an incomplete type
    /// by value. Refused where one has more than 16,777,216 bytes, and for want of memory.
    pub fn build(alloc: Global, types: &Types) -> Result<Layouts, LayoutFault>
        requires { AreGrounded (view_types types.now) }
        ensures whole { IfOk result (λ layouts. layouts ≡ layouts_of (view_types types.now)) }
        ensures layouts { IfOk result (λ layouts. AreLayoutsOf (view_types types.now) layouts) }
        ensures all { IfOk result (λ layouts. AreAllLaidOut (view_types types.now) layouts) }
        ensures too_large { IfErr result (λ fault. fault ≡ LayoutFault.TooLarge → HasTooLarge (view_types types.now)) }
    {
        let mut layouts = Layouts::new(alloc);
        loop {
            match layouts.sweep(types) {
                Ok(true) => {}
                Ok(false) => return layouts.fitted(types.records.len()),
                Err(fault) => return Err(fault),
            }
        }
    }

    // The same as a table of so many records.
    fn fitted(self, count: usize) -> Result<Layouts, LayoutFault>
        ensures long { IfOk result (λ fit. length fit ≡ count) }
        ensures same { IfOk result (λ fit. (number : ℕ) → number < count → row_at fit number ≡ row_at self number) }
        ensures fault { IfErr result (λ fault. fault ≡ LayoutFault.Memory) }
    {
        let mut layouts = self;
        layouts.fit(count)?;
        Ok(layouts)
    }

    // Lays out the records whose members are complete by now, by their numbers, and tells whether there was one.
    fn sweep(&mut self, types: &Types) -> Result<bool, LayoutFault>
        requires grounded { AreGrounded (view_types types.now) }
        requires built { AreBuilt (view_types types.now) self.old }
        ensures built { OnOk result (AreBuilt (view_types types.now) self.new) }
        ensures goes_on { IfOk result (λ added. added ≡ true → unlaid (view_types types.now) self.new < unlaid (view_types types.now) self.old) }
        ensures ends { IfOk result (λ added. added ≡ false → IsNoneReady (view_types types.now) self.new (length (view_types types.now).records)) }
        ensures too_large { IfErr result (λ fault. fault ≡ LayoutFault.TooLarge → HasTooLarge (view_types types.now)) }
    {
        let mut added = false;
        for found in types.records.as_slice() {
            let Some(one) = found else {
                continue;
            };
            let taken = match self.take(one) {
                Ok(taken) => taken,
                Err(fault) => return Err(fault),
            };
            added = either(added, taken);
        }
        Ok(added)
    }

    // Lays out a record that isn't yet, where its members are complete by now, and tells whether it is so.
    fn take(&mut self, one: &RecordTy) -> Result<bool, LayoutFault>
        requires { All HasFittingBits (map view_member one.now.members) }
        ensures taken { IfOk result (λ taken. taken ≡ true → AddsNew self.old (view_record one.now) self.new) }
        ensures passed { IfOk result (λ taken. taken ≡ false → (self.new ≡ self.old) × IsPassed self.old (view_record one.now)) }
        ensures too_large { IfErr result (λ fault. fault ≡ LayoutFault.TooLarge → IsTooLarge self.old (view_record one.now)) }
    {
        if self.is_laid(one.number) {
            return Ok(false);
        }
        if !self.is_ready(one.members.as_slice()) {
            return Ok(false);
        }
        match self.add(one) {
            Ok(()) => Ok(true),
            Err(fault) => Err(fault),
        }
    }
}

fn either(first: bool, second: bool) -> bool
    ensures { result ≡ (first || second) }
{
    first || second
}
