ghost use Rattle.std.specs.Prelude.{◌≡◌, ℕ, ◌+◌, None, Some, map, IfOk, OnOk, option_map};
ghost use Rattle.cr_base.specs.declared.rule.Rule.{Rule};
ghost use Rattle.cx_core.specs.Views.{view_type, view_types, view_puts};
ghost use Rattle.cx_layout.specs.Calls.{AreLayoutsOf};
ghost use Rattle.cx_place.specs.Placing.{first_broken, first_from, puts_placed};
ghost use Rattle.cx_place.specs.Views.{view_given, view_whole};
ghost use Rattle.cx_kinds.specs.Known.{IsKnown, types_in};
ghost use Rattle.cx_rules.specs.Initial.{puts_of};

use crate::fault::{BrokenPart, PlaceFault};
use crate::given::Given;
use crate::wholes::{Whole, object_target, whole_placed};
use cr_base::{Items, Memory};
use cx_core::{Put, Ty, Types};
use cx_init::filled_object;
use cx_kinds::Known;
use cx_layout::Layouts;
use std::alloc::Global;

/// The puts of an initialiser for an object of a type, in the order of their places: converted to the types of their places, and without those
/// that later ones take away (ISO C99, 6.7.8). What no put covers is zero. An array without length has the least length that holds all.
///
/// # Errors
///
/// `Broken` exactly where a part of the initialiser breaks a rule, with the first such part in post-order: K21 where there is no place for
/// what is given or no part for a designator, also in an object of function type or of incomplete type other than an array; K12
/// where a value may not be assigned to its place. `Memory` for want of memory.
pub fn place(
    alloc: Global,
    ty: &Ty,
    given: Given,
    types: &Types,
    layouts: &Layouts,
) -> Result<Items<Put>, PlaceFault>
    requires { AreLayoutsOf (view_types types.now) layouts.now }
    ensures placed { IfOk result (λ puts. view_puts puts ≡ puts_placed (view_types types.now) (view_type ty.now) (view_given given)) }
    ensures unbroken { OnOk result (first_broken (view_types types.now) (view_type ty.now) (view_given given) ≡ None) }
    ensures broken { (rule : Rule) (part : ℕ) → result ≡ Err (PlaceFault.Broken rule part)
        → first_broken (view_types types.now) (view_type ty.now) (view_given given) ≡ Some (record { rule = rule; part = part }) }
{
    let known = Known { types, layouts };
    let target = object_target(alloc, known, ty)?;
    let whole = whole_placed(alloc, known, &target, given)?;
    if let Some(broken) = first_broken(whole.rules.as_slice()) {
        return Err(PlaceFault::Broken {
            rule: broken.rule,
            part: broken.part,
        });
    }
    Ok(puts_of(alloc, known, ty, whole)?)
}

// The first part that breaks a rule.
fn first_broken(rules: &[Option<cr_base::Rule>]) -> Option<BrokenPart>
    ensures { result ≡ first_from 0 rules.now }
{
    for (part, rule) in rules.iter().enumerate() {
        if let Some(rule) = rule {
            return Some(BrokenPart {
                rule: *rule,
                part: part as u64,
            });
        }
    }
    None
}

fn puts_of(alloc: Global, known: Known, ty: &Ty, whole: Whole) -> Result<Items<Put>, Memory>
    requires { IsKnown known }
    ensures { IfOk result (λ puts. view_puts puts ≡ puts_of (types_in known.entry) (view_type ty.now) (view_whole whole).stored) }
{
    let own = ty.copy(alloc)?;
    let filled = filled_object(alloc, known, own, whole.stored)?;
    Ok(filled.puts)
}
