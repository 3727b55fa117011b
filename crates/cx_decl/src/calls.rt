//! The call of the check of a unit.

ghost use Rattle.std.specs.Prelude.{◌≡◌};
ghost use Rattle.cx_context.specs.Views.{scope_of};
ghost use Rattle.cx_decl.specs.Tells.{ChecksUnit, TellsUnit};
ghost use Rattle.cx_rules.specs.Scope.{new_scope};
ghost use Rattle.cx_rules.specs.Units.{check_unit as unit_checked, seen_unit};
ghost use Rattle.cx_tree.specs.Views.{unit_view};

use cr_base::Stop;
use cx_context::{Context, none_is_laid};
use cx_core::CoreUnit;
use cx_layout::Layouts;
use cx_rules::units_stop;
use cx_scope::Scope;
use cx_tree::Unit;
use cx_unit_ends::unit_ended;
use cx_unit_walk::externals;
use std::alloc::Global;

/// The typed unit that a tree means under a number (ISO C99, 6.5 to 6.9): every name resolved, every conversion a node. Refused by the
/// first node that breaks a rule, in the order in which nodes count, and for want of memory.
pub fn check_unit(alloc: Global, u: &Unit, unit: u32) -> Result<CoreUnit, Stop>
    ensures tells { TellsUnit result (seen_unit unit (unit_view u.now)) }
{
    let context = first_place(alloc, unit);
    let found = unit_walked(context, u);
    units_stop();
    found
}

// The place before the first declaration of a unit.
fn first_place(alloc: Global, unit: u32) -> Context
    ensures { scope_of result ≡ new_scope unit }
{
    none_is_laid();
    Context::new(alloc, Scope::new(alloc, unit), Layouts::new(alloc))
}

#[tactic(auto, unfolding(cx_rules::specs::Readings::check_chain))]
fn unit_walked(context: Context, u: &Unit) -> Result<CoreUnit, Stop>
    ensures { ChecksUnit result (unit_checked (unit_view u.now) (scope_of context)) }
{
    let mut place = context;
    externals(&mut place, u.parts.as_slice())?;
    unit_ended(place)
}
