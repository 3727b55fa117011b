//! Types that specifiers and a declarator give (ISO C99, 6.7.6).

ghost use Rattle.std.specs.Prelude.{[], map};
ghost use Rattle.cx_context.specs.Checks.{Checks};
ghost use Rattle.cx_context.specs.Views.{scope_of};
ghost use Rattle.cx_core.specs.Views.{view_type};
ghost use Rattle.cx_rules.specs.Units.{check_type_name};
ghost use Rattle.cx_tree.specs.Trees.{TypeName};
ghost use Rattle.cx_shapes.specs.Views.{view_shape};
ghost use Rattle.cx_type_steps.specs.Steps as steps;
ghost use Rattle.cx_tree.specs.Views.{declarator_view, spec_view, specs as spec_trees};

use crate::walk::{specifiers, type_behind};
use cr_base::{Boxed, Stop};
use cx_context::Context;
use cx_core::Ty;
use cx_rules::SpecsPlace;
use cx_shapes::{Shape, specs_line};
use cx_tree::{Declarator, Spec};
use cx_type_steps::{derives_seen, specs_seen};

/// The type to which specifiers and a declarator lead, as in a type name (ISO C99, 6.7.6).
#[tactic(auto, unfolding(cx_rules::specs::Readings::check_chain))]
pub fn type_in(context: &mut Context, list: &[Spec], one: &Declarator) -> Result<Boxed<Ty>, Stop>
    ensures { Checks view_type result (scope_of context.new) (check_type_name (TypeName (spec_trees (map spec_view list.now)) (declarator_view one.now) []) (scope_of context.old)) }
{
    let line = specs_line(list);
    let all = specifiers(context, false, list)?;
    specs_seen(context, SpecsPlace::Plain, line, &all)?;
    type_behind(context, one, line, &all)
}

// The type to which a declarator leads from one that others lead from as well.
pub(crate) fn derived_from(
    context: &Context,
    line: u32,
    from: &Ty,
    shape: &Shape,
) -> Result<Boxed<Ty>, Stop>
    ensures { Checks view_type result (scope_of context.now) (steps.derives_seen line (view_type from.now) (view_shape shape.now) (scope_of context.now)) }
{
    let own = from.copy(context.alloc())?;
    derives_seen(context, line, own, shape)
}
