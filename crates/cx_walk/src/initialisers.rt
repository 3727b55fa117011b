//! Initialisers of whole objects (ISO C99, 6.7.8).
#![tactic(auto, unfolding(cx_rules::specs::Readings::check_chain, cx_rules::specs::Readings::check_gives))]

ghost use Rattle.std.specs.Prelude.{◌≡◌, false, map, option_map, IfOk};
ghost use Rattle.cx_walk.specs.Objects.{may_have_initialiser, declared_target};
ghost use Rattle.cx_walk.specs.Walks as walks;
ghost use Rattle.cx_context.specs.Checks.{Checks};
ghost use Rattle.cx_context.specs.Views.{scope_of};
ghost use Rattle.cx_core.specs.Views.{view_type};
ghost use Rattle.cx_init.specs.Views.{view_stored, view_target};
ghost use Rattle.cx_kinds.specs.Known.{IsKnown, types_in};
ghost use Rattle.cx_parts.specs.Views.{view_at};
ghost use Rattle.cx_rules.specs.Units.{check_initialiser};
ghost use Rattle.cx_tree.specs.Trees.{Single};
ghost use Rattle.cx_tree.specs.Views.{designator_view, designators as designator_trees, expr_view, initialiser_view};

use crate::walk::{expr, initialiser_list};
use cr_base::{Memory, Stop};
use cx_context::Context;
use cx_core::Ty;
use cx_init::{StoredValues, Target};
use cx_init_steps::{is_text, text_parts, whole_given, whole_text};
use cx_kinds::{Known, has_size, is_array, is_function};
use cx_parts::{At, whole_of};
use cx_shapes::expr_line;
use cx_tree::{Designator, Expr, Initialiser};
use std::alloc::Global;

/// An initialiser for a whole object (ISO C99, 6.7.8p11 to p16).
pub fn initialiser(
    context: &mut Context,
    init: &Initialiser,
    target: &Target,
) -> Result<StoredValues, Stop>
    ensures { Checks (map view_stored) result (scope_of context.new) (walks.initialiser_walk (view_target target.now) (initialiser_view init.now) (scope_of context.old)) }
{
    match init {
        Initialiser::Single(value) => whole_single(context, value.get(), target),
        Initialiser::Braced(list) => {
            let empty = StoredValues::new(context.alloc());
            initialiser_list(context, list.get(), target, empty)
        }
    }
}

// A value that isn't in braces, for a whole object.
fn whole_single(context: &mut Context, value: &Expr, target: &Target) -> Result<StoredValues, Stop>
    ensures { Checks (map view_stored) result (scope_of context.new) (walks.initialiser_walk (view_target target.now) (Single (expr_view value.now)) (scope_of context.old)) }
{
    let line = expr_line(value);
    if is_text(value) {
        let filling = whole_text(context, line, target, text_parts(value))?;
        return Ok(filling.stored);
    }
    let one = expr(context, value)?;
    let filling = whole_given(context, line, target, one)?;
    Ok(filling.stored)
}

/// Whether an entry of a list with these designators has none: it is for the part behind the value before (ISO C99, 6.7.8p17).
pub(crate) fn is_direct(designators: &[Designator]) -> bool
    ensures { result ≡ walks.is_direct (designator_trees (map designator_view designators.now)) }
{
    match designators.first() {
        None => true,
        Some(_) => false,
    }
}

// Whether an object of a type may have an initialiser (6.7.8p3).
fn may_have_initialiser(known: Known, t: &Ty) -> bool
    requires { IsKnown known }
    ensures { result ≡ may_have_initialiser (types_in known.entry) (view_type t.now) }
{
    !is_function(t) && (has_size(known, t) || is_array(t))
}

// What an initialiser by itself is for: an object of a type. Refused only for want of memory.
fn whole_target(context: &Context, is_static: bool, t: &Ty) -> Result<Target, Memory>
    ensures { IfOk result (λ made. view_target made ≡ declared_target (scope_of context.now).types is_static (view_type t.now)) }
{
    let base = whole_base(context, t)?;
    Ok(Target { is_static, base })
}

/// What an initialiser gives the parts of an object of a type (ISO C99, 6.7.8).
pub fn stored_for(
    context: &mut Context,
    t: &Ty,
    init: &Initialiser,
    is_static: bool,
) -> Result<StoredValues, Stop>
    ensures { Checks (map view_stored) result (scope_of context.new) (check_initialiser (declared_target (scope_of context.old).types is_static (view_type t.now)) (initialiser_view init.now) (scope_of context.old)) }
{
    let target = whole_target(context, is_static, t)?;
    initialiser(context, init, &target)
}

fn whole_base(context: &Context, t: &Ty) -> Result<Option<At>, Memory>
    ensures { IfOk result (λ made. option_map view_at made ≡ (declared_target (scope_of context.now).types false (view_type t.now)).base) }
{
    if !may_have_initialiser(context.known(), t) {
        return Ok(None);
    }
    let alloc = context.alloc();
    let ty = t.copy(alloc)?;
    Ok(Some(whole_of(alloc, ty)))
}
