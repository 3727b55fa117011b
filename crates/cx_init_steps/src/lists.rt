//! Lists in braces (ISO C99, 6.7.8p14, p16, p18).

ghost use Rattle.std.specs.Prelude.{◌≡◌, map, option_map};
ghost use Rattle.cx_context.specs.Checks.{Checks};
ghost use Rattle.cx_context.specs.Views.{scope_of};
ghost use Rattle.cx_init.specs.Views.{view_filling, view_stored, view_target};
ghost use Rattle.cx_init_steps.specs.Steps as steps;
ghost use Rattle.cx_init_steps.specs.Entries.{is_text_entry, is_text_init, text_behind};
ghost use Rattle.cx_parts.specs.Views.{view_at};
ghost use Rattle.cx_rules.specs.Pieces.{holds_text, is_text, text_parts};
ghost use Rattle.cx_tree.specs.Views.{designator_view, designators as designator_trees, entries as entry_trees, entry_view, expr_view, initialiser_view};

use cr_base::{Name, Stop};
use cx_context::Context;
use cx_init::{Filling, StoredValues, Target, begin_list, fill, is_text_target, list_at_text};
use cx_parts::At;
use cx_tree::{Designator, Entry, Expr, Initialiser};

// Whether a list holds one string literal, without designator.
#[tactic(auto, using(crate::proofs::Entries::one_entry, crate::proofs::Entries::two_entries))]
fn holds_text(entries: &[Entry]) -> bool
    ensures { result ≡ holds_text (entry_trees (map entry_view entries.now)) }
{
    let Some((one, others)) = entries.split_first() else {
        return false;
    };
    match others.first() {
        None => is_text_entry(one),
        Some(_) => false,
    }
}

fn is_text_entry(one: &Entry) -> bool
    ensures { result ≡ is_text_entry (entry_view one.now) }
{
    is_text_behind(one.designators.as_slice(), one.init.get())
}

fn is_text_behind(designators: &[Designator], init: &Initialiser) -> bool
    ensures { result ≡ text_behind (designator_trees (map designator_view designators.now)) (initialiser_view init.now) }
{
    match designators.first() {
        None => is_text_init(init),
        Some(_) => false,
    }
}

fn is_text_init(init: &Initialiser) -> bool
    ensures { result ≡ is_text_init (initialiser_view init.now) }
{
    match init {
        Initialiser::Single(value) => is_text(value.get()),
        Initialiser::Braced(_) => false,
    }
}

/// Whether an expression is string literals that stand by themselves (ISO C99, 6.4.5).
pub fn is_text(e: &Expr) -> bool
    ensures { result ≡ is_text (expr_view e.now) }
{
    matches!(e, Expr::Text { .. })
}

/// The string literals of such an expression, and none of another.
pub fn text_parts(e: &Expr) -> &[Name]
    ensures { result.now ≡ text_parts (expr_view e.now) }
{
    match e {
        Expr::Text { parts, .. } => parts.as_slice(),
        _ => &[],
    }
}

/// A list in braces begins for what the target is; what is stored so far goes on behind it.
#[tactic(auto, unfolding(cx_rules::specs::Readings::check_chain, cx_rules::specs::Readings::check_here, cx_rules::specs::Readings::check_gives))]
pub fn list_begins(
    context: &Context,
    target: &Target,
    entries: &[Entry],
    stored: StoredValues,
) -> Result<Filling, Stop>
    ensures { Checks view_filling result (scope_of context.now) (steps.list_begins (view_target target.now) (entry_trees (map entry_view entries.now)) (map view_stored stored) (scope_of context.now)) }
{
    let alloc = context.alloc();
    if is_text_target(target) && holds_text(entries) {
        let filling = list_at_text(alloc, target, stored)?;
        return Ok(filling);
    }
    let filling = begin_list(alloc, context.known(), target, stored)?;
    Ok(filling)
}

/// A list in braces was given for a part, and the next value stands behind it.
#[tactic(auto, unfolding(cx_rules::specs::Readings::check_chain, cx_rules::specs::Readings::check_here, cx_rules::specs::Readings::check_gives))]
pub fn list_given(
    context: &Context,
    target: &Target,
    at: &Option<At>,
    stored: StoredValues,
    filling: &mut Filling,
) -> Result<(), Stop>
    ensures { Checks (λ _. view_filling filling.new) result (scope_of context.now) (steps.list_given (view_target target.now) (option_map view_at at.now) (view_filling filling.old) (map view_stored stored) (scope_of context.now)) }
{
    let alloc = context.alloc();
    filling.stored = stored;
    fill(
        alloc,
        context.known(),
        target,
        at.as_ref(),
        StoredValues::new(alloc),
        filling,
    )?;
    Ok(())
}
