//! `&&`, `||`, `?:` and the comma (ISO C99, 6.5.13 to 6.5.15, 6.5.17).

ghost use Rattle.std.specs.Prelude.{◌≡◌};
ghost use Rattle.cx_access.specs.Finds.{Finds};
ghost use Rattle.cx_core.specs.Views.{view_expr};
ghost use Rattle.cx_mean.specs.Nodes.{chosen, chosen_and, chosen_or, chosen_part, tested, truth, truth_of_value};
ghost use Rattle.cx_node_steps.specs.Views.{form_of, view_choice};
ghost use Rattle.cx_work.specs.Views.{view_finished};

use cx_access::{Trouble, scalar_value};
use cx_core::{CoreExpr, Form};
use cx_operations::is_true;
use cx_work::Finished;
use mem_bytes::Store;

/// What comes behind the first operand of `&&`, `||`, `?:` or a comma.
#[derive(Clone, Copy)]
pub enum Choice<'a> {
    /// The node is finished, with the value of a test.
    Decided(bool),
    /// The second operand is tested.
    Tests(&'a CoreExpr),
    /// This part is carried on.
    Carries(&'a CoreExpr),
}

/// Whether an operand compares unequal to 0.
///
/// # Errors
///
/// `Undefined` by U5 for a pointer to a dead object, or by U14 where the operand gives no value.
pub fn truth_of_value<S: Store>(store: &S, value: &Finished) -> Result<bool, Trouble>
    ensures { Finds (λ holds. holds) result (truth_of_value (S.memory store.now) (view_finished value.now)) }
{
    match scalar_value(value) {
        Ok(value) => is_true(store, value),
        Err(trouble) => Err(trouble),
    }
}

fn chosen_and(second: &CoreExpr, holds: bool) -> Choice<'_>
    ensures { view_choice result ≡ chosen_and (view_expr second.now) holds }
{
    if holds {
        return Choice::Tests(second);
    }
    Choice::Decided(false)
}

fn chosen_or(second: &CoreExpr, holds: bool) -> Choice<'_>
    ensures { view_choice result ≡ chosen_or (view_expr second.now) holds }
{
    if holds {
        return Choice::Decided(true);
    }
    Choice::Tests(second)
}

fn chosen_part<'a>(first: &'a CoreExpr, second: &'a CoreExpr, holds: bool) -> Choice<'a>
    ensures { view_choice result ≡ chosen_part (view_expr first.now) (view_expr second.now) holds }
{
    if holds {
        return Choice::Carries(first);
    }
    Choice::Carries(second)
}

/// The step of a node once its first operand is finished.
///
/// # Errors
///
/// Those of `truth_of_value`.
pub fn chosen<'a, S: Store>(
    store: &S,
    node: &'a CoreExpr,
    value: &Finished,
) -> Result<Choice<'a>, Trouble>
    ensures { Finds view_choice result (chosen (form_of (view_expr node.now)) (S.memory store.now) (view_finished value.now)) }
{
    match &node.form {
        Form::And(_, second) => match truth_of_value(store, value) {
            Ok(holds) => Ok(chosen_and(second.get(), holds)),
            Err(trouble) => Err(trouble),
        },
        Form::Or(_, second) => match truth_of_value(store, value) {
            Ok(holds) => Ok(chosen_or(second.get(), holds)),
            Err(trouble) => Err(trouble),
        },
        Form::Cond(_, first, second) => match truth_of_value(store, value) {
            Ok(holds) => Ok(chosen_part(first.get(), second.get(), holds)),
            Err(trouble) => Err(trouble),
        },
        Form::Comma(_, second) => Ok(Choice::Carries(second.get())),
        _ => Err(Trouble::Memory),
    }
}

/// The step of `&&` or `||` once its second operand is finished.
///
/// # Errors
///
/// Those of `truth_of_value`.
pub fn tested<S: Store>(store: &S, value: &Finished) -> Result<bool, Trouble>
    ensures { Finds truth result (tested (S.memory store.now) (view_finished value.now)) }
{
    match truth_of_value(store, value) {
        Ok(holds) => Ok(holds),
        Err(trouble) => Err(trouble),
    }
}
