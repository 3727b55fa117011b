//! What the second and third operand of `?:` give together (ISO C99, 6.5.15).

ghost use Rattle.std.specs.Prelude.{◌≡◌, ◌&&◌, ◌||◌, is_none};
ghost use Rattle.cx_core.specs.Views.{view_types};
ghost use Rattle.cx_operands.specs.Views.{view_operand, view_value_type};
ghost use Rattle.cx_pairs.specs.Choices.{choice_as, is_no_choice};
ghost use Rattle.cx_rules.specs.Meanings.{choice_type, pointer_choice};
ghost use Rattle.cx_rules.specs.Operands.{value_type};
ghost use Rattle.cx_rules.specs.Pairs.{void_beside};
ghost use Rattle.cx_rules.specs.Types.{is_void};

use crate::pairing::both_integers;
use crate::records::records_agree;
use crate::values::{point_alike, void_beside};
use cx_core::Types;
use cx_operands::{Operand, ValueTy, is_null_operand, value_type};

/// Which of the pairs that `?:` takes two operands are (ISO C99, 6.5.15p3).
#[derive(Clone, Copy, PartialEq, Eq)]
pub enum Choice {
    /// Both are integers, which are converted to their common type.
    Integers,
    /// Both are `void`.
    Voids,
    /// The type of the first: a structure or union, or a pointer beside a null pointer constant.
    First,
    /// The type of the second: a pointer beside a null pointer constant.
    Second,
    /// Pointers to compatible types: they become pointers to the composite type, with the qualifiers of both.
    Targets,
    /// A pointer to `void` beside one to an object type: they become pointers to `void`, with the qualifiers of both.
    VoidTargets,
    /// They are no such pair.
    Nothing,
}

/// Which of the pairs that `?:` takes two operands are (ISO C99, 6.5.15p3).
pub fn choice_of(types: &Types, first: &Operand, second: &Operand) -> Choice
    ensures chosen { choice_type (view_types types.now) (view_operand first.now) (view_operand second.now)
        ≡ choice_as (view_types types.now) (view_operand first.now) (view_operand second.now) result }
    ensures none { is_none (choice_type (view_types types.now) (view_operand first.now) (view_operand second.now)) ≡ is_no_choice result }
{
    let one = value_type(first);
    let other = value_type(second);
    if both_integers(types, one, other) {
        return Choice::Integers;
    }
    if both_void(one, other) {
        return Choice::Voids;
    }
    if records_agree(types, one, other) {
        return Choice::First;
    }
    if one.is_pointer() && is_null_operand(types, second) {
        return Choice::First;
    }
    if other.is_pointer() && is_null_operand(types, first) {
        return Choice::Second;
    }
    pointer_choice(types, first, second)
}

fn both_void(one: ValueTy<'_>, other: ValueTy<'_>) -> bool
    ensures { result ≡ (is_void (view_value_type one.entry) && is_void (view_value_type other.entry)) }
{
    one.is_void() && other.is_void()
}

#[tactic(auto, using(crate::proofs::Targets::targets_are_there, crate::proofs::Targets::void_targets_are_there))]
fn pointer_choice(types: &Types, first: &Operand, second: &Operand) -> Choice
    ensures chosen { pointer_choice (view_types types.now) (value_type (view_operand first.now)) (value_type (view_operand second.now))
        ≡ choice_as (view_types types.now) (view_operand first.now) (view_operand second.now) result }
    ensures none { is_none (pointer_choice (view_types types.now) (value_type (view_operand first.now)) (value_type (view_operand second.now))) ≡ is_no_choice result }
{
    let one = value_type(first);
    let other = value_type(second);
    if point_alike(types, one, other) {
        return Choice::Targets;
    }
    if void_beside_either(one, other) {
        return Choice::VoidTargets;
    }
    Choice::Nothing
}

fn void_beside_either(one: ValueTy<'_>, other: ValueTy<'_>) -> bool
    ensures { result ≡ (void_beside (view_value_type one.entry) (view_value_type other.entry) || void_beside (view_value_type other.entry) (view_value_type one.entry)) }
{
    void_beside(one, other) || void_beside(other, one)
}
