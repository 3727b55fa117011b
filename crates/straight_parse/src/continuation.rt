//! Where an expression goes on behind an operand.

ghost use Rattle.std.specs.Prelude.{◌≡◌, ◌≤◌, IfSome};
ghost use Rattle.straight_parse.specs.Continuations as continuations;

use crate::sight::{Sight, same_mark};
use cx_lex::Punct;
use straight_tree::{binary_level, is_assignment_operator};

/// How what stands behind an operand makes it part of a larger expression (ISO C99, 6.5).
#[derive(Clone, Copy, Debug)]
pub enum Continuation {
    Nothing,
    /// As the left operand of a binary operator, of this level.
    Operates(u32),
    /// As the left operand of an assignment.
    Assigns,
    /// As what is called.
    Calls,
}

#[tactic(auto, unfolding(crate::specs::Continuations::continuation_of_mark))]
fn continuation_of_mark(punct: Punct) -> Continuation
    ensures value { result ≡ continuations.continuation_of_mark punct }
    ensures small { continuations.strength result ≤ 16 }
{
    let level = binary_level(punct);
    if level > 0 {
        return Continuation::Operates(level);
    }
    if is_assignment_operator(punct) {
        return Continuation::Assigns;
    }
    if same_mark(punct, Punct::LeftParenthesis) {
        return Continuation::Calls;
    }
    Continuation::Nothing
}

/// How what stands ahead continues an operand.
pub fn continuation_of(sight: Sight) -> Continuation
    ensures value { result ≡ continuations.continuation_of sight }
    ensures small { continuations.strength result ≤ 16 }
{
    match sight {
        Sight::Mark(punct) => continuation_of_mark(punct),
        _ => Continuation::Nothing,
    }
}

fn strength(continuation: Continuation) -> u32
    ensures { result ≡ continuations.strength continuation }
{
    match continuation {
        Continuation::Nothing => 0,
        Continuation::Operates(level) => level,
        Continuation::Assigns => 2,
        Continuation::Calls => 16,
    }
}

fn needs(continuation: Continuation) -> u32
    ensures { result ≡ continuations.needs continuation }
{
    match continuation {
        Continuation::Nothing => 0,
        Continuation::Operates(level) => level,
        Continuation::Assigns => 15,
        Continuation::Calls => 16,
    }
}

/// Whether an expression of the level `least` goes on behind an operand of this level.
#[tactic(auto, unfolding(crate::specs::Continuations::goes_on))]
pub fn goes_on(least: u32, continuation: Continuation, level: u32) -> bool
    ensures { result ≡ continuations.goes_on least continuation level }
{
    let strength = strength(continuation);
    0 < strength && least <= strength && needs(continuation) <= level
}
