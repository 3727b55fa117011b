//! Where an expression goes on behind an operand.

ghost use Rattle.std.specs.Prelude.{◌≡◌, ◌≤◌};
ghost use Rattle.cx_words.specs.Continuations as continuations;

use cx_cursor::Sight;
use cx_lex::Punct;
use cx_tree::{binary_level, is_assignment_operator};

/// How what stands behind an operand makes it part of a larger expression (ISO C99, 6.5).
#[derive(Clone, Copy)]
pub enum Continuation {
    Nothing,
    /// As the left operand of a binary operator, of this level (6.5.5 to 6.5.14).
    Operates(u32),
    /// As the left operand of an assignment (6.5.16).
    Assigns,
    /// As the first operand of `?:` (6.5.15).
    Chooses,
    /// As the left operand of a comma (6.5.17).
    Commas,
    /// As what is indexed (6.5.2.1).
    Indexes,
    /// As what is called (6.5.2.2).
    Calls,
    /// As what has a member (6.5.2.3).
    Picks,
    /// As what is stepped by a postfix operator (6.5.2.4).
    Steps,
}

#[tactic(auto, unfolding(crate::specs::Continuations::continuation_of_other))]
fn continuation_of_other(punct: Punct) -> Continuation
    ensures value { result ≡ continuations.continuation_of_other punct }
    ensures small { continuations.strength result ≤ 16 }
{
    match punct {
        Punct::LeftBracket => Continuation::Indexes,
        Punct::LeftParenthesis => Continuation::Calls,
        Punct::Dot | Punct::Arrow => Continuation::Picks,
        Punct::PlusPlus | Punct::MinusMinus => Continuation::Steps,
        Punct::Question => Continuation::Chooses,
        Punct::Comma => Continuation::Commas,
        _ => Continuation::Nothing,
    }
}

#[tactic(auto, unfolding(crate::specs::Continuations::continuation_of_mark))]
fn continuation_of_mark(punct: Punct) -> Continuation
    ensures value { result ≡ continuations.continuation_of_mark punct }
    ensures small { continuations.strength result ≤ 16 }
{
    let level = binary_level(punct);
    if level > 0 {
        return Continuation::Operates(level);
    }
    if is_assignment_operator(punct) {
        return Continuation::Assigns;
    }
    continuation_of_other(punct)
}

/// How what stands ahead continues an operand.
pub fn continuation_of(sight: Sight) -> Continuation
    ensures value { result ≡ continuations.continuation_of sight }
    ensures small { continuations.strength result ≤ 16 }
{
    match sight {
        Sight::Mark(punct) => continuation_of_mark(punct),
        _ => Continuation::Nothing,
    }
}

fn strength(continuation: Continuation) -> u32
    ensures { result ≡ continuations.strength continuation }
{
    match continuation {
        Continuation::Nothing => 0,
        Continuation::Operates(level) => level,
        Continuation::Assigns => 2,
        Continuation::Chooses => 3,
        Continuation::Commas => 1,
        _ => 16,
    }
}

fn needs(continuation: Continuation) -> u32
    ensures { result ≡ continuations.needs continuation }
{
    match continuation {
        Continuation::Nothing => 0,
        Continuation::Operates(level) => level,
        Continuation::Assigns => 15,
        Continuation::Chooses => 4,
        Continuation::Commas => 1,
        _ => 16,
    }
}

/// Whether an expression of the level `least` goes on behind an operand of this level.
#[tactic(auto, unfolding(crate::specs::Continuations::goes_on))]
pub fn goes_on(least: u32, continuation: Continuation, level: u32) -> bool
    ensures { result ≡ continuations.goes_on least continuation level }
{
    let strength = strength(continuation);
    0 < strength && least <= strength && needs(continuation) <= level
}
