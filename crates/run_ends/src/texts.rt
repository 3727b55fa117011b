//! The words by which reports name undefined steps of C and wrong steps of Rust.

ghost use Rattle.std.specs.Prelude.{◌≡◌};
ghost use Rattle.run_ends.specs.Texts.{cause_of, code_of, words_of};

use cr_base::URule;
use rs_mean::Cause;

/// The code of a rule by which a step is undefined, as a report shows it.
#[tactic(auto, unfolding(crate::specs::Texts::code_of))]
pub fn code_of(rule: URule) -> &'static str
    ensures { result.now ≡ code_of rule }
{
    match rule {
        URule::U1 => "U1",
        URule::U2 => "U2",
        URule::U3 => "U3",
        URule::U4 => "U4",
        URule::U5 => "U5",
        URule::U6 => "U6",
        URule::U7 => "U7",
        URule::U8 => "U8",
        URule::U9 => "U9",
        URule::U10 => "U10",
        URule::U11 => "U11",
        URule::U12 => "U12",
        URule::U13 => "U13",
        URule::U14 => "U14",
        URule::U15 => "U15",
        URule::U16 => "U16",
    }
}

/// The words of a rule by which a step is undefined, as a report shows them.
#[tactic(auto, unfolding(crate::specs::Texts::words_of))]
pub fn words_of(rule: URule) -> &'static str
    ensures { result.now ≡ words_of rule }
{
    match rule {
        URule::U1 => "unsequenced conflict",
        URule::U2 => "overflow",
        URule::U3 => "division",
        URule::U4 => "shift",
        URule::U5 => "dead object",
        URule::U6 => "outside an object",
        URule::U7 => "unset bits read",
        URule::U8 => "bad truth value",
        URule::U9 => "pointer bytes",
        URule::U10 => "misaligned",
        URule::U11 => "pointer arithmetic",
        URule::U12 => "pointer comparison",
        URule::U13 => "call",
        URule::U14 => "missing value",
        URule::U15 => "free",
        URule::U16 => "overlap",
    }
}

/// The words of a cause by which a step is wrong, as a report shows them.
#[tactic(auto, unfolding(crate::specs::Texts::cause_of))]
pub fn cause_of(cause: Cause) -> &'static str
    ensures { result.now ≡ cause_of cause }
{
    match cause {
        Cause::Overflow => "overflow",
        Cause::Divisor => "divisor",
        Cause::Shift => "shift",
        Cause::Dead => "dead",
        Cause::Outside => "outside",
        Cause::Unset => "unset",
        Cause::BadBool => "bad bool",
        Cause::MixedPointer => "mixed pointer",
        Cause::Misaligned => "misaligned",
        Cause::Offset => "offset",
        Cause::Apart => "apart",
        Cause::NoneCall => "none call",
        Cause::WrongCall => "wrong call",
        Cause::BadFree => "bad free",
        Cause::Overlap => "overlap",
    }
}
