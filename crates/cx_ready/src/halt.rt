ghost use Rattle.std.specs.Prelude.{◌≡◌};
ghost use Rattle.cx_ready.specs.Halts.{halted};

use cr_base::{Place, URule};
use cx_access::Trouble;
use cx_work::{Called, Child};

/// Why a step isn't taken.
#[derive(Clone, Copy)]
pub enum Halt {
    /// C leaves it undefined, by this rule at the node with this place.
    Undefined(URule, Place),
    /// Want of memory, or a step that no typed program has.
    Memory,
}

/// What a step that is taken comes to.
#[derive(Drop)]
pub enum Progress<'a> {
    /// The node took its step.
    Stepped,
    /// The node calls a function, and waits.
    Calls(Child<Called<'a>>),
}

/// What is wrong at the node with a place.
pub(crate) fn halted(trouble: Trouble, place: Place) -> Halt
    ensures { result ≡ halted trouble place }
{
    match trouble {
        Trouble::Undefined(rule) => Halt::Undefined(rule, place),
        Trouble::Memory => Halt::Memory,
    }
}
