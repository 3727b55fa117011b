ghost use Rattle.std.specs.Prelude.{◌≡◌, IfOk};

use cr_base::{Int, Items, Memory, Name, Scalar};
use std::alloc::Global;

/// An argument of a call to the outside, as the outside sees it.
#[derive(Debug, Drop)]
pub enum Arg {
    /// A value of an integer type, with that type.
    Whole { scalar: Scalar, value: Int },
    /// A pointer, as the text that stands there when the call is made: its bytes up to the first zero
    /// byte, which isn't one of them.
    Text(Name),
}

/// A call to the outside, the one kind of event that a run has: a call of an external function whose
/// effect isn't known to the meanings of the two languages.
#[derive(Debug, Drop)]
pub struct Call {
    /// The name of the called function.
    pub name: Name,
    /// The arguments, from the left.
    pub args: Items<Arg>,
}

/// A call that was answered, and its answer.
#[derive(Debug, Drop)]
pub struct Made {
    pub call: Call,
    /// The answer as the host gave it, before it is converted to the result type of the function.
    pub answer: i64,
}

impl Arg {
    /// An equal argument. Refused only for want of memory.
    pub fn copy(&self) -> Result<Arg, Memory>
        ensures { IfOk result (λ copy. copy ≡ self.now) }
    {
        match self {
            Arg::Whole { scalar, value } => Ok(Arg::Whole {
                scalar: *scalar,
                value: *value,
            }),
            Arg::Text(text) => Ok(Arg::Text(text.copy()?)),
        }
    }
}

impl Call {
    /// An equal call. Refused only for want of memory.
    pub fn copy(&self, alloc: Global) -> Result<Call, Memory>
        ensures { IfOk result (λ copy. copy ≡ self.now) }
    {
        let mut args = Items::new(alloc);
        for arg in self.args.as_slice() {
            args.push(arg.copy()?)?;
        }
        let name = self.name.copy()?;
        Ok(Call { name, args })
    }
}
