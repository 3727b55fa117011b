ghost use Rattle.std.specs.Prelude.{◌≡◌, IfOk};
ghost use Rattle.shelf.specs.Shelf.{call_of};

use cr_base::{Memory, Text};
use std::alloc::Global;

/// The kind of a call on a shelf.
#[derive(Clone, Copy, Debug, PartialEq, Eq)]
pub enum Kind {
    /// A read of a file.
    Get,
    /// A write of a file.
    Put,
}

/// A call on a shelf: the name of the file that it was about, and its kind.
#[derive(Debug, Drop)]
pub struct Called {
    pub name: Text,
    pub kind: Kind,
}

impl Called {
    // A call, with a copy of its name. Refused only for want of memory.
    pub(crate) fn of(alloc: Global, name: &str, kind: Kind) -> Result<Called, Memory>
        ensures { IfOk result (λ called. called ≡ call_of name.now kind) }
    {
        let name = Text::from_str(alloc, name)?;
        Ok(Called { name, kind })
    }
}
