ghost use Rattle.std.specs.Prelude.{◌≡◌, IfOk, OnOk};
ghost use Rattle.shelf.specs.Shelf.{ShelfState, IsGot, IsWithin, with_file, without_file, HasCause};

use crate::called::Kind;
use crate::fault::ShelfFault;
use crate::file::Got;

/// A place that holds files under names.
///
/// Its `state` says what it holds, where it tells that, how many of its calls have failed, and
/// which was the last of these. A call may also end for want of memory; no contract says when.
pub trait Shelf {
    ghost state: { Self → ShelfState };

    /// Reads the file of a name. Where the file has more than `limit` bytes the answer is TooLarge,
    /// and otherwise all its bytes. A name that isn't held is a failed call. Nothing held changes.
    fn get(&mut self, name: &str, limit: usize) -> Result<Got, ShelfFault>
        ensures bytes { IfOk result (IsGot (state self.old).held name.now limit) }
        ensures within { IfOk result (IsWithin limit) }
        ensures kept { (state self.new).held ≡ (state self.old).held }
        ensures cause { HasCause name.now Kind.Get (state self.old) (state self.new) result };

    /// Writes the file of a name, whole. After Ok the name holds these bytes. Every other name
    /// holds what it held, also after an error.
    fn put(&mut self, name: &str, bytes: &[u8]) -> Result<(), ShelfFault>
        ensures stored { OnOk result
            ((state self.new).held ≡ with_file name.now bytes.now (state self.old).held) }
        ensures others { without_file name.now (state self.new).held
            ≡ without_file name.now (state self.old).held }
        ensures cause { HasCause name.now Kind.Put (state self.old) (state self.new) result };
}
