//! Words as the system gives them.

ghost use Rattle.std.specs.Prelude.{◌≡◌, ◌≢◌, [], IfOk, IfErr, map, string_bytes};
ghost use Rattle.std.specs.IoError.{error_kind};
ghost use Rattle.front.specs.Report.{ReportsMemory};
ghost use Rattle.front.specs.Run.{Ran};

use crate::report::out_of_memory;
use crate::top::run;
use ext_calls::Host;
use shelf::{Shelf, Sink};
use std::alloc::Global;
use std::io;
use std::io::ErrorKind;

/// Does the job of the words after the program's name, where they could be had, and answers the exit status. Where there was no
/// memory for them, want of memory is told; words that aren't UTF-8 are no job, as no words are.
pub fn run_given<F: Shelf, O: Sink, E: Sink, H: Host>(
    alloc: Global,
    words: io::Result<Vec<String>>,
    shelf: &mut F,
    out: &mut O,
    err: &mut E,
    host: &mut H,
) -> u8
    ensures had { IfOk words (λ words. Ran (map string_bytes words.items)
        (F.state shelf.old) (F.state shelf.new) (E.state err.old) (E.state err.new)
        (H.state host.old) (H.state host.new) result) }
    ensures unfit { IfErr words (λ error. error_kind error ≢ ErrorKind.OutOfMemory → Ran []
        (F.state shelf.old) (F.state shelf.new) (E.state err.old) (E.state err.new)
        (H.state host.old) (H.state host.new) result) }
    ensures lacking { IfErr words (λ error. error_kind error ≡ ErrorKind.OutOfMemory → (result ≡ 10)
        × ReportsMemory (E.state err.old) (E.state err.new)
        × (F.state shelf.new ≡ F.state shelf.old) × (H.state host.new ≡ H.state host.old)) }
    ensures out_untouched { O.state out.new ≡ O.state out.old }
{
    let words = match words {
        Ok(words) => words,
        Err(error) if error.kind() == ErrorKind::OutOfMemory => return out_of_memory(err),
        Err(_) => Vec::new(alloc),
    };
    run(alloc, words.as_slice(), shelf, out, err, host)
}
