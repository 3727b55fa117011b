ghost use Rattle.std.specs.Prelude.{◌≡◌, ℕ, ◌+◌, ◌<◌, ◌≤◌, List, length, take, Some, IfSome, IfOk, OnOk, OnErr};
ghost use Rattle.std.specs.Io.{ReadsAtMost};
ghost use Rattle.std.specs.Io.KnownBytes.{Keeps, Consumes, IsAtEnd};
ghost use Rattle.shelf.specs.Reading.{Moves};
ghost use Rattle.shelf.specs.Shelf.{IsGotOf, IsWithin};

use crate::fault::ShelfFault;
use crate::file::Got;
use cr_base::{Items, Memory};
use std::alloc::Global;
use std::io::{ErrorKind, Read};

// How many bytes a read asks for at most.
pub(crate) const PIECE: usize = 4096;

// How often a read or a write is tried that the system interrupts each time.
pub(crate) const TRIES: usize = 64;

// Reads a file to its end. The answer is TooLarge as soon as more than `limit` bytes have come, and
// no more than `limit` + 1 are read.
pub(crate) fn read_at_most<F: Read>(
    alloc: Global,
    file: &mut F,
    limit: usize,
) -> Result<Got, ShelfFault>
    ensures bytes { IfSome (F.remaining file.old)
        (λ bytes. IfOk result (IsGotOf (Some bytes) limit)) }
    ensures within { IfOk result (IsWithin limit) }
    ensures sparing { OnOk result ((taken : List ℕ) × (length taken ≤ limit + 1)
        × Consumes (F.remaining file.old) (F.remaining file.new) taken) }
{
    let mut bytes = Vec::new(alloc);
    while bytes.len() <= limit {
        let room = (limit - bytes.len()).saturating_add(1);
        let count = append_piece(file, &mut bytes, room)?;
        if count == 0 {
            return Ok(Got::Bytes(Items::of(bytes)));
        }
    }
    Ok(Got::TooLarge)
}

// Reads at most `room` bytes to the end of a list, and answers how many, which is 0 only at the end
// of the file.
fn append_piece<F: Read>(
    file: &mut F,
    bytes: &mut Vec<u8>,
    room: usize,
) -> Result<usize, ShelfFault>
    requires { 0 < room }
    ensures within { IfOk result (λ count. count ≤ room) }
    ensures moves { IfOk result (Moves (F.remaining file.old) (F.remaining file.new)
        bytes.old.items bytes.new.items) }
    ensures end { IfOk result (λ count. count ≡ 0 → IsAtEnd (F.remaining file.new)) }
{
    let mut piece = [0; PIECE];
    let most = room.min(PIECE);
    let count = read_retrying(file, &mut piece[..most])?;
    bytes
        .extend_from_slice(&piece[..count])
        .map_err(Memory::from)?;
    Ok(count)
}

// One read, tried again where the system interrupts it.
pub(crate) fn read_retrying<F: Read>(file: &mut F, piece: &mut [u8]) -> Result<usize, ShelfFault>
    ensures within { ReadsAtMost result piece.new }
    ensures ok { IfOk result (λ count.
        Consumes (F.remaining file.old) (F.remaining file.new) (take count piece.new)) }
    ensures end { IfOk result (λ count.
        count ≡ 0 → 0 < length piece.old → IsAtEnd (F.remaining file.new)) }
    ensures err { OnErr result (Keeps (F.remaining file.old) (F.remaining file.new)) }
{
    for _try in 0..TRIES {
        match file.read(piece) {
            Ok(count) => return Ok(count),
            Err(error) => {
                if error.kind() != ErrorKind::Interrupted {
                    return Err(ShelfFault::from(error));
                }
            }
        }
    }
    Err(ShelfFault::Failed)
}
