ghost use Rattle.mem_bytes.specs.Laws.{DecodesEncoded, NullIsZeroBytes, NewIsUnset, LoadsStored, CallsWrite, WritesNothingElse, CopiesCells, GoesCellByCell, LoadsStoredBits, BitsBesideStay, KeepsCells, CountsBlocks, NeverUsedAgain, KeepsLimit};

/// Law: the cells of a value mean that value.
pub fn decode_of_encode()
    ensures { DecodesEncoded }
{}

/// Law: the null pointer is eight zero bytes, and eight zero bytes are it.
pub fn null_is_zero_bytes()
    ensures { NullIsZeroBytes }
{}

/// Law: a scalar of which no bit was ever set has no value.
pub fn new_is_unset()
    ensures { NewIsUnset }
{}

/// Law: what was stored in a scalar is loaded from it.
pub fn load_after_put()
    ensures { LoadsStored }
{}

/// Law: each call that changes cells writes those of its own place, and nothing else.
pub fn calls_write()
    ensures { CallsWrite }
{}

/// Law: a write changes no cell, value, bit-field, structure or union elsewhere, that is in another
/// block, or at a place that has no cell in common with it.
pub fn writes_nothing_else()
    ensures { WritesNothingElse }
{}

/// Law: after a copy the cells of one place stand at the other, as they were before it, also where
/// the two overlap.
pub fn copy_copies_cells()
    ensures { CopiesCells }
{}

/// Law: what is read, stored or copied in one access is read, stored or copied cell by cell.
pub fn cells_go_one_by_one()
    ensures { GoesCellByCell }
{}

/// Law: what was stored in a bit-field is loaded from it.
pub fn load_bits_after_put_bits()
    ensures { LoadsStoredBits }
{}

/// Law: a bit-field's neighbours stay as they are, also those in the bytes that it touches.
pub fn bits_beside_stay()
    ensures { BitsBesideStay }
{}

/// Law: calls keep each cell one that a machine holds.
pub fn calls_keep_cells()
    ensures { KeepsCells }
{}

/// Law: a new block is counted among those that were made, and no other call makes or forgets one.
pub fn blocks_are_counted()
    ensures { CountsBlocks }
{}

/// Law: a block that has died stays dead, and its number is never used again.
pub fn numbers_never_used_again()
    ensures { NeverUsedAgain }
{}

/// Law: under a limit the live blocks never go past it.
pub fn limit_is_kept()
    ensures { KeepsLimit }
{}
