//! Laws of what both languages share. The functions do nothing: their contracts are the laws.

ghost use Rattle.cr_world.specs.Laws.{ReadsTexts, KnownWriteTheirOwn, KeepsAllocated};

/// Law: the text at a place is the one whose bytes stand there, with a zero byte behind them.
pub fn texts_are_read()
    ensures { ReadsTexts }
{}

/// Law: a copy and a fill write the bytes at their first argument, and nothing else; `free` ends the
/// life of its block, and changes nothing else.
pub fn known_write_their_own()
    ensures { KnownWriteTheirOwn }
{}

/// Law: the blocks that a program holds as allocated live, and none is listed twice.
pub fn allocated_blocks_live()
    ensures { KeepsAllocated }
{}
