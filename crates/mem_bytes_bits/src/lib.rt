//! Laws of bit-fields beside the bytes that they touch (ISO C99, 6.2.6.1 and 6.7.2.1). The functions do nothing: their contracts are the laws.
#![tactic(auto)]

ghost use Rattle.mem_bytes_bits.specs.Laws.{BitsGoByBytes};

/// Law: where the bytes that a bit-field touches have all their bits set, it is loaded and stored byte by byte, by the number of these bytes. So a
/// crate without bit-fields may do with bytes what a C program does with bits.
pub fn bits_go_by_bytes()
    ensures { BitsGoByBytes }
{}
