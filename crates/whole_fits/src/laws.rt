//! Laws of bit-fields of programs.

ghost use Rattle.whole_fits.specs.Laws.{ProgramsFit};

/// Law: each bit-field that the bodies and the initialisers of a linked program name begins in one of the 8 bits of its first byte, and has 1 to 32 bits.
/// Used where its bodies and initialisers are written.
pub fn programs_fit()
    ensures { ProgramsFit }
{}
