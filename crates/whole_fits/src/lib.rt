//! What is written for a linked program can be: each bit-field that its bodies and initialisers name is one of the profile (ISO C99, 6.7.2.1p3, p9).
#![tactic(auto)]

mod laws;

pub use laws::programs_fit;
