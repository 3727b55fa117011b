//! What the meanings of both languages share below their trees: the memory with its allocated blocks, the
//! reading of texts, the functions of the library that the profile knows, and the outside of a run. `specs/`
//! has the definitions, `proofs/` worked examples, and the functions here are laws.
#![tactic(auto)]

mod laws;

pub use laws::{allocated_blocks_live, known_write_their_own, texts_are_read};
