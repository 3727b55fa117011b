//! Bit-fields of C as trees of Rust, which read and write the bytes that they touch, each equal to its definition, want of memory aside (ISO C99, 6.5.16.1p2 and 6.7.2.1p9; the
//! Rust Reference, "Expressions" and "Statements").
#![tactic(auto)]

mod bytes;
mod reads;
mod writes;

pub use bytes::{integer_as, low_bits, power, word};
pub use reads::bit_read;
pub use writes::bit_write;
