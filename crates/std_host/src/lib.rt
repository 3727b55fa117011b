//! The standard host: the outside of a program that uses `putchar`, `puts`, `getchar` and `printf` over a stream of input and one of
//! output, and what calls of these functions write.
#![tactic(auto)]

mod begun;
mod conversion;
mod effect;
mod function;
mod laws;
mod low_byte;
mod output;
mod printing;
mod show;
mod std_host;

pub use begun::Begun;
pub use conversion::{Conversion, Length, Style};
pub use effect::Effect;
pub use function::Function;
pub use laws::one_more_writes;
pub use output::out_of;
pub use std_host::{StdHost, answer_surely};
