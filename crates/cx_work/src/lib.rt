//! Expressions of C under evaluation (ISO C99, 6.5 and 5.1.2.3): what is left of one, its finished operands with
//! their accesses, which of its nodes are ready, and how it goes on behind a call.
#![tactic(auto)]

mod begin;
mod child;
mod children;
mod counts;
mod finishing;
mod marks;
mod objects;
mod operand;
mod resuming;
mod work;

pub use child::Child;
pub use children::Children;
pub use counts::{are_finished, counted, is_finished, is_waiting, ready};
pub use finishing::finish;
pub use marks::{Marks, Range, any_overlap, conflict};
pub use objects::{Frame, Objects, Slot, slot_in};
pub use operand::{Called, Callee, Finished, Operand, OperandTy, Typed};
pub use resuming::resume;
pub use work::{Stage, Update, Work};
