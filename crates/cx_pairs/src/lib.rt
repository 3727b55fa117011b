//! Questions about operands that stand together, before their values are taken: how an operator takes two of them, what `?:` gives,
//! which may be assigned, which member a name means, which function is called (ISO C99, 6.5). No answer takes memory.
#![tactic(auto)]

mod assigning;
mod callee;
mod choosing;
mod members;
mod pairing;
mod records;
mod values;

pub use assigning::may_be_assigned;
pub use callee::callee_of;
pub use choosing::{Choice, choice_of};
pub use members::{FoundMember, find_member};
pub use pairing::pairing_of;
pub use values::{is_element_pointer, is_function_pointer, is_object_pointer, is_scalar};
