//! Bit-fields of a C program under the relation between the memory of a written crate and its own: the crate has no bit-fields, and loads and stores the
//! bytes that they touch (ISO C99, 6.2.6.1 and 6.7.2.1). The one function here is the law of it.
#![tactic(auto)]

mod laws;

pub use laws::bit_fields_stand;
