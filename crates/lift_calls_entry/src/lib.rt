//! Where a function of the crate is entered, its parameters and locals begin, and structures and unions that are passed are copied: then it stands before its body as that of C does
//! (ISO C99, 6.5.2.2p4 and 6.9.1p10).
#![tactic(auto)]

mod laws;

pub use laws::entries_owe;
