//! The bodies of a written crate, and the crate, as definitions (ISO C99, 6.9).
#![tactic(auto)]
