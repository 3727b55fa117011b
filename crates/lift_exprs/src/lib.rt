//! What is written in Rust for an expression of C, as definitions over plain trees (ISO C99, 6.5; the Rust Reference, "Expressions" and "Statements").
#![tactic(auto)]
