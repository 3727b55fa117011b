//! The statements that are written from a flow and its shape: nodes stand in the arms of branches, behind one
//! another, in loops, and in labelled blocks where control goes further (Zakai's Relooper; the Rust Reference,
//! "Loops and other breakable expressions").
#![tactic(auto)]
