//! The nodes of the flow of a body by their places: each place of the body has one point, and what a reached point leads to is reached (ISO C99, 6.8).
#![tactic(auto)]
