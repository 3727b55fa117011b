//! A function of C and that of the crate, wherever the two stand in their bodies: objects of open statements begin and die (ISO C99, 6.2.4 and 6.8).
#![tactic(auto)]
