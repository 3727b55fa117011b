//! The run of a body of C goes along the points of its flow, from one to the next, wherever what is written for its parts does what those do (ISO C99, 6.8).
#![tactic(auto)]
