//! The run of a body of C goes along the flow of the body, node by node, and what is written from the flow is owed to it (ISO C99, 6.8).
#![tactic(auto)]
