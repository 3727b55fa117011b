//! The flow of a body, as a definition: what stands at each place that control reaches, and where it goes on (ISO C99, 6.8).
#![tactic(auto)]
