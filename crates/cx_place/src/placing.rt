use cr_base::{Items, Rule};
use cx_init::Filling;

// What was placed so far: what is stored, where the next value stands, and for each part in post-order the rule that it breaks, if it
// breaks one.
#[derive(Drop)]
pub(crate) struct Placing {
    pub(crate) filling: Filling,
    pub(crate) rules: Items<Option<Rule>>,
}
