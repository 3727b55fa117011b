//! Tests of the libraries on the ground, `cr_base` and `shelf`, through their public items: what no row of `rows`
//! shows. There is nothing else here, so that neither is proved again with its tests.
#![tactic(auto)]

#[cfg(test)]
mod tests;
