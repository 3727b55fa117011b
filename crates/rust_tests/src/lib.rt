//! Tests of the libraries of the written crate, `straight_items` today, through their public items: what no row of `rows`
//! shows.
#![tactic(auto)]

#[cfg(test)]
mod tests;
