//! Tests of the libraries that read C, `cx_lex` today, through their public items: what no row of `rows` shows.
#![tactic(auto)]

#[cfg(test)]
mod tests;
