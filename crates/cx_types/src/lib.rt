//! Types that are made of others: with `const` added, without it, and composite types (ISO C99, 6.2.5, 6.2.7 and 6.7.3). Each
//! answer is refused only for want of memory.
#![tactic(auto)]

mod composites;
mod parts;
mod qualifiers;

pub use composites::{composite, unqualified_composite};
pub use qualifiers::{qualified, with_const};
