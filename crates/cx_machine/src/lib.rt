//! The states of a running program of C (ISO C99, 5.1.2.3), and its steps beside those of expressions.
#![tactic(auto)]

mod calls;
mod ending;
mod entries;
mod machine;
mod statics;
mod steps;
mod stop;

pub use calls::calls_external;
pub use ending::returns;
pub use entries::{calls_defined, is_main, site_of, takes_params, values_of};
pub use machine::{Caller, Control, Machine, go};
pub use statics::{begins_static, goes_to_statics};
pub use steps::{end_site, goes_on, goes_on_behind, goes_on_putting, goes_on_turning};
pub use stop::Stop;
