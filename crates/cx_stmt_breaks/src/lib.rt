//! Which rule of the profile statements, declarations, and the parts of initialisers break (ISO C99, 6.7 to 6.9). No answer takes
//! memory.
#![tactic(auto)]

mod asked;
mod declarations;
mod initialisers;
mod returns;
mod statements;

pub use asked::case_value;
pub use declarations::{declares_rule, empty_rule, head_rule, tentative_rule};
pub use initialisers::{Given, designated_rule, element_rule, given_rule};
pub use returns::return_rule;
pub use statements::{
    case_rule, controls_rule, default_rule, dropped_rule, goto_rule, jump_rule, label_rule,
    switch_rule,
};
