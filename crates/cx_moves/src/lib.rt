//! What comes next in a body of C (ISO C99, 6.8): the open statements of a function that runs, what a statement
//! does, what follows one, and where jumps lead.
#![tactic(auto)]

mod choices;
mod jumps;
mod moves;
mod puts;
mod scope;
mod sites;
mod turns;
mod ways;

pub use choices::{choosing, is_switch, switching, turning_on};
pub use jumps::{breaking, continuing, following, jumping};
pub use moves::{Behind, Goal, Left, Move, Purpose, Putting};
pub use puts::{putting, static_puts};
pub use scope::Scope;
pub use sites::{Level, Site, innermost, kill, kill_objects, open};
pub use turns::{ended, entered, leaves, next_of, tested, turn_ended, turning, valued};
pub use ways::{Inside, Opened, Rest, Target, way_in, way_to};
