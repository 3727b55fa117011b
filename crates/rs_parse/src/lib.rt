//! What files read as.
#![tactic(auto)]

mod cargo;
mod crates;
mod fault;
mod laws;
mod module;
mod names;
mod outline;

pub use crates::read_crate;
pub use fault::ReadFault;
pub use laws::{
    module_texts_spell, modules_are_read, one_crate, one_main, one_module, text_reads,
    texts_are_closed,
};
pub use module::read_items;
pub use outline::mod_names;
