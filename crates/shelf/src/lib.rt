//! The outside: named files and streams of bytes, as traits whose contracts say which bytes are
//! held and when a call may fail, with implementations over memory and over the system.
#![tactic(auto)]

mod ahead;
mod called;
mod coming;
mod disk_shelf;
mod fault;
mod fault_log;
mod file;
mod files;
mod mem_shelf;
mod mem_sink;
mod mem_source;
mod reading;
mod shelf;
mod sink;
mod source;
mod std_sink;
mod std_source;
mod sure_shelf;
mod sure_sink;
mod sure_source;
mod written;

pub use called::{Called, Kind};
pub use disk_shelf::DiskShelf;
pub use fault::{Failed, ShelfFault};
pub use file::{File, Got};
pub use mem_shelf::MemShelf;
pub use mem_sink::MemSink;
pub use mem_source::MemSource;
pub use shelf::Shelf;
pub use sink::{Sink, write_all};
pub use source::Source;
pub use std_sink::StdSink;
pub use std_source::StdSource;
pub use sure_shelf::SureShelf;
pub use sure_sink::SureSink;
pub use sure_source::SureSource;
