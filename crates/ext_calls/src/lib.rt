//! Calls to the outside: what a call of an external function is, what a host is that answers it, and
//! two hosts whose answers are given beforehand.
#![tactic(auto)]

mod answers;
mod call;
mod fault;
mod host;
mod script;
mod sure;

pub use call::{Arg, Call, Made};
pub use fault::HostFault;
pub use host::Host;
pub use script::ScriptHost;
pub use sure::{SureHost, answer_surely};
