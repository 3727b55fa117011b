use cr_base::{Name, URule};
use rs_mean::Cause;

/// How the run of a program came out.
#[derive(Drop)]
pub enum End {
    /// The program ended with this status.
    Ended(i32),
    /// Its next step is undefined in C by a rule, at this line of the unit with this number, from 0.
    Undefined { rule: URule, unit: u32, line: u32 },
    /// Its next step is wrong in Rust.
    Wrong(Cause),
    /// It goes on after the steps or units that were given.
    StepsUsed,
    /// An object goes past the store's limit: the bytes that it needs, and those that are left.
    StoreFull { need: u64, left: u64 },
    /// The host doesn't take a call of the function with this name.
    CallRefused(Name),
    /// The outside failed at a call.
    HostFailed,
}
