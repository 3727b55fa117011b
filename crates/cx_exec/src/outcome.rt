use cr_base::{Items, Name, URule};

/// How a run of a program came out.
#[derive(Drop)]
pub enum COutcome {
    /// The program ended with this status.
    Ended(i32),
    /// Its last step is undefined by a rule, at this line of this unit.
    Undefined { rule: URule, unit: u32, line: u32 },
    /// It goes on after the steps that were given.
    StepsUsed,
    /// An object goes past the store's limit: the bytes that it needs, and those that are left.
    StoreFull { need: u64, left: u64 },
    /// The host doesn't take a call of the function with this name.
    HostRefused(Name),
    /// The outside failed at a call.
    HostFault,
}

/// A run of a program.
#[derive(Drop)]
pub struct CRun {
    pub outcome: COutcome,
    /// The answers that the run took, in order: of each call of a function whose effect isn't known what
    /// the host answered, and of each allocation 0 where the store refused the block and 1 otherwise.
    pub trail: Items<i64>,
    /// How many steps it took: with the one that ended it or that is undefined, and without the one that
    /// would begin an object or make a call.
    pub steps: u64,
}
