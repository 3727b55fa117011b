//! The groups of rows, each of a library of its own.

use row_words::{Answer, answer_to, under_name};
use std::alloc::{AllocError, Global};
use std::rt::Files;

/// Whose rows they are.
#[derive(Clone, Copy)]
pub(crate) enum Group {
    /// Tokens, trees, values, layouts and shapes.
    Texts,
    /// Stores and hosts.
    Stores,
    /// Written crates.
    Crates,
    /// Whole jobs.
    Jobs,
    /// The checks of expressions and units.
    Checks,
    /// Runs of C programs.
    Runs,
    /// Calls of the standard host.
    Hosts,
    /// Initialisers by themselves.
    Places,
    /// Forms of expressions.
    Forms,
    /// Written records.
    Records,
    /// Bodies of flows.
    Flows,
}

const GROUPS: [(&str, Group); 11] = [
    ("texts", Group::Texts),
    ("stores", Group::Stores),
    ("crates", Group::Crates),
    ("jobs", Group::Jobs),
    ("checks", Group::Checks),
    ("runs", Group::Runs),
    ("hosts", Group::Hosts),
    ("places", Group::Places),
    ("forms", Group::Forms),
    ("records", Group::Records),
    ("flows", Group::Flows),
];

/// The group of the rows behind a row: the one that it names, or the one before.
pub(crate) fn group_behind(row: &str, before: Group) -> Group {
    let Some(name) = row.strip_prefix("= ") else {
        return before;
    };
    match under_name(&GROUPS, name) {
        Some(group) => group,
        None => before,
    }
}

/// The answer to a row of a group. Refused only for want of memory.
pub(crate) fn answer<R: Files>(
    rt: &R,
    alloc: Global,
    group: Group,
    row: &str,
) -> Result<String, AllocError> {
    if row.starts_with("= ") {
        return as_it_stands(alloc, row);
    }
    match group {
        Group::Texts => answer_to(&text_rows::Stages, alloc, row),
        Group::Stores => answer_to(&store_rows::Stages, alloc, row),
        Group::Crates => answer_to(&crate_rows::Stages, alloc, row),
        Group::Jobs => answer_to(&job_rows::Stages { rt }, alloc, row),
        Group::Checks => check_rows::answer_to(alloc, row),
        Group::Runs => c_run_rows::answer_to(alloc, row),
        Group::Hosts => host_rows::answer_to(alloc, row),
        Group::Places => place_rows::answer_to(alloc, row),
        Group::Forms => answer_to(&form_rows::Stages, alloc, row),
        Group::Records => answer_to(&record_rows::Stages, alloc, row),
        Group::Flows => answer_to(&flow_rows::Stages, alloc, row),
    }
}

fn as_it_stands(alloc: Global, row: &str) -> Result<String, AllocError> {
    let mut out = Answer::new(alloc);
    out.text(row);
    out.finish()
}
