//! Rows of tests: each line of standard input is a row, and each line of standard output is the answer to the row on the same line. A line
//! that is empty or begins with `#` is written as it stands, and so is a line `= NAME`, behind which stand the rows of another group. A
//! group is a library, which says the form of its rows: `texts` is `text_rows`, `stores` `store_rows`, `crates` `crate_rows`, `jobs`
//! `job_rows`, `checks` `check_rows`, `runs` `c_run_rows`, `hosts` `host_rows`, `places` `place_rows`, `forms` `form_rows`, `records`
//! `record_rows` and `flows` `flow_rows`.
#![tactic(auto)]

mod group;

use crate::group::{Group, answer, group_behind};
use std::io;

fn main(rt: HostRuntime) -> io::Result<()> {
    let mut group = Group::Texts;
    for row in rt.lines(rt.alloc()) {
        let row = row?;
        group = group_behind(row.as_str(), group);
        let answer = answer(&rt, rt.alloc(), group, row.as_str())?;
        rt.println(answer)?;
    }
    Ok(())
}
