ghost use Rattle.std.specs.Prelude.{◌≡◌, ◌<◌, length, map};
ghost use Rattle.run_ends.specs.Told.{IsPlacedIn, name_at, status_of, tale_of, told_of};

use crate::end::End;
use cr_base::{Name, URule};
use rs_mean::Cause;

/// What is told of the end of a run.
#[derive(Drop)]
pub enum Told<'a> {
    /// The program ended with this status.
    Ended(i32),
    /// It is undefined at a line of a file, by a rule.
    Undefined {
        file: &'a str,
        line: u32,
        rule: URule,
    },
    /// It is wrong.
    Wrong(Cause),
    /// It goes on after so many steps or units.
    StepsUsed(u64),
    /// An object doesn't fit the store: the bytes that it needs, and those that are left.
    StoreFull {
        need: u64,
        left: u64,
    },
    /// The host doesn't take a call of the function with this name.
    CallRefused(Name),
    /// The outside failed at a call.
    HostFailed,
}

// The name of the unit with a number.
fn name_at<'a>(names: &[&'a str], number: u32) -> &'a str
    requires { number < length names.now }
    ensures { result.now ≡ name_at (map (λ name. name.now) names.now) number }
{
    names[number as usize]
}

impl<'a> Told<'a> {
    /// What is told of an end, where the units have these names and so many steps or units were given.
    pub fn of(end: End, names: &[&'a str], steps: u64) -> Told<'a>
        requires { IsPlacedIn (length names.now) end }
        ensures { told_of result ≡ tale_of (map (λ name. name.now) names.now) steps end }
    {
        match end {
            End::Ended(status) => Told::Ended(status),
            End::Undefined { rule, unit, line } => Told::Undefined {
                file: name_at(names, unit),
                line,
                rule,
            },
            End::Wrong(cause) => Told::Wrong(cause),
            End::StepsUsed => Told::StepsUsed(steps),
            End::StoreFull { need, left } => Told::StoreFull { need, left },
            End::CallRefused(name) => Told::CallRefused(name),
            End::HostFailed => Told::HostFailed,
        }
    }

    /// The exit status by which it is told.
    pub fn status(&self) -> u8
        ensures { result ≡ status_of (told_of self.now) }
    {
        match self {
            Told::Ended(_) => 0,
            Told::Undefined { .. } => 5,
            Told::Wrong(_) => 6,
            Told::StepsUsed(_) => 7,
            Told::StoreFull { .. } => 8,
            Told::HostFailed => 9,
            Told::CallRefused(_) => 13,
        }
    }
}
