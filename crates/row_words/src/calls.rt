//! Calls at the outside, as answers have them.

use crate::answer::Answer;
use crate::scalars::write_scalar;
use ext_calls::{Arg, Made};

/// Writes a call that was made, with its answer.
pub fn write_made(made: &Made, out: &mut Answer) {
    out.separate();
    out.bytes(made.call.name.bytes());
    for arg in made.call.args.as_slice() {
        out.text(" ");
        write_arg(arg, out);
    }
    out.text(" = ");
    out.value(made.answer);
}

fn write_arg(arg: &Arg, out: &mut Answer) {
    match arg {
        Arg::Whole { scalar, value } => {
            write_scalar(*scalar, out);
            out.text(":");
            out.value(*value);
        }
        Arg::Text(text) => {
            out.text("text:");
            out.bytes(text.bytes());
        }
    }
}
