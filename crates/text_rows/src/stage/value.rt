//! `value wrap TYPE NUMBER`, `value fits TYPE NUMBER` and `value convert TYPE NUMBER`: the number reduced into
//! the range of an integer type, whether it is a value of the type, and the number converted to it (ISO C99,
//! 6.2.6.2, 6.3.1.2 and 6.3.1.3).

use cr_base::{convert, fits, wrap};
use row_words::{Answer, Asked, integer, whole};

pub(crate) fn answer(asked: &mut Asked, out: &mut Answer) {
    match asked.word() {
        "wrap" => out.value(wrap(whole(asked), asked.number())),
        "fits" => out.value(fits(integer(asked), asked.number())),
        "convert" => out.value(convert(integer(asked), asked.number())),
        _ => asked.refuse(),
    }
    asked.end();
}
