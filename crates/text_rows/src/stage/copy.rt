//! `copy TEXT`: the bytes of copies of this text as a name, as a text and as a list of bytes.

use cr_base::{Items, Name, Text};
use row_words::{Answer, Asked};
use std::alloc::Global;

pub(crate) fn answer(alloc: Global, asked: &mut Asked, out: &mut Answer) {
    let text = asked.rest();
    let name = Name::of(asked.bytes(alloc));
    if let Some(copy) = asked.had(name.copy()) {
        out.quoted(copy.bytes());
    }
    if let Some(copy) = asked.had(Text::from_str(alloc, text)) {
        out.quoted(copy.as_bytes());
    }
    if let Some(copy) = asked.had(Items::from_slice(alloc, text.as_bytes())) {
        out.quoted(copy.as_slice());
    }
}
