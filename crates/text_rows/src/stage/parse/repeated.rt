//! Texts in which parts stand many times.

use row_words::{Asked, first_step};
use std::alloc::Global;

// More times than a part of these rows stands.
const MOST_TIMES: u32 = 100_000;

/// The text that `COUNT HEAD | OPENING | MIDDLE | CLOSING | TAIL` asks for: HEAD, so many times OPENING, MIDDLE, so
/// many times CLOSING, and TAIL.
pub(crate) fn repeated(alloc: Global, asked: &mut Asked) -> Vec<u8> {
    let count = count(asked);
    if asked.rest().split(" | ").count() != 5 {
        asked.refuse();
    }
    let mut text = Vec::new(alloc);
    put(alloc, asked, &mut text, 1);
    put(alloc, asked, &mut text, count);
    put(alloc, asked, &mut text, 1);
    put(alloc, asked, &mut text, count);
    put(alloc, asked, &mut text, 1);
    asked.end();
    text
}

fn count(asked: &mut Asked) -> u32 {
    let count = asked.number();
    let allowed = if count <= MOST_TIMES {
        Some(count)
    } else {
        None
    };
    asked.found(allowed, 0)
}

// Appends the next part so many times.
fn put(alloc: Global, asked: &mut Asked, text: &mut Vec<u8>, times: u32) {
    let part = first_step(asked);
    let others = asked.rest();
    asked.begin(part);
    let bytes = asked.bytes(alloc);
    for _ in 0..times {
        asked.had(text.extend_from_slice(bytes.as_slice()));
    }
    asked.begin(others);
}
