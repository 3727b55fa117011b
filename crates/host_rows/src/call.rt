//! Calls in rows.

use crate::asked::Asked;
use cr_base::{Int, Items, Name, Scalar};
use ext_calls::{Arg, Call};
use std::alloc::Global;

/// The calls of a text, which `; ` separates.
pub(crate) fn calls<'a>(alloc: Global, text: &'a str, asked: &mut Asked<'a>) -> Vec<Call> {
    let mut calls = Vec::new(alloc);
    for one in text.split("; ") {
        asked.begin(one);
        let call = call(alloc, asked);
        asked.had(calls.push(call));
    }
    calls
}

// The call that what is left asks for.
fn call(alloc: Global, asked: &mut Asked) -> Call {
    let (name, args) = asked.rest().split_once(' ').unwrap_or((asked.rest(), ""));
    asked.begin(name);
    let name = Name::of(asked.bytes(alloc));
    let mut items = Items::new(alloc);
    for word in args.split_ascii_whitespace() {
        let arg = arg(alloc, word, asked);
        asked.had(items.push(arg));
    }
    Call { name, args: items }
}

fn arg<'a>(alloc: Global, word: &'a str, asked: &mut Asked<'a>) -> Arg {
    match word.strip_prefix("'") {
        Some(text) => {
            asked.begin(text);
            Arg::Text(Name::of(asked.bytes(alloc)))
        }
        None => number(word, asked),
    }
}

fn number(word: &str, asked: &mut Asked) -> Arg {
    let (ty, digits) = word.split_once(':').unwrap_or((word, ""));
    let scalar = scalar_of(ty);
    Arg::Whole {
        scalar: asked.found(scalar, Scalar::Truth),
        value: value(digits, asked),
    }
}

// A number of 64 bits, with a sign or without one.
fn value(digits: &str, asked: &mut Asked) -> Int {
    if let Ok(value) = digits.parse::<i64>() {
        return Int::from(value);
    }
    let value = digits.parse::<u64>().ok();
    Int::from(asked.found(value, 0))
}

fn scalar_of(word: &str) -> Option<Scalar> {
    if word == "bool" {
        return Some(Scalar::Truth);
    }
    let (signed, digits) = match word.strip_prefix("i") {
        Some(digits) => (true, digits),
        None => (false, word.strip_prefix("u").unwrap_or("")),
    };
    let width = digits.parse().ok()?;
    Some(Scalar::Whole { width, signed })
}
