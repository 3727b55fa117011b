use crate::fault::{RowFault, given};
use cx_lex::lex;
use cx_parse::parse;
use cx_tree::Unit;
use std::alloc::Global;

// The bytes that a unit may have.
const UNIT_LIMIT: usize = 1_048_576;

/// The tree of a text.
pub(crate) fn unit_of(alloc: Global, text: &str) -> Result<Unit, RowFault> {
    let bytes = bytes_of(alloc, text)?;
    if bytes.len() > UNIT_LIMIT {
        return Err(RowFault::Form);
    }
    let tokens = given(lex(alloc, bytes.as_slice(), 0))?;
    given(parse(alloc, tokens.as_slice(), 0))
}

/// The bytes of a text, in which `$n` stands for a newline.
pub(crate) fn bytes_of(alloc: Global, text: &str) -> Result<Vec<u8>, RowFault> {
    let mut bytes = Vec::new(alloc);
    for (place, piece) in text.split("$n").enumerate() {
        if place > 0 {
            push(&mut bytes, b"\n")?;
        }
        push(&mut bytes, piece.as_bytes())?;
    }
    Ok(bytes)
}

fn push(bytes: &mut Vec<u8>, more: &[u8]) -> Result<(), RowFault> {
    match bytes.extend_from_slice(more) {
        Ok(()) => Ok(()),
        Err(_) => Err(RowFault::Memory),
    }
}
