//! What steps name: types, names and bit-fields.

ghost use Rattle.std.specs.Prelude.{IfSome};
ghost use Rattle.mem_bytes.specs.Calls.{IsFieldPlace};

use cr_base::{Boxed, Items, Name, Spot};
use row_words::{Asked, RowFault};
use rs_expr::{Cursor, ty};
use rs_lex::{LexFault, Token, lex};
use rs_tree::{RPath, RTy};
use std::alloc::Global;

// How deep types may nest.
const LEVELS: usize = 100;

/// The type that is left of a step.
pub(crate) fn type_asked(alloc: Global, asked: &mut Asked) -> Option<Boxed<RTy>> {
    let text = asked.bytes(alloc);
    match lex(alloc, text.as_slice()) {
        Ok(tokens) => type_of(alloc, &tokens, asked),
        Err(LexFault::NotTokens { .. }) => {
            asked.refuse();
            None
        }
        Err(LexFault::Memory) => {
            asked.fail(RowFault::Memory);
            None
        }
    }
}

// The type that tokens read as, all of them.
fn type_of(alloc: Global, tokens: &Items<Token>, asked: &mut Asked) -> Option<Boxed<RTy>> {
    let mut cursor = Cursor::new(tokens.as_slice());
    let read = ty(alloc, &mut cursor, LEVELS);
    if cursor.len() > 0 {
        asked.refuse();
    }
    asked.had(read)
}

/// The next word as a name.
pub(crate) fn name_asked(alloc: Global, asked: &mut Asked) -> Name {
    let word = asked.word();
    let rest = asked.rest();
    asked.begin(word);
    let name = Name::of(asked.bytes(alloc));
    asked.begin(rest);
    name
}

/// The next two words as a path.
pub(crate) fn path_asked(alloc: Global, asked: &mut Asked) -> RPath {
    let home = name_asked(alloc, asked);
    let name = name_asked(alloc, asked);
    RPath { home, name }
}

/// The next three words as where a bit-field stands.
pub(crate) fn spot_asked(asked: &mut Asked) -> Option<Spot>
    ensures { IfSome result (λ spot. IsFieldPlace spot.bit spot.width) }
{
    let byte = asked.number();
    let bit = asked.number();
    let width = asked.number();
    if bit < 8 && 1 <= width && width <= 32 {
        Some(Spot { byte, bit, width })
    } else {
        asked.refuse();
        None
    }
}

/// The next word as whether a bit-field has a sign.
pub(crate) fn sign_asked(asked: &mut Asked) -> bool {
    asked
        .named(&[("signed", true), ("unsigned", false)])
        .unwrap_or(false)
}
