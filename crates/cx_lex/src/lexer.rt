//! The tokens of a file.

ghost use Rattle.std.specs.Prelude.{◌≡◌, ◌≤◌, ◌++◌, List, OnOk, IfOk, IfErr, Ok, Err, Some, length};
ghost use Rattle.cx_lex.specs.declared.token.Token.{Token};
ghost use Rattle.cx_lex.specs.Lexed.{IsFirstFault, IsUnlessMemory, refusal_of};
ghost use Rattle.cx_lex.specs.Mirror.{stop_of, token_list};
ghost use Rattle.cx_lex.specs.Tokens.{RuleOnLine, Spells, token_fault};

use crate::fault::Fault;
use crate::piece::{Piece, piece_at};
use crate::place::Place;
use crate::token::{Token, TokenKind};
use cr_base::{Items, Memory, Refusal, Stop};
use std::alloc::Global;

// Appends a token on a line, where there is one.
fn add(tokens: &mut Items<Token>, kind: Option<TokenKind>, line: u32) -> Result<(), Memory>
    ensures { OnOk result (tokens.new ≡ tokens.old ++ token_list kind line) }
{
    match kind {
        None => Ok(()),
        Some(kind) => tokens.push(Token { kind, line }),
    }
}

// Why a unit isn't read, on a line.
fn stop_at(fault: Fault, unit: u32, line: u32) -> Stop
    ensures { result ≡ stop_of unit line fault }
{
    match fault {
        Fault::Broken(rule) => Stop::Refused(Refusal { rule, unit, line }),
        Fault::Memory => Stop::Memory,
    }
}

/// The tokens that the bytes of a unit spell (ISO C99, 6.4), or the first rule of tokens that they
/// break: one of X1 to X8, O1, O2 and O12, with the number of the unit and the line of what breaks it.
/// `Stop::Memory` is want of memory.
///
/// White space is that of 6.4p3, comments, and the linemarkers that `gcc -E` writes. Lines are counted
/// in the bytes, from 1, and linemarkers don't count.
pub fn lex(alloc: Global, bytes: &[u8], unit: u32) -> Result<Items<Token>, Stop>
    requires { length bytes.now ≤ 1048576 }

    ensures spelled { IfOk result (λ tokens. Spells bytes.now tokens) }
    ensures refused { IfErr result (λ stop. IsFirstFault bytes.now unit stop) }

    // No other answer comes: the list that is spelled, or the refusal of the first fault.
    ensures only { (tokens : List Token) → Spells bytes.now tokens → IsUnlessMemory result (Ok tokens) }
    ensures first { (fault : RuleOnLine) → token_fault bytes.now ≡ Some fault
        → IsUnlessMemory result (Err (refusal_of unit fault)) }
{
    let mut tokens = Items::new(alloc);
    let mut place = Place {
        line: 1,
        first: true,
    };
    let mut at = 0;
    while at < bytes.len() {
        let rest = &bytes[at..];
        let Piece { size, kind } = match piece_at(alloc, rest, place.first) {
            Ok(piece) => piece,
            Err(fault) => return Err(stop_at(fault, unit, place.line)),
        };
        add(&mut tokens, kind, place.line)?;
        place = place.behind(&rest[..size]);
        at += size;
    }
    Ok(tokens)
}
