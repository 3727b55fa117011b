//! The tokens that aren't read yet.

ghost use Rattle.std.specs.Prelude.{◌≡◌, length, drop, IfOk, OnOk};
ghost use Rattle.rs_lex.specs.Views.{tokens_view};
ghost use Rattle.rs_expr.specs.Signs as signs;
ghost use Rattle.rs_expr.specs.Reading as reading;

use crate::sign::{Sign, sign_of, text};
use cr_base::{Memory, Name};
use rs_lex::Token;
use std::alloc::Global;
use std::marker::Model;

// How many types, expressions and blocks may stand in one another. What nests deeper would need more of the
// stack than a program has, so it is refused as want of memory.
const MOST_NESTED: u32 = 4000;

// The tokens behind so many, or none.
fn behind(tokens: &[Token], count: usize) -> &[Token]
    ensures { result.now ≡ drop count tokens.now }
{
    let count = count.min(tokens.len());
    &tokens[count..]
}

/// The tokens that aren't read yet. Contracts see it as their list.
#[derive(Drop)]
pub struct Cursor<'a> {
    rest: &'a [Token],
    // How many types, expressions and blocks are open.
    nested: u32,
}

impl<'a> Model for Cursor<'a> {
    ghost use Rattle.std.specs.Prelude.{List};
    ghost use Rattle.rs_lex.specs.Views.{tokens_view};
    ghost use Rattle.rs_text.specs.Tokens.{RToken};

    ghost Value = { List RToken };

    ghost view = { λ cursor. tokens_view cursor.rest.now };
}

impl<'a> Cursor<'a> {
    /// All tokens of a file.
    pub fn new(tokens: &'a [Token]) -> Cursor<'a>
        ensures { result ≡ tokens_view tokens.now }
    {
        Cursor {
            rest: tokens,
            nested: 0,
        }
    }

    /// How many tokens are ahead.
    pub fn len(&self) -> usize
        ensures { result ≡ length self.now }
    {
        self.rest.len()
    }

    /// What the next token is.
    pub fn peek(&self) -> Sign
        ensures { result ≡ signs.sign_at self.now }
    {
        match self.rest {
            [] => Sign::End,
            [token, ..] => sign_of(token),
        }
    }

    /// What the token behind the next one is.
    pub fn peek_behind(&self) -> Sign
        ensures { result ≡ signs.sign_at (drop 1 self.now) }
    {
        match self.rest {
            [] | [_] => Sign::End,
            [_, token, ..] => sign_of(token),
        }
    }

    /// What the token behind the next two is.
    pub fn peek_behind_two(&self) -> Sign
        ensures { result ≡ signs.sign_at (drop 2 self.now) }
    {
        match self.rest {
            [] | [_] | [_, _] => Sign::End,
            [_, _, token, ..] => sign_of(token),
        }
    }

    /// What the token behind the next five is.
    pub fn peek_behind_five(&self) -> Sign
        ensures { result ≡ signs.sign_at (drop 5 self.now) }
    {
        match self.rest {
            [_, _, _, _, _, token, ..] => sign_of(token),
            _ => Sign::End,
        }
    }

    /// The bytes of the next token; there are none where none is ahead.
    pub fn text(&self) -> &[u8]
        ensures { result.now ≡ signs.text_at self.now }
    {
        match self.rest {
            [] => b"",
            [token, ..] => text(token),
        }
    }

    /// The bytes of the token behind the next two.
    pub fn text_behind_two(&self) -> &[u8]
        ensures { result.now ≡ signs.text_at (drop 2 self.now) }
    {
        match self.rest {
            [_, _, token, ..] => text(token),
            _ => b"",
        }
    }

    /// The bytes of the token behind the next four.
    pub fn text_behind_four(&self) -> &[u8]
        ensures { result.now ≡ signs.text_at (drop 4 self.now) }
    {
        match self.rest {
            [_, _, _, _, token, ..] => text(token),
            _ => b"",
        }
    }

    /// Leaves so many tokens behind, or all.
    #[tactic(auto, using(crate::proofs::CursorLemmas::view_behind))]
    pub fn skip(&mut self, count: usize)
        ensures { self.new ≡ drop count self.old }
    {
        self.rest = behind(self.rest, count);
    }

    /// Leaves a comma behind, where it stands.
    pub fn skip_comma(&mut self)
        ensures { self.new ≡ reading.comma_behind (signs.sign_at self.old) self.old }
    {
        if self.peek() == Sign::Comma {
            self.skip(1);
        }
    }

    /// Takes the bytes of the next token as a name. Refused only for want of memory.
    pub fn name(&mut self, alloc: Global) -> Result<Name, Memory>
        ensures value { IfOk result (λ name. name ≡ signs.text_at self.old) }
        ensures rest { OnOk result (self.new ≡ drop 1 self.old) }
    {
        let bytes = Vec::from_slice(alloc, self.text())?;
        self.skip(1);
        Ok(Name::of(bytes))
    }

    /// Begins what may nest. Refused only for want of memory.
    pub fn enter(&mut self) -> Result<(), Memory>
        ensures { self.new ≡ self.old }
    {
        if MOST_NESTED <= self.nested {
            return Err(Memory);
        }
        self.nested = self.nested.saturating_add(1);
        Ok(())
    }

    /// Ends what was begun last.
    pub fn leave(&mut self)
        ensures { self.new ≡ self.old }
    {
        self.nested = self.nested.saturating_sub(1);
    }
}
