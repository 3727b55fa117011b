//! The tokens that aren't read yet.

ghost use Rattle.std.specs.Prelude.{◌≡◌, suc, length};
ghost use Rattle.straight_parse.specs.Reading.{Answers};
ghost use Rattle.straight_parse.specs.Sights as sights;

use crate::fault::Fault;
use crate::sight::{Sight, same_mark, shows_mark, sight_of};
use cr_base::Name;
use cx_lex::{Keyword, Punct, Token, TokenKind, Ty0};
use std::marker::Model;

/// The tokens that aren't read yet.
#[derive(Drop)]
pub struct Cursor<'a> {
    rest: &'a [Token],
}

impl<'a> Model for Cursor<'a> {
    ghost use Rattle.std.specs.Prelude.{List};
    ghost use Rattle.cx_lex.specs.declared.token.Token.{Token};

    ghost Value = { List Token };

    ghost view = { λ cursor. cursor.rest.now };
}

impl<'a> Cursor<'a> {
    pub fn new(tokens: &'a [Token]) -> Cursor<'a>
        ensures { result ≡ tokens.now }
    {
        Cursor { rest: tokens }
    }

    /// What stands ahead.
    pub fn peek(&self) -> Sight
        ensures { result ≡ sights.sight self.now }
    {
        match self.rest.first() {
            None => Sight::End,
            Some(token) => sight_of(&token.kind),
        }
    }

    /// Whether this mark stands ahead.
    pub fn sees(&self, punct: Punct) -> bool
        ensures { result ≡ sights.sees_mark punct self.now }
    {
        shows_mark(self.peek(), punct)
    }

    /// One more than the number of tokens ahead.
    pub fn turns(&self) -> usize
        ensures { result ≡ suc (length self.now) }
    {
        self.rest.len() + 1
    }

    /// Takes an identifier: its name and its line.
    #[tactic(auto, unfolding(crate::specs::Sights::word))]
    pub fn word(&mut self) -> Result<(Name, u32), Fault>
        ensures { Answers (λ w. (w.0, w.1)) result self.new (sights.word self.old) }
    {
        let Some((token, others)) = self.rest.split_first() else {
            return Err(Fault::NoTree);
        };
        let TokenKind::Word(name) = &token.kind else {
            return Err(Fault::NoTree);
        };
        let name = name.copy()?;
        self.rest = others;
        Ok((name, token.line))
    }

    /// Takes an integer constant: its value, its type and its line.
    #[tactic(auto, unfolding(crate::specs::Sights::number))]
    pub fn number(&mut self) -> Result<(u64, Ty0, u32), Fault>
        ensures { Answers (λ n. (n.0, n.1, n.2)) result self.new (sights.number self.old) }
    {
        let Some((token, others)) = self.rest.split_first() else {
            return Err(Fault::NoTree);
        };
        let TokenKind::Number { value, ty } = &token.kind else {
            return Err(Fault::NoTree);
        };
        self.rest = others;
        Ok((*value, *ty, token.line))
    }

    /// Takes a mark, whichever it is, and its line.
    #[tactic(auto, unfolding(crate::specs::Sights::operator))]
    pub fn operator(&mut self) -> Result<(Punct, u32), Fault>
        ensures { Answers (λ m. (m.0, m.1)) result self.new (sights.operator self.old) }
    {
        let Some((token, others)) = self.rest.split_first() else {
            return Err(Fault::NoTree);
        };
        let TokenKind::Mark(punct) = &token.kind else {
            return Err(Fault::NoTree);
        };
        self.rest = others;
        Ok((*punct, token.line))
    }

    /// Takes a keyword, whichever it is, and its line.
    #[tactic(auto, unfolding(crate::specs::Sights::keyword))]
    pub fn keyword(&mut self) -> Result<(Keyword, u32), Fault>
        ensures { Answers (λ k. (k.0, k.1)) result self.new (sights.keyword self.old) }
    {
        let Some((token, others)) = self.rest.split_first() else {
            return Err(Fault::NoTree);
        };
        let TokenKind::Key(keyword) = &token.kind else {
            return Err(Fault::NoTree);
        };
        self.rest = others;
        Ok((*keyword, token.line))
    }

    /// Takes this mark, and gives its line.
    #[tactic(auto, unfolding(crate::specs::Sights::mark))]
    pub fn mark(&mut self, punct: Punct) -> Result<u32, Fault>
        ensures { Answers (λ line. line) result self.new (sights.mark punct self.old) }
    {
        let Some((token, others)) = self.rest.split_first() else {
            return Err(Fault::NoTree);
        };
        let TokenKind::Mark(found) = &token.kind else {
            return Err(Fault::NoTree);
        };
        if !same_mark(*found, punct) {
            return Err(Fault::NoTree);
        }
        self.rest = others;
        Ok(token.line)
    }
}
