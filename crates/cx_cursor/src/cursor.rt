//! The tokens that aren't read yet, and the names in scope.

ghost use Rattle.std.specs.Prelude.{◌≡◌, ◌≢◌, [], ◌∷◌, ◌++◌, suc, length, take, drop, map, IfOk, OnOk};
ghost use Rattle.cx_cursor.specs.Reading.{Answers, at};
ghost use Rattle.cx_cursor.specs.Scopes.{binding, bound};
ghost use Rattle.cx_cursor.specs.Sights as sights;
ghost use Rattle.cx_cursor.specs.declared.fault.Fault.TheVariants.{Memory as WantOfMemory};

use crate::fault::Fault;
use crate::scope::{Bound, Scope};
use crate::sight::{Sight, same_key, same_mark, sight_in};
use cr_base::{Items, Memory, Name};
use cx_lex::{Keyword, Punct, Token, TokenKind, Ty0};
use std::alloc::Global;
use std::marker::Model;

/// The tokens that aren't read yet, and the names in scope.
#[derive(Drop)]
pub struct Cursor<'a> {
    rest: &'a [Token],
    scope: Scope,
    // The line of the last token of all; 1 where there is none.
    end: u32,
}

impl<'a> Model for Cursor<'a> {
    ghost use Rattle.cx_cursor.specs.Reading.{State, at};

    ghost Value = { State };

    ghost view = { λ cursor. at cursor.rest.now cursor.scope };
}

impl<'a> Cursor<'a> {
    /// All tokens of a unit, with no names in scope.
    pub fn new(alloc: Global, tokens: &'a [Token]) -> Cursor<'a>
        ensures { result ≡ at tokens.now [] }
    {
        let end = match tokens.last() {
            Some(token) => token.line,
            None => 1,
        };
        Cursor {
            rest: tokens,
            scope: Scope::new(alloc),
            end,
        }
    }

    /// What the next token is.
    pub fn peek(&self) -> Sight
        ensures { result ≡ sights.sight self.now }
    {
        sight_in(&self.scope, self.rest)
    }

    /// What the token behind the next one is.
    pub fn peek_behind(&self) -> Sight
        ensures { result ≡ sights.sight_behind self.now }
    {
        match self.rest.split_first() {
            None => Sight::End,
            Some((_, others)) => sight_in(&self.scope, others),
        }
    }

    /// Whether this mark stands ahead.
    pub fn sees(&self, punct: Punct) -> bool
        ensures { result ≡ sights.sees_mark punct self.now }
    {
        self.peek().shows_mark(punct)
    }

    /// Whether this keyword stands ahead.
    pub fn sees_key(&self, keyword: Keyword) -> bool
        ensures { result ≡ sights.sees_key keyword self.now }
    {
        self.peek().shows_key(keyword)
    }

    /// One more than the number of tokens ahead.
    pub fn turns(&self) -> usize
        ensures { result ≡ suc (length self.now.tokens) }
    {
        self.rest.len() + 1
    }

    /// The refusal at the next token.
    pub fn no_tree(&self) -> Fault
        ensures { result ≢ WantOfMemory }
    {
        match self.rest.first() {
            Some(token) => Fault::NoTree(token.line),
            None => Fault::NoTree(self.end),
        }
    }

    /// How many bindings are in scope.
    pub fn scope_len(&self) -> usize
        ensures { result ≡ length self.now.names }
    {
        self.scope.len()
    }

    /// Declares a name. Refused only for want of memory.
    pub fn declare(&mut self, name: &Name, is_type: bool) -> Result<(), Memory>
        ensures { OnOk result (self.new ≡ at self.old.tokens (self.old.names ++ binding name.now is_type ∷ [])) }
    {
        self.scope.declare(name, is_type)?;
        Ok(())
    }

    /// The bindings behind this many of the oldest. Refused only for want of memory.
    pub fn bound_since(&self, count: usize) -> Result<Items<Bound>, Memory>
        ensures { IfOk result (λ list. map bound list ≡ drop count self.now.names) }
    {
        self.scope.bound_since(count)
    }

    /// Ends all bindings but this many of the oldest, as where a scope is left.
    pub fn leave(&mut self, count: usize)
        ensures { self.new ≡ at self.old.tokens (take count self.old.names) }
    {
        self.scope.leave(count);
    }

    /// Takes an identifier, a typedef name or not: its name and its line.
    #[tactic(auto, unfolding(crate::specs::Sights::word))]
    pub fn word(&mut self) -> Result<(Name, u32), Fault>
        ensures { Answers (λ w. (w.0, w.1)) result self.new (sights.word self.old) }
    {
        let Some((token, others)) = self.rest.split_first() else {
            return Err(self.no_tree());
        };
        let TokenKind::Word(name) = &token.kind else {
            return Err(self.no_tree());
        };
        let name = name.copy()?;
        self.rest = others;
        Ok((name, token.line))
    }

    /// Takes an integer constant: its value, its type and its line.
    #[tactic(auto, unfolding(crate::specs::Sights::number))]
    pub fn number(&mut self) -> Result<(u64, Ty0, u32), Fault>
        ensures { Answers (λ n. (n.0, n.1, n.2)) result self.new (sights.number self.old) }
    {
        let Some((token, others)) = self.rest.split_first() else {
            return Err(self.no_tree());
        };
        let TokenKind::Number { value, ty } = &token.kind else {
            return Err(self.no_tree());
        };
        self.rest = others;
        Ok((*value, *ty, token.line))
    }

    /// Takes a character constant: its value and its line.
    #[tactic(auto, unfolding(crate::specs::Sights::letter))]
    pub fn letter(&mut self) -> Result<(i32, u32), Fault>
        ensures { Answers (λ n. (n.0, n.1)) result self.new (sights.letter self.old) }
    {
        let Some((token, others)) = self.rest.split_first() else {
            return Err(self.no_tree());
        };
        let TokenKind::Letter(value) = &token.kind else {
            return Err(self.no_tree());
        };
        self.rest = others;
        Ok((*value, token.line))
    }

    /// Takes a string literal: its bytes and its line.
    #[tactic(auto, unfolding(crate::specs::Sights::text))]
    pub fn text(&mut self) -> Result<(Name, u32), Fault>
        ensures { Answers (λ w. (w.0, w.1)) result self.new (sights.text self.old) }
    {
        let Some((token, others)) = self.rest.split_first() else {
            return Err(self.no_tree());
        };
        let TokenKind::Text(bytes) = &token.kind else {
            return Err(self.no_tree());
        };
        let bytes = bytes.copy()?;
        self.rest = others;
        Ok((bytes, token.line))
    }

    /// Takes a mark, whichever it is, and its line.
    #[tactic(auto, unfolding(crate::specs::Sights::operator))]
    pub fn operator(&mut self) -> Result<(Punct, u32), Fault>
        ensures { Answers (λ m. (m.0, m.1)) result self.new (sights.operator self.old) }
    {
        let Some((token, others)) = self.rest.split_first() else {
            return Err(self.no_tree());
        };
        let TokenKind::Mark(punct) = &token.kind else {
            return Err(self.no_tree());
        };
        self.rest = others;
        Ok((*punct, token.line))
    }

    /// Takes a keyword, whichever it is, and its line.
    #[tactic(auto, unfolding(crate::specs::Sights::keyword))]
    pub fn keyword(&mut self) -> Result<(Keyword, u32), Fault>
        ensures { Answers (λ k. (k.0, k.1)) result self.new (sights.keyword self.old) }
    {
        let Some((token, others)) = self.rest.split_first() else {
            return Err(self.no_tree());
        };
        let TokenKind::Key(keyword) = &token.kind else {
            return Err(self.no_tree());
        };
        self.rest = others;
        Ok((*keyword, token.line))
    }

    /// Takes this mark, and gives its line.
    #[tactic(auto, unfolding(crate::specs::Sights::mark))]
    pub fn mark(&mut self, punct: Punct) -> Result<u32, Fault>
        ensures { Answers (λ line. line) result self.new (sights.mark punct self.old) }
    {
        let Some((token, others)) = self.rest.split_first() else {
            return Err(self.no_tree());
        };
        let TokenKind::Mark(found) = &token.kind else {
            return Err(self.no_tree());
        };
        if !same_mark(*found, punct) {
            return Err(self.no_tree());
        }
        self.rest = others;
        Ok(token.line)
    }

    /// Takes this keyword, and gives its line.
    #[tactic(auto, unfolding(crate::specs::Sights::key))]
    pub fn key(&mut self, keyword: Keyword) -> Result<u32, Fault>
        ensures { Answers (λ line. line) result self.new (sights.key keyword self.old) }
    {
        let Some((token, others)) = self.rest.split_first() else {
            return Err(self.no_tree());
        };
        let TokenKind::Key(found) = &token.kind else {
            return Err(self.no_tree());
        };
        if !same_key(*found, keyword) {
            return Err(self.no_tree());
        }
        self.rest = others;
        Ok(token.line)
    }
}
