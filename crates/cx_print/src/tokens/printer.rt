//! A list of tokens that grows until memory runs out, and the tokens that a node prints itself.
#![tactic(auto, using(crate::proofs::PrintingLemmas::printing))]

ghost use Rattle.std.specs.Prelude.{◌≡◌, ◌++◌, ◌∷◌, [], Some, IfOk, get_or, drop, length};
ghost use Rattle.cx_lex.specs.declared.token.TokenKind.TheVariants as kind;
ghost use Rattle.cx_print.specs.Printing.{Appends};
ghost use Rattle.cx_tree.specs.Tokens as tokens;

use cr_base::{Items, Memory, Name};
use cx_lex::{Keyword, Punct, Token, TokenKind};
use std::alloc::Global;
use std::marker::Model;

/// The tokens printed so far. From where memory ran out on nothing is printed any more, and there is no list.
#[derive(Drop)]
pub struct Printer {
    list: Items<Token>,
    is_full: bool,
}

impl Model for Printer {
    ghost use Rattle.std.specs.Prelude.{List, Option, Some, None, if◌then◌else◌};
    ghost use Rattle.cx_lex.specs.declared.token.Token.{Token};

    ghost Value = { Option (List Token) };

    ghost view = { λ printer. if printer.is_full then None else Some printer.list };
}

// The line of the token of this index, 0 where there is none.
fn line_at(lines: &[u32], index: usize) -> u32
    ensures { result ≡ get_or lines.now index 0 }
{
    match lines.get(index) {
        Some(line) => *line,
        None => 0,
    }
}

/// The lines behind the first.
pub fn later(lines: &[u32]) -> &[u32]
    ensures { result.now ≡ drop 1 lines.now }
{
    match lines.split_first() {
        Some((_, others)) => others,
        None => lines,
    }
}

impl Printer {
    pub fn new(alloc: Global) -> Printer
        ensures { result ≡ Some [] }
    {
        Printer {
            list: Items::new(alloc),
            is_full: false,
        }
    }

    /// The tokens. Refused only for want of memory.
    pub fn finish(self) -> Result<Items<Token>, Memory>
        ensures { IfOk result (λ list. self ≡ Some list) }
    {
        if self.is_full {
            return Err(Memory);
        }
        Ok(self.list)
    }

    // Appends a token with the line of this index.
    fn own(&mut self, lines: &[u32], index: usize, kind: TokenKind)
        ensures { Appends self.old self.new (tokens.own lines.now index kind ∷ []) }
    {
        if self.is_full {
            return;
        }
        let line = line_at(lines, index);
        if self.list.push(Token { kind, line }).is_err() {
            self.is_full = true;
        }
    }

    /// Appends a token that holds no memory, with the line of this index.
    pub fn plain(&mut self, lines: &Items<u32>, index: usize, kind: TokenKind)
        ensures { Appends self.old self.new (tokens.own lines.now index kind ∷ []) }
    {
        self.own(lines.as_slice(), index, kind);
    }

    pub fn mark(&mut self, lines: &Items<u32>, index: usize, punct: Punct)
        ensures { Appends self.old self.new (tokens.mark lines.now index punct ∷ []) }
    {
        self.own(lines.as_slice(), index, TokenKind::Mark(punct));
    }

    pub fn key(&mut self, lines: &Items<u32>, index: usize, word: Keyword)
        ensures { Appends self.old self.new (tokens.key lines.now index word ∷ []) }
    {
        self.own(lines.as_slice(), index, TokenKind::Key(word));
    }

    pub fn word(&mut self, lines: &Items<u32>, index: usize, name: &Name)
        ensures { Appends self.old self.new (tokens.word lines.now index name.now ∷ []) }
    {
        self.word_at(lines.as_slice(), index, name);
    }

    /// Appends a token with the first of these lines.
    pub fn front(&mut self, ahead: &[u32], kind: TokenKind)
        ensures { Appends self.old self.new (tokens.own ahead.now 0 kind ∷ []) }
    {
        self.own(ahead, 0, kind);
    }

    /// Appends a mark with the first of these lines.
    pub fn next(&mut self, ahead: &[u32], punct: Punct)
        ensures { Appends self.old self.new (tokens.mark ahead.now 0 punct ∷ []) }
    {
        self.own(ahead, 0, TokenKind::Mark(punct));
    }

    /// Appends an identifier with the line of this index.
    pub fn word_at(&mut self, lines: &[u32], index: usize, name: &Name)
        ensures { Appends self.old self.new (tokens.word lines.now index name.now ∷ []) }
    {
        match name.copy() {
            Ok(name) => self.own(lines, index, TokenKind::Word(name)),
            Err(_) => self.is_full = true,
        }
    }

    // Appends a string literal with the first of these lines.
    fn text(&mut self, ahead: &[u32], part: &Name)
        ensures { Appends self.old self.new (tokens.own ahead.now 0 (kind.Text part.now) ∷ []) }
    {
        match part.copy() {
            Ok(part) => self.own(ahead, 0, TokenKind::Text(part)),
            Err(_) => self.is_full = true,
        }
    }

    /// Appends adjacent string literals.
    #[tactic(auto, using(crate::proofs::PrintingLemmas::printing_loop))]
    pub fn texts(&mut self, lines: &Items<u32>, parts: &Items<Name>)
        ensures { Appends self.old self.new (tokens.texts_tokens parts.now lines.now) }
    {
        let mut ahead = lines.as_slice();
        for part in parts.as_slice() {
            self.text(ahead, part);
            ahead = later(ahead);
        }
    }

    /// Appends a tag, where there is one, and gives the lines behind it.
    pub fn tag<'a>(&mut self, lines: &'a [u32], tag: &Option<Name>) -> &'a [u32]
        ensures put { Appends self.old self.new (tokens.tag_tokens tag.now lines.now) }
        ensures rest { result.now ≡ tokens.behind_tag tag.now lines.now }
    {
        match tag {
            None => lines,
            Some(name) => {
                self.word_at(lines, 0, name);
                later(lines)
            }
        }
    }

    /// Appends keywords that stand side by side, and gives the lines behind them.
    #[tactic(auto, using(crate::proofs::PrintingLemmas::printing_loop, crate::proofs::PartLemmas::keys_count))]
    pub fn keys<'a>(&mut self, lines: &'a [u32], words: &Items<Keyword>) -> &'a [u32]
        ensures put { Appends self.old self.new (tokens.owns (tokens.keys words.now) lines.now) }
        ensures rest { result.now ≡ drop (length (tokens.keys words.now)) lines.now }
    {
        let mut ahead = lines;
        for word in words.as_slice() {
            self.own(ahead, 0, TokenKind::Key(*word));
            ahead = later(ahead);
        }
        ahead
    }

    /// Appends identifiers with commas between them, and the closing parenthesis.
    #[tactic(auto, using(crate::proofs::PrintingLemmas::printing_loop))]
    pub fn names(&mut self, lines: &[u32], names: &Items<Name>)
        ensures { Appends self.old self.new (tokens.names_tokens names.now lines.now) }
    {
        let Some((first, others)) = names.as_slice().split_first() else {
            return self.next(lines, Punct::RightParenthesis);
        };
        self.word_at(lines, 0, first);
        let mut ahead = later(lines);
        for name in others {
            self.next(ahead, Punct::Comma);
            self.word_at(ahead, 1, name);
            ahead = later(later(ahead));
        }
        self.next(ahead, Punct::RightParenthesis);
    }

    /// Appends the end of a list in braces, with a comma where one stands behind the last part.
    pub fn brace(&mut self, ahead: &[u32], last_comma: bool)
        ensures { Appends self.old self.new (tokens.owns (tokens.brace last_comma) ahead.now) }
    {
        if last_comma {
            self.next(ahead, Punct::Comma);
            return self.next(later(ahead), Punct::RightBrace);
        }
        self.next(ahead, Punct::RightBrace);
    }

    /// Appends the end of a list of parameters, with `, ...` where the function is variadic.
    pub fn parenthesis(&mut self, ahead: &[u32], variadic: bool)
        ensures { Appends self.old self.new (tokens.owns (tokens.parenthesis variadic) ahead.now) }
    {
        if variadic {
            self.next(ahead, Punct::Comma);
            self.next(later(ahead), Punct::Ellipsis);
            return self.next(later(later(ahead)), Punct::RightParenthesis);
        }
        self.next(ahead, Punct::RightParenthesis);
    }
}
