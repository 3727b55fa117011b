//! The tokens that a node prints itself.

ghost use Rattle.std.specs.Prelude.{◌≡◌, ◌++◌, ◌∷◌, [], OnOk, get_or, drop};
ghost use Rattle.straight_tree.specs.Tokens as tokens;

use cr_base::{Items, Memory};
use cx_lex::{Keyword, Punct, Token, TokenKind};

// The line of the token of this index, 0 where there is none.
fn line_at(lines: &[u32], index: usize) -> u32
    ensures { result ≡ get_or lines.now index 0 }
{
    match lines.get(index) {
        Some(line) => *line,
        None => 0,
    }
}

/// The lines behind the first.
pub fn later(lines: &[u32]) -> &[u32]
    ensures { result.now ≡ drop 1 lines.now }
{
    match lines.split_first() {
        Some((_, others)) => others,
        None => lines,
    }
}

/// Appends the token of this index. Refused only for want of memory.
pub fn put_own(
    out: &mut Items<Token>,
    lines: &[u32],
    index: usize,
    kind: TokenKind,
) -> Result<(), Memory>
    ensures { OnOk result (out.new ≡ out.old ++ tokens.own lines.now index kind ∷ []) }
{
    out.push(Token {
        kind,
        line: line_at(lines, index),
    })
}

/// Appends a mark. Refused only for want of memory.
pub fn put_mark(
    out: &mut Items<Token>,
    lines: &[u32],
    index: usize,
    punct: Punct,
) -> Result<(), Memory>
    ensures { OnOk result (out.new ≡ out.old ++ tokens.mark lines.now index punct ∷ []) }
{
    put_own(out, lines, index, TokenKind::Mark(punct))
}

/// Appends a keyword. Refused only for want of memory.
pub fn put_key(
    out: &mut Items<Token>,
    lines: &[u32],
    index: usize,
    keyword: Keyword,
) -> Result<(), Memory>
    ensures { OnOk result (out.new ≡ out.old ++ tokens.key lines.now index keyword ∷ []) }
{
    put_own(out, lines, index, TokenKind::Key(keyword))
}
