//! Keywords in lists.

ghost use Rattle.std.specs.Prelude.{◌≡◌};
ghost use Rattle.cx_rules.specs.Pieces.{has_word};
ghost use Rattle.cx_rules.specs.Shapes.{count_of, same_key};

use cx_lex::Keyword;

/// Whether two keywords are the same.
#[tactic(auto, unfolding(cx_rules::specs::Shapes::same_key))]
pub fn same_key(one: Keyword, other: Keyword) -> bool
    ensures { result ≡ same_key one other }
{
    one == other
}

/// Whether a keyword is among others.
pub fn has_word(word: Keyword, words: &[Keyword]) -> bool
    ensures { result ≡ has_word word words.now }
{
    for one in words {
        if same_key(word, *one) {
            return true;
        }
    }
    false
}

// How often a keyword is among others.
pub(crate) fn count_of(word: Keyword, words: &[Keyword]) -> usize
    ensures { result ≡ count_of word words.now }
{
    let mut count = 0;
    for one in words {
        if same_key(word, *one) {
            count += 1;
        }
    }
    count
}
