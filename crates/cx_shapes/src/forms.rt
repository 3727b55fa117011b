//! The types that keywords give (ISO C99, 6.7.2p2).

ghost use Rattle.std.specs.Prelude.{◌≡◌, ◌+◌, ◌==◌, length, nat_le, option_map};
ghost use Rattle.cx_rules.specs.Shapes.{count_of, at_most_once, one_sign, is_unsigned, by_sign, char_form, alone_count, sign_count, alone_form, integer_form, one_size, integer_count, sized_form, form_of_words};
ghost use Rattle.cx_shapes.specs.Forms.{form_of_char, rest_of, unsized_count, is_sized};
ghost use Rattle.cx_shapes.specs.Views.{view_form};

use crate::words::count_of;
use cx_core::Basic;
use cx_lex::Keyword;

// A type that keywords give.
#[derive(Clone, Copy)]
pub(crate) enum Form {
    Void,
    Basic(Basic),
}

fn at_most_once(word: Keyword, words: &[Keyword]) -> bool
    ensures { result ≡ at_most_once word words.now }
{
    count_of(word, words) <= 1
}

// A sign, or none.
fn one_sign(words: &[Keyword]) -> bool
    ensures { result ≡ one_sign words.now }
{
    let signed = count_of(Keyword::Signed, words);
    signed <= 1 && count_of(Keyword::Unsigned, words) <= 1 - signed
}

fn is_unsigned(words: &[Keyword]) -> bool
    ensures { result ≡ is_unsigned words.now }
{
    count_of(Keyword::Unsigned, words) != 0
}

fn by_sign(words: &[Keyword], signed: Basic, unsigned: Basic) -> Form
    ensures { view_form result ≡ by_sign words.now signed unsigned }
{
    if is_unsigned(words) {
        Form::Basic(unsigned)
    } else {
        Form::Basic(signed)
    }
}

// `char`, by itself or with a sign.
fn char_form(words: &[Keyword]) -> Form
    ensures { view_form result ≡ char_form words.now }
{
    if count_of(Keyword::Signed, words) == 1 {
        return Form::Basic(Basic::SignedChar);
    }
    if is_unsigned(words) {
        Form::Basic(Basic::UnsignedChar)
    } else {
        Form::Basic(Basic::Char)
    }
}

// Whether none of the words is `void`, `_Bool` or `char`.
fn none_alone(words: &[Keyword]) -> bool
    ensures { result ≡ (alone_count words.now == 0) }
{
    if count_of(Keyword::Void, words) != 0 {
        return false;
    }
    if count_of(Keyword::Bool, words) != 0 {
        return false;
    }
    count_of(Keyword::Char, words) == 0
}

// Whether one word is left beside the signs.
fn one_beside_signs(words: &[Keyword]) -> bool
    ensures { result ≡ (length words.now == 1 + sign_count words.now) }
{
    let signed = count_of(Keyword::Signed, words);
    if words.len() <= signed {
        return false;
    }
    words.len() - signed - 1 == count_of(Keyword::Unsigned, words)
}

fn alone_form(words: &[Keyword]) -> Option<Form>
    ensures { option_map view_form result ≡ alone_form words.now }
{
    if count_of(Keyword::Char, words) == 1 {
        return form_of_char(words);
    }
    if words.len() != 1 {
        return None;
    }
    if count_of(Keyword::Void, words) == 1 {
        Some(Form::Void)
    } else {
        Some(Form::Basic(Basic::Truth))
    }
}

fn form_of_char(words: &[Keyword]) -> Option<Form>
    ensures { option_map view_form result ≡ form_of_char words.now }
{
    if one_sign(words) && one_beside_signs(words) {
        Some(char_form(words))
    } else {
        None
    }
}

// `short`, `long` and `long long`, with `int` or without.
fn integer_form(words: &[Keyword]) -> Form
    ensures { view_form result ≡ integer_form words.now }
{
    if count_of(Keyword::Short, words) == 1 {
        return by_sign(words, Basic::Short, Basic::UnsignedShort);
    }
    let long = count_of(Keyword::Long, words);
    if long == 1 {
        return by_sign(words, Basic::Long, Basic::UnsignedLong);
    }
    if long == 2 {
        return by_sign(words, Basic::LongLong, Basic::UnsignedLongLong);
    }
    by_sign(words, Basic::Int, Basic::Unsigned)
}

// One of `short`, `long` and `long long`.
fn one_size(words: &[Keyword]) -> bool
    ensures { result ≡ one_size words.now }
{
    let long = count_of(Keyword::Long, words);
    if at_most_once(Keyword::Short, words) && long == 0 {
        return true;
    }
    long <= 2 && count_of(Keyword::Short, words) == 0
}

// How many of so many are left without a part of them.
fn rest_of(whole: usize, part: usize) -> Option<usize>
    ensures { result ≡ rest_of whole part }
{
    if part <= whole {
        Some(whole - part)
    } else {
        None
    }
}

// How many words are left without the signs and `short`.
fn unsized_count(words: &[Keyword]) -> Option<usize>
    ensures { result ≡ unsized_count words.now }
{
    let unsigned = rest_of(words.len(), count_of(Keyword::Signed, words))?;
    let plain = rest_of(unsigned, count_of(Keyword::Unsigned, words))?;
    rest_of(plain, count_of(Keyword::Short, words))
}

// Whether all words are of the integer types.
fn all_integer(words: &[Keyword]) -> bool
    ensures { result ≡ (length words.now == integer_count words.now) }
{
    let Some(plain) = unsized_count(words) else {
        return false;
    };
    let Some(rest) = rest_of(plain, count_of(Keyword::Long, words)) else {
        return false;
    };
    rest == count_of(Keyword::Int, words)
}

fn is_sized(words: &[Keyword]) -> bool
    ensures { result ≡ is_sized words.now }
{
    if !one_sign(words) {
        return false;
    }
    if !one_size(words) {
        return false;
    }
    at_most_once(Keyword::Int, words) && all_integer(words)
}

fn sized_form(words: &[Keyword]) -> Option<Form>
    ensures { option_map view_form result ≡ sized_form words.now }
{
    if is_sized(words) {
        Some(integer_form(words))
    } else {
        None
    }
}

// The type that keywords give, where they are a list of those that the standard allows.
pub(crate) fn form_of_words(words: &[Keyword]) -> Option<Form>
    ensures { option_map view_form result ≡ form_of_words words.now }
{
    if words.is_empty() {
        return None;
    }
    if none_alone(words) {
        sized_form(words)
    } else {
        alone_form(words)
    }
}
