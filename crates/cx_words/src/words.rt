//! What begins a specifier or a declarator.

ghost use Rattle.std.specs.Prelude.{◌≡◌, not, ◌||◌};
ghost use Rattle.cx_cursor.specs.Sights.{sees_key, sees_mark, shows_mark, sight, sight_behind};
ghost use Rattle.cx_words.specs.Beginnings as beginnings;
ghost use Rattle.cx_lex.specs.declared.token.Keyword.TheVariants.{Else};
ghost use Rattle.cx_lex.specs.declared.token.Punct.TheVariants.{Comma, Ellipsis, LeftBracket, LeftParenthesis, RightBrace};

use crate::form::Form;
use cx_cursor::{Cursor, Sight};
use cx_lex::{Keyword, Punct};
use cx_tree::{is_function_specifier, is_qualifier, is_storage_class, is_type_word};

#[tactic(auto, unfolding(crate::specs::Beginnings::begins_tagged))]
fn begins_tagged(word: Keyword) -> bool
    ensures { result ≡ beginnings.begins_tagged word }
{
    matches!(word, Keyword::Struct | Keyword::Union | Keyword::Enum)
}

#[tactic(auto, unfolding(crate::specs::Beginnings::begins_member_spec))]
fn begins_member_spec(word: Keyword) -> bool
    ensures { result ≡ beginnings.begins_member_spec word }
{
    is_type_word(word) || (is_qualifier(word) || begins_tagged(word))
}

/// Whether a keyword begins a specifier or qualifier: of any declaration where `all`, or else of a member
/// or of a type name (ISO C99, 6.7 and 6.7.2.1).
#[tactic(auto, unfolding(crate::specs::Beginnings::begins_spec))]
pub fn begins_spec(all: bool, word: Keyword) -> bool
    ensures { result ≡ beginnings.begins_spec all word }
{
    begins_member_spec(word) || (all && (is_storage_class(word) || is_function_specifier(word)))
}

/// Whether what stands ahead begins one more specifier; `typed`: a type specifier stands before it.
pub fn shows_spec(all: bool, typed: bool, sight: Sight) -> bool
    ensures { result ≡ beginnings.shows_spec all typed sight }
{
    match sight {
        Sight::Key(word) => begins_spec(all, word),
        Sight::TypeWord => !typed,
        _ => false,
    }
}

fn begins_abstract(sight: Sight) -> bool
    ensures { result ≡ beginnings.begins_abstract sight }
{
    sight.shows_mark(Punct::Star)
        || (sight.shows_mark(Punct::LeftParenthesis) || sight.shows_mark(Punct::LeftBracket))
}

/// Whether what stands ahead begins a declarator that isn't missing.
pub fn begins_declarator(form: Form, sight: Sight) -> bool
    ensures { result ≡ beginnings.begins_declarator form sight }
{
    match form {
        Form::Named => true,
        Form::Abstract => begins_abstract(sight),
        Form::Parameter => sight.shows_word() || begins_abstract(sight),
    }
}

fn begins_params(sight: Sight) -> bool
    ensures { result ≡ beginnings.begins_params sight }
{
    sight.shows_mark(Punct::RightParenthesis) || shows_spec(true, false, sight)
}

/// Whether a parenthesis ahead begins a declarator in parentheses.
pub fn begins_group(form: Form, cursor: &Cursor<'_>) -> bool
    ensures { result ≡ beginnings.begins_group form cursor.now }
{
    match form {
        Form::Named => true,
        _ => !begins_params(cursor.peek_behind()),
    }
}

/// Whether a parenthesis stands ahead, and a type name behind it.
pub fn sees_type(cursor: &Cursor<'_>) -> bool
    ensures { result ≡ beginnings.sees_type cursor.now }
{
    cursor.sees(Punct::LeftParenthesis) && shows_spec(false, false, cursor.peek_behind())
}

/// Whether no further item of a list in braces stands ahead: no comma, or a brace behind it.
pub fn no_further(cursor: &Cursor<'_>) -> bool
    ensures { result ≡ (not (sees_mark Comma cursor.now) || shows_mark RightBrace (sight_behind cursor.now)) }
{
    !cursor.sees(Punct::Comma) || cursor.peek_behind().shows_mark(Punct::RightBrace)
}

/// Whether neither an array nor a function stands ahead.
pub fn no_tail(cursor: &Cursor<'_>) -> bool
    ensures { result ≡ not (sees_mark LeftBracket cursor.now || sees_mark LeftParenthesis cursor.now) }
{
    !cursor.sees(Punct::LeftBracket) && !cursor.sees(Punct::LeftParenthesis)
}

/// Whether no further parameter stands ahead: no comma, or an ellipsis behind it.
pub fn no_param(cursor: &Cursor<'_>) -> bool
    ensures { result ≡ (not (sees_mark Comma cursor.now) || shows_mark Ellipsis (sight_behind cursor.now)) }
{
    !cursor.sees(Punct::Comma) || cursor.peek_behind().shows_mark(Punct::Ellipsis)
}

/// Whether no further specifier stands ahead: of any declaration where `all`, or else of a member or of a type
/// name; `typed`: a type specifier stands before it.
pub fn stops_specs(all: bool, typed: bool, cursor: &Cursor<'_>) -> bool
    ensures { result ≡ not (beginnings.shows_spec all typed (sight cursor.now)) }
{
    !shows_spec(all, typed, cursor.peek())
}

/// Whether no qualifier stands ahead.
pub fn is_no_qualifier(sight: Sight) -> bool
    ensures { result ≡ beginnings.is_no_qualifier sight }
{
    match sight {
        Sight::Key(word) => !is_qualifier(word),
        _ => true,
    }
}

/// Whether a star stands alone in front of a closing bracket.
pub fn sees_star(cursor: &Cursor<'_>) -> bool
    ensures { result ≡ beginnings.sees_star cursor.now }
{
    cursor.sees(Punct::Star) && cursor.peek_behind().shows_mark(Punct::RightBracket)
}

/// Whether it is an identifier that is no typedef name.
pub fn is_plain(sight: Sight) -> bool
    ensures { result ≡ beginnings.is_plain sight }
{
    matches!(sight, Sight::Word)
}

/// Whether a designator stands ahead.
pub fn sees_designator(cursor: &Cursor<'_>) -> bool
    ensures { result ≡ beginnings.sees_designator cursor.now }
{
    cursor.sees(Punct::LeftBracket) || cursor.sees(Punct::Dot)
}

/// Whether a label stands ahead (6.8.1).
pub fn sees_label(cursor: &Cursor<'_>) -> bool
    ensures { result ≡ beginnings.sees_label cursor.now }
{
    cursor.peek().shows_word() && cursor.peek_behind().shows_mark(Punct::Colon)
}

/// Whether a declaration stands ahead.
pub fn sees_decl(cursor: &Cursor<'_>) -> bool
    ensures { result ≡ beginnings.sees_decl cursor.now }
{
    shows_spec(true, false, cursor.peek()) && !sees_label(cursor)
}

/// Whether the second branch of an `if` stands ahead (6.8.4.1).
pub fn sees_else(cursor: &Cursor<'_>) -> bool
    ensures { result ≡ sees_key Else cursor.now }
{
    cursor.sees_key(Keyword::Else)
}
