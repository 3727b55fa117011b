//! Specifiers (ISO C99, 6.7.1 to 6.7.4).

ghost use Rattle.std.specs.Prelude.{◌≡◌, [], ◌∷◌, false, map, IfOk, OnOk, option_map};
ghost use Rattle.cx_core.specs.Trees.{ty};
ghost use Rattle.cx_core.specs.Views.{view_type};
ghost use Rattle.cx_rules.specs.Shapes.{no_specs_yet, with_key, with_type, has_storage, specs_type, base_type, form_of_words, unqualified_of};
ghost use Rattle.cx_shapes.specs.Views.{view_specs, view_form};

use crate::forms::{Form, form_of_words};
use crate::words::has_word;
use cr_base::{Boxed, Items, Memory};
use cx_core::{Basic, Ty, TyForm};
use cx_lex::Keyword;
use cx_types::qualified;
use std::alloc::Global;

/// The specifiers of a declaration, a parameter or a type name (ISO C99, 6.7).
#[derive(Drop)]
pub struct Specs {
    /// The type specifiers that are keywords (6.7.2), in text order.
    pub words: Items<Keyword>,
    /// The types that the other type specifiers name, in text order.
    pub types: Items<Ty>,
    /// The storage class specifiers (6.7.1), in text order.
    pub storage: Items<Keyword>,
    pub is_const: bool,
    pub is_restrict: bool,
    pub is_inline: bool,
}

impl Specs {
    /// No specifiers yet. It takes no memory.
    pub fn new(alloc: Global) -> Specs
        ensures { view_specs result ≡ no_specs_yet }
    {
        Specs {
            words: Items::new(alloc),
            types: Items::new(alloc),
            storage: Items::new(alloc),
            is_const: false,
            is_restrict: false,
            is_inline: false,
        }
    }

    /// One more keyword. Refused only for want of memory.
    pub fn add_key(&mut self, word: Keyword) -> Result<(), Memory>
        ensures { OnOk result (view_specs self.new ≡ with_key word (view_specs self.old)) }
    {
        match word {
            Keyword::Const => {
                self.is_const = true;
                Ok(())
            }
            Keyword::Restrict => {
                self.is_restrict = true;
                Ok(())
            }
            Keyword::Inline => {
                self.is_inline = true;
                Ok(())
            }
            Keyword::Typedef
            | Keyword::Extern
            | Keyword::Static
            | Keyword::Auto
            | Keyword::Register => self.storage.push(word),
            Keyword::Break
            | Keyword::Case
            | Keyword::Char
            | Keyword::Continue
            | Keyword::Default
            | Keyword::Do
            | Keyword::Double
            | Keyword::Else
            | Keyword::Enum
            | Keyword::Float
            | Keyword::For
            | Keyword::Goto
            | Keyword::If
            | Keyword::Int
            | Keyword::Long
            | Keyword::Return
            | Keyword::Short
            | Keyword::Signed
            | Keyword::Sizeof
            | Keyword::Struct
            | Keyword::Switch
            | Keyword::Union
            | Keyword::Unsigned
            | Keyword::Void
            | Keyword::Volatile
            | Keyword::While
            | Keyword::Bool
            | Keyword::Complex
            | Keyword::Imaginary => self.words.push(word),
        }
    }

    /// One more type that a specifier names. Refused only for want of memory.
    pub fn add_type(&mut self, t: Boxed<Ty>) -> Result<(), Memory>
        ensures { OnOk result (view_specs self.new ≡ with_type (view_type t) (view_specs self.old)) }
    {
        self.types.push(t.into_inner())
    }

    /// Whether a storage class specifier is among them.
    pub fn has_storage(&self, word: Keyword) -> bool
        ensures { result ≡ has_storage word (view_specs self.now) }
    {
        has_word(word, self.storage.as_slice())
    }

    /// The type that they give, `int` where they give none (ISO C99, 6.7.2p2). Refused only for want of memory.
    pub fn base_type(&self, alloc: Global) -> Result<Boxed<Ty>, Memory>
        ensures { IfOk result (λ made. view_type made ≡ base_type (view_specs self.now)) }
    {
        match self.specs_type(alloc)? {
            None => Boxed::new(alloc, Ty::basic(Basic::Int)),
            Some(found) => Ok(found),
        }
    }

    /// The type that they give, or None where they are no list that the standard allows (ISO C99, 6.7.2p2). Refused only for
    /// want of memory.
    #[tactic(auto, unfolding(cx_rules::specs::Shapes::specs_type))]
    pub fn specs_type(&self, alloc: Global) -> Result<Option<Boxed<Ty>>, Memory>
        ensures { IfOk result (λ made. option_map view_type made ≡ specs_type (view_specs self.now)) }
    {
        match unqualified_of(alloc, self.types.as_slice(), self.words.as_slice())? {
            None => Ok(None),
            Some(found) => Ok(Some(qualified(alloc, self.is_const, found.get())?)),
        }
    }
}

fn unqualified_of(
    alloc: Global,
    types: &[Ty],
    words: &[Keyword],
) -> Result<Option<Boxed<Ty>>, Memory>
    ensures { IfOk result (λ made. option_map view_type made ≡ unqualified_of (map view_type types.now) words.now) }
{
    match types {
        [] => type_of_words(alloc, words),
        [one] => alone_type(alloc, one, words),
        _ => Ok(None),
    }
}

fn type_of_words(alloc: Global, words: &[Keyword]) -> Result<Option<Boxed<Ty>>, Memory>
    ensures { IfOk result (λ made. option_map view_type made ≡ option_map (λ form. ty form false) (form_of_words words.now)) }
{
    match form_of_words(words) {
        None => Ok(None),
        Some(form) => Ok(Some(plain_type(alloc, form)?)),
    }
}

fn plain_type(alloc: Global, form: Form) -> Result<Boxed<Ty>, Memory>
    ensures { IfOk result (λ made. view_type made ≡ ty (view_form form) false) }
{
    let form = match form {
        Form::Void => TyForm::Void,
        Form::Basic(which) => TyForm::Basic(which),
    };
    Boxed::new(
        alloc,
        Ty {
            form,
            is_const: false,
        },
    )
}

// The type that one specifier names, where it stands by itself.
fn alone_type(alloc: Global, one: &Ty, words: &[Keyword]) -> Result<Option<Boxed<Ty>>, Memory>
    ensures { IfOk result (λ made. option_map view_type made ≡ unqualified_of (view_type one.now ∷ []) words.now) }
{
    if words.is_empty() {
        Ok(Some(one.copy(alloc)?))
    } else {
        Ok(None)
    }
}
