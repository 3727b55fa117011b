//! What a type is by its form.

ghost use Rattle.std.specs.Prelude.{◌≡◌, option_map};
ghost use Rattle.cx_core.specs.Trees.{form_of_type};
ghost use Rattle.cx_core.specs.Views.{view_type};
ghost use Rattle.cx_rules.specs.Types.{is_void, is_array, is_function, target_of, record_of, is_character, is_character_form, is_character_array};

use cx_core::{Basic, Ty, TyForm};

/// Whether it is `void` (ISO C99, 6.2.5p19).
pub fn is_void(t: &Ty) -> bool
    ensures { result ≡ is_void (view_type t.now) }
{
    matches!(t.form, TyForm::Void)
}

/// Whether it is an array type (ISO C99, 6.2.5p20).
pub fn is_array(t: &Ty) -> bool
    ensures { result ≡ is_array (view_type t.now) }
{
    matches!(t.form, TyForm::Array(_, _))
}

/// Whether it is a function type (ISO C99, 6.2.5p20).
pub fn is_function(t: &Ty) -> bool
    ensures { result ≡ is_function (view_type t.now) }
{
    matches!(t.form, TyForm::Function(_))
}

/// What a pointer type points to, or None where it is no pointer type (ISO C99, 6.2.5p20).
pub fn target_of(t: &Ty) -> Option<&Ty>
    ensures { option_map (λ to. view_type to.now) result ≡ target_of (view_type t.now) }
{
    match &t.form {
        TyForm::Pointer(to) => Some(to.get()),
        _ => None,
    }
}

/// The number of a structure or union type, or None where it is none (ISO C99, 6.7.2.1).
pub fn record_of(t: &Ty) -> Option<u32>
    ensures { result ≡ record_of (view_type t.now) }
{
    match &t.form {
        TyForm::Record(number) => Some(*number),
        _ => None,
    }
}

fn is_character(which: Basic) -> bool
    ensures { result ≡ is_character which }
{
    matches!(which, Basic::Char | Basic::SignedChar | Basic::UnsignedChar)
}

fn is_character_type(t: &Ty) -> bool
    ensures { result ≡ is_character_form (form_of_type (view_type t.now)) }
{
    match &t.form {
        TyForm::Basic(which) => is_character(*which),
        _ => false,
    }
}

/// Whether it is an array of characters, which a string literal may initialise (ISO C99, 6.7.8p14).
pub fn is_character_array(t: &Ty) -> bool
    ensures { result ≡ is_character_array (form_of_type (view_type t.now)) }
{
    match &t.form {
        TyForm::Array(element, _) => is_character_type(element.get()),
        _ => false,
    }
}
