//! What specifiers and declarators say: whether they define a type, and which name they declare.

ghost use Rattle.std.specs.Prelude.{◌≡◌, ◌++◌, map, OnOk};
ghost use Rattle.std.specs.Option.{option_copied};
ghost use Rattle.cx_cursor.specs.Reading.{at};
ghost use Rattle.cx_tree.specs.Names as names;
ghost use Rattle.cx_tree.specs.Valid as valid;
ghost use Rattle.cx_tree.specs.Views.{declarator_view, spec_view, specs as spec_trees};

use cr_base::{Memory, Name};
use cx_cursor::Cursor;
use cx_tree::{Declarator, Spec, is_type_word, is_typedef_word};

/// Whether specifiers hold `typedef`.
pub fn says_typedef(specs: &[Spec]) -> bool
    ensures { result ≡ names.says_typedef (spec_trees (map spec_view specs.now)) }
{
    let mut found = false;
    for spec in specs {
        found = found || is_typedef(spec);
    }
    found
}

fn is_typedef(spec: &Spec) -> bool
    ensures { result ≡ names.is_typedef_specifier (spec_view spec.now) }
{
    match spec {
        Spec::Key { word, .. } => is_typedef_word(*word),
        _ => false,
    }
}

/// The identifier that a declarator declares.
pub fn declared_name(declarator: &Declarator) -> Option<&Name>
    ensures { option_copied result ≡ names.declared_name (declarator_view declarator.now) }
{
    match declarator {
        Declarator::Missing => None,
        Declarator::Identifier { name, .. } => Some(name),
        Declarator::Group { inner, .. } => declared_name(inner.get()),
        Declarator::Pointer { of, .. } => declared_name(of.get()),
        Declarator::Array { of, .. } => declared_name(of.get()),
        Declarator::Function { of, .. } => declared_name(of.get()),
        Declarator::Identifiers { of, .. } => declared_name(of.get()),
    }
}

/// Declares the name of a declarator, where it has one, as the specifiers say. Refused only for want of
/// memory.
pub fn declare(
    cursor: &mut Cursor<'_>,
    specs: &[Spec],
    declarator: &Declarator,
) -> Result<(), Memory>
    ensures { OnOk result (cursor.new ≡ at cursor.old.tokens
        (cursor.old.names ++ names.bound (spec_trees (map spec_view specs.now)) (declarator_view declarator.now))) }
{
    match declared_name(declarator) {
        Some(name) => cursor.declare(name, says_typedef(specs)),
        None => Ok(()),
    }
}

/// Whether a declarator is an identifier, in parentheses or not.
pub fn is_identifier(declarator: &Declarator) -> bool
    ensures { result ≡ names.is_identifier (declarator_view declarator.now) }
{
    match declarator {
        Declarator::Identifier { .. } => true,
        Declarator::Group { inner, .. } => is_identifier(inner.get()),
        _ => false,
    }
}

/// Whether an identifier stands in a declarator.
pub fn has_name(declarator: &Declarator) -> bool
    ensures { result ≡ valid.has_name (declarator_view declarator.now) }
{
    match declarator {
        Declarator::Missing => false,
        Declarator::Identifier { .. } => true,
        Declarator::Group { inner, .. } => has_name(inner.get()),
        Declarator::Pointer { of, .. } => has_name(of.get()),
        Declarator::Array { of, .. } => has_name(of.get()),
        Declarator::Function { of, .. } => has_name(of.get()),
        Declarator::Identifiers { of, .. } => has_name(of.get()),
    }
}

/// Whether it is a type specifier (ISO C99, 6.7.2).
pub fn is_type_spec(spec: &Spec) -> bool
    ensures { result ≡ names.is_type_specifier (spec_view spec.now) }
{
    match spec {
        Spec::Key { word, .. } => is_type_word(*word),
        _ => true,
    }
}
