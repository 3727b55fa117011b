//! Linkage (ISO C99, 6.2.2).

ghost use Rattle.std.specs.Prelude.{◌≡◌, option_map};
ghost use Rattle.cx_core.specs.Views.{view_type};
ghost use Rattle.cx_entities.specs.Linkage as linkages;
ghost use Rattle.cx_rules.specs.Declare as declare;
ghost use Rattle.cx_scope.specs.Views.{view_meant};
ghost use Rattle.cx_shapes.specs.Views.{view_specs};

use cx_core::{Linkage, Ty};
use cx_kinds::is_function;
use cx_lex::Keyword;
use cx_rules::SpecsPlace;
use cx_scope::Meant;
use cx_shapes::Specs;

/// Whether an identifier has linkage, external or internal (ISO C99, 6.2.2p1).
pub fn is_linked(linkage: Linkage) -> bool
    ensures { result ≡ declare.is_linked linkage }
{
    match linkage {
        Linkage::External | Linkage::Internal => true,
        Linkage::Nothing => false,
    }
}

/// Whether linkage is external (ISO C99, 6.2.2p2).
pub fn is_external(linkage: Linkage) -> bool
    ensures { result ≡ linkages.is_external linkage }
{
    match linkage {
        Linkage::External => true,
        Linkage::Internal | Linkage::Nothing => false,
    }
}

fn is_internal(linkage: Linkage) -> bool
    ensures { result ≡ linkages.is_internal linkage }
{
    match linkage {
        Linkage::Internal => true,
        Linkage::External | Linkage::Nothing => false,
    }
}

// Whether two linkages are the same.
pub(crate) fn same_linkage(one: Linkage, other: Linkage) -> bool
    ensures { result ≡ declare.same_linkage one other }
{
    match one {
        Linkage::External => is_external(other),
        Linkage::Internal => is_internal(other),
        Linkage::Nothing => !is_linked(other),
    }
}

/// Whether specifiers declare a typedef name (ISO C99, 6.7.7).
pub fn is_typedef(specs: &Specs) -> bool
    ensures { result ≡ declare.is_typedef (view_specs specs.now) }
{
    specs.has_storage(Keyword::Typedef)
}

/// Whether a declaration stands outside of functions (ISO C99, 6.9p1).
pub fn is_outside(place: SpecsPlace) -> bool
    ensures { result ≡ declare.is_outside place }
{
    match place {
        SpecsPlace::File | SpecsPlace::Definition => true,
        SpecsPlace::Block | SpecsPlace::ForClause | SpecsPlace::Parameter | SpecsPlace::Plain =>
            false,
    }
}

/// Whether an object lives as long as the program: it has linkage, or is declared `static` (ISO C99, 6.2.4p3).
pub fn lives_on(linkage: Linkage, specs: &Specs) -> bool
    ensures { result ≡ linkages.lives_on linkage (view_specs specs.now) }
{
    is_linked(linkage) || specs.has_storage(Keyword::Static)
}

fn or_external(linkage: Linkage) -> Linkage
    ensures { result ≡ linkages.or_external linkage }
{
    match linkage {
        Linkage::External | Linkage::Nothing => Linkage::External,
        Linkage::Internal => Linkage::Internal,
    }
}

// The linkage that the visible declaration of a name gave it.
fn linkage_before(before: Option<&Meant>) -> Linkage
    ensures { result ≡ linkages.linkage_before (option_map (λ one. view_meant one.now) before.entry) }
{
    match before {
        None => Linkage::Nothing,
        Some(Meant::Object { linkage, .. }) => *linkage,
        Some(Meant::Function { linkage, .. }) => *linkage,
        Some(Meant::TypeName(_)) => Linkage::Nothing,
        Some(Meant::Enumerator(_)) => Linkage::Nothing,
        Some(Meant::Tag { .. }) => Linkage::Nothing,
    }
}

/// The linkage of a declared identifier, by what its name meant before (ISO C99, 6.2.2p3 to p6).
#[tactic(auto, unfolding(cx_rules::specs::Declare::linkage_of))]
pub fn linkage_of(place: SpecsPlace, specs: &Specs, t: &Ty, before: Option<&Meant>) -> Linkage
    ensures { result ≡ declare.linkage_of place (view_specs specs.now) (view_type t.now) (option_map (λ one. view_meant one.now) before.entry) }
{
    if is_typedef(specs) {
        return Linkage::Nothing;
    }
    if is_outside(place) && specs.has_storage(Keyword::Static) {
        return Linkage::Internal;
    }
    if specs.has_storage(Keyword::Extern) || is_function(t) {
        return or_external(linkage_before(before));
    }
    if is_outside(place) {
        return Linkage::External;
    }
    Linkage::Nothing
}
