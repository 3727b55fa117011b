//! Specifiers (ISO C99, 6.7.1 to 6.7.4).

ghost use Rattle.std.specs.Prelude.{◌≡◌, ◌||◌, ℕ, nat_lt, length, not, option_map, IfOk};
ghost use Rattle.std.specs.List.{list_any};
ghost use Rattle.cx_breaks.specs.Placed.{placed};
ghost use Rattle.cx_core.specs.Trees.{CTypes};
ghost use Rattle.cx_core.specs.Views.{view_type};
ghost use Rattle.cx_rules.specs.Nodes.{specs_node};
ghost use Rattle.cx_rules.specs.Rules.{rule_at, misplaced, takes_restrict};
ghost use Rattle.cx_rules.specs.Scope.{CScope};
ghost use Rattle.cx_rules.specs.Shapes.{or_int, same_key, specs_type};
ghost use Rattle.cx_shapes.specs.Views.{view_specs};

use cr_base::{Boxed, Memory, Rule};
use cx_core::{Ty, TyForm};
use cx_kinds::is_object_pointer;
use cx_lex::Keyword;
use cx_rules::SpecsPlace;
use cx_shapes::{Specs, has_word};
use std::alloc::Global;

/// The rule that specifiers break where they stand: O9 where `inline` stands without `static`, K3 where the type specifiers are no
/// list that the standard allows (ISO C99, 6.7.2p2) or `restrict` stands beside another type than a pointer to an object
/// (6.7.3p2), K4 where there are two storage class specifiers or one that may not stand there (6.7.1p2). Refused only for want
/// of memory.
pub fn specs_rule(alloc: Global, place: SpecsPlace, specs: &Specs) -> Result<Option<Rule>, Memory>
    ensures { IfOk result (λ rule. (types : CTypes) (scope : CScope) (line : ℕ) → rule ≡ rule_at (placed types scope line (specs_node place (view_specs specs.now)))) }
{
    let found = specs.specs_type(alloc)?;
    Ok(rule_with(place, specs, &found))
}

// The same, where this is the type that the specifiers give.
#[tactic(auto, using(crate::proofs::PartRules::specifiers))]
fn rule_with(place: SpecsPlace, specs: &Specs, found: &Option<Boxed<Ty>>) -> Option<Rule>
    requires { option_map view_type found.now ≡ specs_type (view_specs specs.now) }
    ensures { (types : CTypes) (scope : CScope) (line : ℕ) → result ≡ rule_at (placed types scope line (specs_node place (view_specs specs.now))) }
{
    if specs.is_inline && !specs.has_storage(Keyword::Static) {
        return Some(Rule::O9);
    }
    if found.is_none() {
        return Some(Rule::K3);
    }
    if specs.is_restrict && !may_restrict(found) {
        return Some(Rule::K3);
    }
    if has_many(specs.storage.as_slice()) {
        return Some(Rule::K4);
    }
    if misplaced(place, specs) {
        return Some(Rule::K4);
    }
    None
}

fn has_many(words: &[Keyword]) -> bool
    ensures { result ≡ nat_lt 1 (length words.now) }
{
    1 < words.len()
}

// Whether `restrict` may stand beside the type.
fn may_restrict(found: &Option<Boxed<Ty>>) -> bool
    ensures { result ≡ takes_restrict (or_int (option_map view_type found.now)) }
{
    match found {
        None => false,
        Some(held) => takes_restrict(held.get()),
    }
}

fn takes_restrict(t: &Ty) -> bool
    ensures { result ≡ takes_restrict (view_type t.now) }
{
    match &t.form {
        TyForm::Array(element, _) => takes_restrict(element.get()),
        TyForm::Pointer(_) => is_object_pointer(t),
        _ => false,
    }
}

fn misplaced(place: SpecsPlace, specs: &Specs) -> bool
    ensures { result ≡ misplaced place (view_specs specs.now) }
{
    let storage = specs.storage.as_slice();
    match place {
        SpecsPlace::File => {
            has_word(Keyword::Auto, storage) || has_word(Keyword::Register, storage)
        }
        SpecsPlace::Definition => has_other(&[Keyword::Extern, Keyword::Static], storage),
        SpecsPlace::ForClause => has_other(&[Keyword::Auto, Keyword::Register], storage),
        SpecsPlace::Parameter => has_other(&[Keyword::Register], storage) || specs.is_inline,
        SpecsPlace::Block | SpecsPlace::Plain => false,
    }
}

// Whether some word isn't one of these.
fn has_other(allowed: &[Keyword], words: &[Keyword]) -> bool
    ensures { result ≡ list_any (λ word. not (list_any (same_key word) allowed.now)) words.now }
{
    for word in words {
        if !has_word(*word, allowed) {
            return true;
        }
    }
    false
}
