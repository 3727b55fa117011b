//! Declarations, and heads of function definitions (ISO C99, 6.7 and 6.9).

ghost use Rattle.std.specs.Prelude.{◌≡◌, ◌&&◌, ◌||◌, Bool, false, ℕ, Some, map, not, reverse};
ghost use Rattle.std.specs.List.{list_any};
ghost use Rattle.cx_breaks.specs.Placed.{placed};
ghost use Rattle.cx_core.specs.Trees.{CTypes, form_of_type};
ghost use Rattle.cx_core.specs.Views.{types_of, view_function_type, view_params, view_type};
ghost use Rattle.cx_kinds.specs.Known.{IsKnown, types_in};
ghost use Rattle.cx_rules.specs.Nodes.{declares_node, empty_node, head_node, tentative_node};
ghost use Rattle.cx_rules.specs.Rules.{rule_at, any_incomplete, declares_typedef, is_function_step, is_plain_void, is_unlinked, is_variadic, misplaced_function, params_incomplete, parts_incomplete, result_incomplete};
ghost use Rattle.cx_rules.specs.Scope.{CScope};
ghost use Rattle.cx_rules.specs.Shapes.{last_step, same_key};
ghost use Rattle.cx_rules.specs.Types.{is_function, is_incomplete};
ghost use Rattle.cx_shapes.specs.Views.{view_specs, view_step};
ghost use Rattle.cx_stmt_breaks.specs.Declarations.{lacks_size};

use cr_base::Rule;
use cx_core::{FunctionTy, Linkage, Params, Ty, TyForm};
use cx_kinds::{Known, is_array, is_function, is_incomplete, is_too_large, is_void};
use cx_lex::Keyword;
use cx_rules::SpecsPlace;
use cx_shapes::{Specs, Step, same_key};

/// The rule that a declarator of a declaration breaks, behind its initialiser, with the type and the linkage that it has then and
/// whether another declaration stood in its way: K2 where one did, K4 where `inline` or a storage class doesn't go with it (ISO C99,
/// 6.7.1p5, 6.7.4p1), K5 where an object without linkage is of incomplete type (6.7p7), M3 where the type is too large.
#[tactic(auto, using(crate::proofs::DeclRules::declares))]
pub fn declares_rule(
    known: Known,
    place: SpecsPlace,
    specs: &Specs,
    t: &Ty,
    linkage: Linkage,
    clashes: bool,
) -> Option<Rule>
    requires { IsKnown known }
    ensures { (scope : CScope) (line : ℕ) (has_init : Bool) → result ≡ rule_at (placed (types_in known.entry) scope line
        (declares_node (record { where_stands = place; specs = view_specs specs.now; type = view_type t.now; linkage = linkage; clashes = clashes; has_init = has_init }))) }
{
    if clashes {
        return Some(Rule::K2);
    }
    if specs.is_inline && !declares_function(specs, t) {
        return Some(Rule::K4);
    }
    if declares_function(specs, t) && misplaced_function(place, specs) {
        return Some(Rule::K4);
    }
    if lacks_size(known, specs, t, linkage) {
        return Some(Rule::K5);
    }
    if is_too_large(known, t) {
        return Some(Rule::M3);
    }
    None
}

fn declares_typedef(specs: &Specs) -> bool
    ensures { result ≡ declares_typedef (view_specs specs.now) }
{
    specs.has_storage(Keyword::Typedef)
}

fn declares_function(specs: &Specs, t: &Ty) -> bool
    ensures { result ≡ (is_function (view_type t.now) && not (declares_typedef (view_specs specs.now))) }
{
    is_function(t) && !declares_typedef(specs)
}

fn misplaced_function(place: SpecsPlace, specs: &Specs) -> bool
    ensures { result ≡ misplaced_function place (view_specs specs.now) }
{
    match place {
        SpecsPlace::Block => has_other(Keyword::Extern, specs.storage.as_slice()),
        SpecsPlace::ForClause => true,
        SpecsPlace::File | SpecsPlace::Definition | SpecsPlace::Parameter | SpecsPlace::Plain =>
            false,
    }
}

// Whether some word isn't this one.
#[tactic(auto, using(crate::proofs::Opened::or_false))]
fn has_other(allowed: Keyword, words: &[Keyword]) -> bool
    ensures { result ≡ list_any (λ word. not (same_key word allowed || false)) words.now }
{
    for word in words {
        if !same_key(*word, allowed) {
            return true;
        }
    }
    false
}

// Whether an object without linkage has no size (ISO C99, 6.7p7).
fn lacks_size(known: Known, specs: &Specs, t: &Ty, linkage: Linkage) -> bool
    requires { IsKnown known }
    ensures { result ≡ lacks_size (types_in known.entry) (view_specs specs.now) (view_type t.now) linkage }
{
    if declares_typedef(specs) {
        return false;
    }
    is_unlinked(linkage) && is_incomplete(known, t)
}

fn is_unlinked(linkage: Linkage) -> bool
    ensures { result ≡ is_unlinked linkage }
{
    match linkage {
        Linkage::Nothing => true,
        Linkage::External | Linkage::Internal => false,
    }
}

/// The rule that a declaration without declarators breaks: K4 where `inline` stands in it (ISO C99, 6.7.4p1).
#[tactic(auto, using(crate::proofs::DeclRules::empty))]
pub fn empty_rule(specs: &Specs) -> Option<Rule>
    ensures { (types : CTypes) (scope : CScope) (line : ℕ) → result ≡ rule_at (placed types scope line (empty_node (view_specs specs.now))) }
{
    if specs.is_inline {
        Some(Rule::K4)
    } else {
        None
    }
}

/// The rule that a tentative definition breaks at the end of its unit: K5 where the type is incomplete, and no array (ISO C99,
/// 6.9.2p2, p3).
#[tactic(auto, using(crate::proofs::DeclRules::tentative))]
pub fn tentative_rule(known: Known, t: &Ty) -> Option<Rule>
    requires { IsKnown known }
    ensures { (scope : CScope) (line : ℕ) → result ≡ rule_at (placed (types_in known.entry) scope line (tentative_node (view_type t.now))) }
{
    if !is_array(t) && is_incomplete(known, t) {
        return Some(Rule::K5);
    }
    None
}

/// The rule that the head of a function definition breaks, with the type that it has, the steps of its declarator (the first one
/// last) and whether another declaration stood in its way: O5 where further arguments may follow, K2 where one did, K4 where
/// `inline` stands beside what is no function, K5 where its result or a parameter is of incomplete type (ISO C99, 6.9.1p3,
/// 6.7.5.3p4), K7 where its declarator isn't that of a function (6.9.1p2).
#[tactic(auto, using(crate::proofs::DeclRules::head))]
pub fn head_rule(known: Known, specs: &Specs, t: &Ty, steps: &[Step], clashes: bool) -> Option<Rule>
    requires { IsKnown known }
    ensures { (scope : CScope) (line : ℕ) → result ≡ rule_at (placed (types_in known.entry) scope line
        (head_node (record { specs = view_specs specs.now; type = view_type t.now; steps = reverse (map view_step steps.now); clashes = clashes }))) }
{
    if is_variadic(t) {
        return Some(Rule::O5);
    }
    if clashes {
        return Some(Rule::K2);
    }
    if specs.is_inline && !is_function(t) {
        return Some(Rule::K4);
    }
    if parts_incomplete(known, t) {
        return Some(Rule::K5);
    }
    if !is_function_declarator(steps) {
        return Some(Rule::K7);
    }
    None
}

#[tactic(auto, using(crate::proofs::Opened::function_view))]
fn is_variadic(t: &Ty) -> bool
    ensures { result ≡ is_variadic (form_of_type (view_type t.now)) }
{
    match &t.form {
        TyForm::Function(held) => held.get().is_variadic,
        _ => false,
    }
}

fn parts_incomplete(known: Known, t: &Ty) -> bool
    requires { IsKnown known }
    ensures { result ≡ parts_incomplete (types_in known.entry) (form_of_type (view_type t.now)) }
{
    match &t.form {
        TyForm::Function(held) => function_incomplete(known, held.get()),
        _ => false,
    }
}

#[tactic(auto, using(crate::proofs::Opened::function_view))]
fn function_incomplete(known: Known, one: &FunctionTy) -> bool
    requires { IsKnown known }
    ensures { result ≡ parts_incomplete (types_in known.entry) (view_function_type one.now) }
{
    result_incomplete(known, &one.result_ty) || params_incomplete(known, &one.params)
}

// Whether a type is the unqualified `void` (ISO C99, 6.9.1p3).
fn is_plain_void(t: &Ty) -> bool
    ensures { result ≡ is_plain_void (view_type t.now) }
{
    is_void(t) && !t.is_const
}

fn result_incomplete(known: Known, result_ty: &Ty) -> bool
    requires { IsKnown known }
    ensures { result ≡ result_incomplete (types_in known.entry) (view_type result_ty.now) }
{
    !is_plain_void(result_ty) && is_incomplete(known, result_ty)
}

fn params_incomplete(known: Known, params: &Params) -> bool
    requires { IsKnown known }
    ensures { result ≡ params_incomplete (types_in known.entry) (view_params params.now) }
{
    match params {
        Params::Unlisted => false,
        Params::Listed(list) => any_incomplete(known, list.as_slice()),
    }
}

#[tactic(auto, using(crate::proofs::Opened::incomplete_by_list))]
fn any_incomplete(known: Known, list: &[Ty]) -> bool
    requires { IsKnown known }
    ensures { result ≡ any_incomplete (types_in known.entry) (types_of (map view_type list.now)) }
{
    some_incomplete(known, list)
}

fn some_incomplete(known: Known, list: &[Ty]) -> bool
    requires { IsKnown known }
    ensures { result ≡ list_any (is_incomplete (types_in known.entry)) (map view_type list.now) }
{
    for t in list {
        if is_incomplete(known, t) {
            return true;
        }
    }
    false
}

// Whether the last step, which stands first, is that to a function.
#[tactic(auto, using(crate::proofs::Opened::first_is_last))]
fn is_function_declarator(steps: &[Step]) -> bool
    ensures { result ≡ is_function_step (last_step (reverse (map view_step steps.now))) }
{
    match steps.split_first() {
        None => false,
        Some((first, _)) => is_function_step(first),
    }
}

fn is_function_step(step: &Step) -> bool
    ensures { result ≡ is_function_step (Some (view_step step.now)) }
{
    match step {
        Step::Function { .. } => true,
        Step::Pointer { .. } => false,
        Step::Array { .. } => false,
    }
}
