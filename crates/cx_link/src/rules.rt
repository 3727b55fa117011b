//! The rules over the mentions of all units.

ghost use Rattle.std.specs.Prelude.{◌≡◌, ◌&&◌, ◌||◌, not, true, map, if◌then◌else◌, codes, bytes_eq, drop, length, IfOk, slice_get};
ghost use Rattle.std.specs.List.{list_any};
ghost use Rattle.cx_core.specs.Linked.{is_external};
ghost use Rattle.cx_core.specs.Trees.{form_of_type};
ghost use Rattle.cx_core.specs.Views.{view_does, view_mention, view_type, view_types};
ghost use Rattle.cx_externals.specs.Functions.{is_external_type, is_main_form, is_opaque_trailing};
ghost use Rattle.cx_link.specs.Chains.{IsChain, Links, kind_of, relates, wanted};
ghost use Rattle.cx_links.specs.Rules.{clashing_declaration, compatible_in, first_in, is_defined, is_defined_there, is_kind_of, is_other_use, is_use, outside_profile, refusal_of, rule_of, second_definition, trailing_in, undefined_thing, wrong_main};
ghost use Rattle.cx_rules.specs.Types.{is_function};

use crate::chain::{Chain, Kind, chain_of, is_declaration, is_definition, is_external};
use cr_base::{Memory, Refusal, Rule};
use cx_core::{Does, Mention, Ty, TyForm, Types, compatible};
use cx_externals::{is_external_type, is_main_type, is_opaque_trailing};
use std::alloc::Global;

/// The mentions that the rules look for, by their names.
#[derive(Drop)]
pub(crate) struct Chains {
    pub(crate) declarations: Chain,
    pub(crate) definitions: Chain,
    pub(crate) statics: Chain,
}

/// How another mention of a name has to stand to one so that a rule speaks of it.
#[derive(Clone, Copy)]
pub(crate) enum Relation {
    /// A definition in an earlier unit.
    DefinedBefore,
    /// A declaration in an earlier unit, of a type that isn't compatible.
    Clashes,
    /// The definition of a static function in the same unit.
    DefinedThere,
}

fn chains_of(alloc: Global, all: &[Mention]) -> Result<Chains, Memory>
    ensures { IfOk result (λ chains. Links chains (map view_mention all.now)) }
{
    let declarations = chain_of(alloc, Kind::Declaration, all)?;
    let definitions = chain_of(alloc, Kind::Definition, all)?;
    let statics = chain_of(alloc, Kind::StaticDefinition, all)?;
    Ok(Chains {
        declarations,
        definitions,
        statics,
    })
}

// Whether two types clash (ISO C99, 6.2.7).
fn are_incompatible(alloc: Global, types: &Types, first: &Ty, second: &Ty) -> Result<bool, Memory>
    ensures { IfOk result (λ found. found ≡ not (compatible_in (view_types types.now) (view_type first.now) (view_type second.now))) }
{
    Ok(!compatible(alloc, first, second, types)?)
}

fn relates(
    alloc: Global,
    types: &Types,
    relation: Relation,
    one: &Mention,
    other: &Mention,
) -> Result<bool, Memory>
    ensures { IfOk result (λ found. found ≡ relates (view_types types.now) relation (view_mention one.now) (view_mention other.now)) }
{
    match relation {
        Relation::DefinedBefore => Ok(other.place.unit < one.place.unit),
        Relation::Clashes => {
            if other.place.unit < one.place.unit {
                are_incompatible(alloc, types, &one.ty, &other.ty)
            } else {
                Ok(false)
            }
        }
        Relation::DefinedThere => Ok(other.place.unit == one.place.unit),
    }
}

// Whether some mention of a kind that has the name of another stands so to it.
fn some_relates(
    alloc: Global,
    types: &Types,
    all: &[Mention],
    chain: &Chain,
    relation: Relation,
    one: &Mention,
) -> Result<bool, Memory>
    requires { IsChain chain.now (kind_of (wanted relation)) (map view_mention all.now) }
    ensures { IfOk result (λ found. found ≡ list_any (λ other. is_kind_of (kind_of (wanted relation)) (view_mention one.now).name other
        && relates (view_types types.now) relation (view_mention one.now) other) (map view_mention all.now)) }
{
    let mut at = chain.last_of(one.name.bytes());
    while let Some(index) = at {
        if relates(alloc, types, relation, one, &all[index])? {
            return Ok(true);
        }
        at = chain.before(index);
    }
    Ok(false)
}

fn is_second_definition(
    alloc: Global,
    types: &Types,
    all: &[Mention],
    chains: &Chains,
    one: &Mention,
) -> Result<bool, Memory>
    requires { Links chains.now (map view_mention all.now) }
    ensures { IfOk result (λ found. found ≡ second_definition (view_types types.now) (map view_mention all.now) (view_mention one.now)) }
{
    if !(is_external(one.linkage) && is_definition(&one.does)) {
        return Ok(false);
    }
    some_relates(
        alloc,
        types,
        all,
        &chains.definitions,
        Relation::DefinedBefore,
        one,
    )
}

fn is_clashing_declaration(
    alloc: Global,
    types: &Types,
    all: &[Mention],
    chains: &Chains,
    one: &Mention,
) -> Result<bool, Memory>
    requires { Links chains.now (map view_mention all.now) }
    ensures { IfOk result (λ found. found ≡ clashing_declaration (view_types types.now) (map view_mention all.now) (view_mention one.now)) }
{
    if !(is_external(one.linkage) && is_declaration(&one.does)) {
        return Ok(false);
    }
    some_relates(
        alloc,
        types,
        all,
        &chains.declarations,
        Relation::Clashes,
        one,
    )
}

fn is_wrong_main(types: &Types, all: &[Mention], one: &Mention) -> bool
    ensures { result ≡ wrong_main (view_types types.now) (map view_mention all.now) (view_mention one.now) }
{
    is_external(one.linkage)
        && is_declaration(&one.does)
        && one.name.bytes() == b"main".as_slice()
        && !is_main_type(&one.ty)
}

fn is_use(does: &Does) -> bool
    ensures { result ≡ is_use (view_does does.now) }
{
    !is_declaration(does)
}

fn is_other_use(does: &Does) -> bool
    ensures { result ≡ is_other_use (view_does does.now) }
{
    matches!(does, Does::Uses)
}

fn some_not_opaque(types: &Types, trailing: &[Ty]) -> bool
    ensures { result ≡ list_any (λ type. not (is_opaque_trailing (view_types types.now) type)) (map view_type trailing.now) }
{
    for ty in trailing {
        if !is_opaque_trailing(types, ty) {
            return true;
        }
    }
    false
}

fn has_wrong_trailing(types: &Types, does: &Does) -> bool
    ensures { result ≡ list_any (λ type. not (is_opaque_trailing (view_types types.now) type)) (trailing_in (view_does does.now)) }
{
    match does {
        Does::Calls(trailing) => some_not_opaque(types, trailing.as_slice()),
        Does::Declares | Does::Defines | Does::Uses => false,
    }
}

fn is_function(ty: &Ty) -> bool
    ensures { result ≡ is_function (view_type ty.now) }
{
    matches!(ty.form, TyForm::Function(_))
}

fn is_defined(all: &[Mention], chains: &Chains, one: &Mention) -> bool
    requires { Links chains.now (map view_mention all.now) }
    ensures { result ≡ is_defined (map view_mention all.now) (view_mention one.now) }
{
    chains.definitions.last_of(one.name.bytes()).is_some()
}

fn is_outside_profile(types: &Types, all: &[Mention], chains: &Chains, one: &Mention) -> bool
    requires { Links chains.now (map view_mention all.now) }
    ensures { result ≡ outside_profile (view_types types.now) (map view_mention all.now) (view_mention one.now) }
{
    is_external(one.linkage)
        && is_function(&one.ty)
        && !is_defined(all, chains, one)
        && (is_other_use(&one.does)
            || !is_external_type(types, one.name.bytes(), &one.ty)
            || has_wrong_trailing(types, &one.does))
}

fn is_undefined(
    alloc: Global,
    types: &Types,
    all: &[Mention],
    chains: &Chains,
    one: &Mention,
) -> Result<bool, Memory>
    requires { Links chains.now (map view_mention all.now) }
    ensures { IfOk result (λ found. found ≡ undefined_thing (view_types types.now) (map view_mention all.now) (view_mention one.now)) }
{
    if !is_use(&one.does) {
        return Ok(false);
    }
    if is_external(one.linkage) {
        return Ok(!is_function(&one.ty) && !is_defined(all, chains, one));
    }
    Ok(!some_relates(
        alloc,
        types,
        all,
        &chains.statics,
        Relation::DefinedThere,
        one,
    )?)
}

// The least rule that a mention breaks.
#[tactic(auto, unfolding(cx_links::specs::Rules::rule_of))]
fn rule_of(
    alloc: Global,
    types: &Types,
    all: &[Mention],
    chains: &Chains,
    one: &Mention,
) -> Result<Option<Rule>, Memory>
    requires { Links chains.now (map view_mention all.now) }
    ensures { IfOk result (λ found. found ≡ rule_of (view_types types.now) (map view_mention all.now) (view_mention one.now)) }
{
    if is_second_definition(alloc, types, all, chains, one)? {
        return Ok(Some(Rule::L1));
    }
    if is_clashing_declaration(alloc, types, all, chains, one)? {
        return Ok(Some(Rule::L2));
    }
    if is_wrong_main(types, all, one) {
        return Ok(Some(Rule::L3));
    }
    if is_outside_profile(types, all, chains, one) {
        return Ok(Some(Rule::L4));
    }
    if is_undefined(alloc, types, all, chains, one)? {
        return Ok(Some(Rule::L5));
    }
    Ok(None)
}

/// The first mention that breaks a rule. Refused only for want of memory.
#[tactic(auto, unfolding(cx_links::specs::Rules::first_in))]
pub(crate) fn first_broken(
    alloc: Global,
    types: &Types,
    all: &[Mention],
) -> Result<Option<Refusal>, Memory>
    ensures { IfOk result (λ found. found ≡ first_in (view_types types.now) (map view_mention all.now) (map view_mention all.now)) }
{
    let chains = chains_of(alloc, all)?;
    for one in all {
        if let Some(rule) = rule_of(alloc, types, all, &chains, one)? {
            return Ok(Some(Refusal {
                rule,
                unit: one.place.unit,
                line: one.place.line,
            }));
        }
    }
    Ok(None)
}
