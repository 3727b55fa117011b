//! Tags of structures, unions and enumerations (ISO C99, 6.7.2.1 to 6.7.2.3).

ghost use Rattle.std.specs.Prelude.{◌≡◌, ◌||◌, ℕ, map, option_map, is_some, slice_get};
ghost use Rattle.std.specs.List.{list_any};
ghost use Rattle.cx_breaks.specs.Placed.{placed};
ghost use Rattle.cx_core.specs.Trees.{CTypes};
ghost use Rattle.cx_core.specs.Views.{view_member, view_types};
ghost use Rattle.cx_rules.specs.Nodes.{record_use_node, record_node, enum_use_node, enum_node};
ghost use Rattle.cx_rules.specs.Rules.{rule_at, has_members, is_completed, is_other_kind, is_other_record, not_there, record_too_large, tag_is};
ghost use Rattle.cx_rules.specs.Scope.{CScope};
ghost use Rattle.cx_scope.specs.Views.{view_tag};

use cr_base::Rule;
use cx_core::{Member, Types};
use cx_kinds::record_at;
use cx_scope::Tag;

/// The rule that a structure or union without a list breaks, where its tag means this: K24 where that is another kind of type
/// (ISO C99, 6.7.2.3p1).
#[tactic(auto, using(crate::proofs::PartRules::record_use))]
pub fn record_use_rule(types: &Types, is_union: bool, found: Option<Tag>) -> Option<Rule>
    ensures { (scope : CScope) (line : ℕ) → result ≡ rule_at (placed (view_types types.now) scope line (record_use_node is_union (option_map view_tag found))) }
{
    if is_other(types, is_union, found) {
        Some(Rule::K24)
    } else {
        None
    }
}

fn is_other(types: &Types, is_union: bool, found: Option<Tag>) -> bool
    ensures { result ≡ tag_is (is_other_kind (view_types types.now) is_union) (option_map view_tag found) }
{
    match found {
        None => false,
        Some(one) => is_other_kind(types, is_union, one),
    }
}

// Whether it is the tag of another kind of type.
fn is_other_kind(types: &Types, is_union: bool, one: Tag) -> bool
    ensures { result ≡ is_other_kind (view_types types.now) is_union (view_tag one) }
{
    !one.is_record || is_other_record(types, is_union, one.number)
}

fn is_other_record(types: &Types, is_union: bool, number: u32) -> bool
    ensures { result ≡ is_other_record is_union (slice_get (view_types types.now).record_tags number) }
{
    match types.record_tags.get(number as usize) {
        None => true,
        Some(one) => one.is_union != is_union,
    }
}

/// The rule that a list of members breaks once it has ended, for the structure or union with a number, where its tag meant
/// this in the same scope: K8 where no member has a name (ISO C99, 6.7.2.1p7), K24 where the type has a list already (6.7.2.3p1)
/// or the tag is that of another kind of type, M3 where it is said to be too large.
#[tactic(auto, using(crate::proofs::PartRules::record_list))]
pub fn record_rule(
    types: &Types,
    is_union: bool,
    found: Option<Tag>,
    number: u32,
    members: &[Member],
    too_large: bool,
) -> Option<Rule>
    ensures { (scope : CScope) (line : ℕ) → record_too_large (view_types types.now) is_union number (map view_member members.now) ≡ too_large
        → result ≡ rule_at (placed (view_types types.now) scope line (record_node is_union (option_map view_tag found) number (map view_member members.now))) }
{
    if !has_named(members) {
        return Some(Rule::K8);
    }
    if has_members(types, number) {
        return Some(Rule::K24);
    }
    if is_declared(types, is_union, found) {
        return Some(Rule::K24);
    }
    if too_large {
        return Some(Rule::M3);
    }
    None
}

fn has_named(members: &[Member]) -> bool
    ensures { result ≡ list_any (λ one. is_some one.name) (map view_member members.now) }
{
    for one in members {
        if one.name.is_some() {
            return true;
        }
    }
    false
}

fn has_members(types: &Types, number: u32) -> bool
    ensures { result ≡ has_members (view_types types.now) number }
{
    record_at(types, number).is_some()
}

fn is_declared(types: &Types, is_union: bool, found: Option<Tag>) -> bool
    ensures { result ≡ tag_is (λ one. is_other_kind (view_types types.now) is_union one || is_completed (view_types types.now) one) (option_map view_tag found) }
{
    match found {
        None => false,
        Some(one) => is_other_kind(types, is_union, one) || has_members(types, one.number),
    }
}

/// The rule that an enumeration without a list breaks, where its tag means this: K24 where that isn't an enumeration whose
/// list has ended (ISO C99, 6.7.2.3p2).
#[tactic(auto, using(crate::proofs::PartRules::enum_use))]
pub fn enum_use_rule(found: Option<Tag>) -> Option<Rule>
    ensures { (types : CTypes) (scope : CScope) (line : ℕ) → result ≡ rule_at (placed types scope line (enum_use_node (option_map view_tag found))) }
{
    if not_there(found) {
        Some(Rule::K24)
    } else {
        None
    }
}

fn not_there(found: Option<Tag>) -> bool
    ensures { result ≡ not_there (option_map view_tag found) }
{
    match found {
        None => true,
        Some(one) => one.is_record || one.is_open,
    }
}

/// The rule that a list of enumerators breaks once it has ended, where its tag meant this in the same scope: K24 where it meant
/// anything (ISO C99, 6.7.2.3p1).
#[tactic(auto, using(crate::proofs::PartRules::enum_list))]
pub fn enum_rule(found: Option<Tag>) -> Option<Rule>
    ensures { (types : CTypes) (scope : CScope) (line : ℕ) → result ≡ rule_at (placed types scope line (enum_node (option_map view_tag found))) }
{
    if found.is_some() {
        Some(Rule::K24)
    } else {
        None
    }
}
