//! Elements of arrays, and members (ISO C99, 6.5.2.1 and 6.5.2.3).

ghost use Rattle.std.specs.Prelude.{◌≡◌, ℕ, option_map};
ghost use Rattle.cx_breaks.specs.Placed.{placed};
ghost use Rattle.cx_kinds.specs.Known.{IsKnown, types_in};
ghost use Rattle.cx_operands.specs.Views.{view_operand};
ghost use Rattle.cx_pairs.specs.Members.{view_found};
ghost use Rattle.cx_rules.specs.Nodes.{index_node, dot_node, arrow_node};
ghost use Rattle.cx_rules.specs.Rules.{rule_at, is_moved, is_array_member};
ghost use Rattle.cx_rules.specs.Scope.{CScope};

use crate::asked::{
    is_fixed, is_no_pointee, lacks_behind, lacks_value, member_named, names_object, pairing_taken,
};
use cr_base::Rule;
use cx_core::Op2;
use cx_kinds::{Known, is_array};
use cx_operands::Operand;
use cx_pairs::FoundMember;
use cx_rules::Pairing;

/// The rule that an element of an array breaks: K10 where the operands aren't a pointer and an integer (ISO C99,
/// 6.5.2.1p1), K15 where one is an array that is declared `register`.
#[tactic(auto, using(crate::proofs::NodeRules::index))]
pub fn index_rule(known: Known, of: &Operand, index: &Operand) -> Option<Rule>
    requires { IsKnown known }
    ensures { (scope : CScope) (line : ℕ) → result ≡ rule_at (placed (types_in known.entry) scope line (index_node (view_operand of.now) (view_operand index.now))) }
{
    if lacks_value(known, of) {
        return Some(Rule::K10);
    }
    if lacks_value(known, index) {
        return Some(Rule::K10);
    }
    if !is_moved(pairing_taken(known, Op2::Add, of, index)) {
        return Some(Rule::K10);
    }
    if is_fixed(of) {
        return Some(Rule::K15);
    }
    if is_fixed(index) {
        return Some(Rule::K15);
    }
    None
}

fn is_moved(pairing: Pairing) -> bool
    ensures { result ≡ is_moved pairing }
{
    matches!(pairing, Pairing::PointerInteger | Pairing::IntegerPointer)
}

/// The rule that `.` breaks: O11 where the member is an array of a structure that is no lvalue, K8 where there is no such
/// member (ISO C99, 6.5.2.3p1).
#[tactic(auto, using(crate::proofs::NodeRules::dot))]
pub fn dot_rule(known: Known, of: &Operand, name: &[u8]) -> Option<Rule>
    requires { IsKnown known }
    ensures { (scope : CScope) (line : ℕ) → result ≡ rule_at (placed (types_in known.entry) scope line (dot_node (view_operand of.now) name.now)) }
{
    let found = member_named(known, of, name);
    if !names_object(of) && is_array_member(found) {
        return Some(Rule::O11);
    }
    if !is_no_pointee(of) {
        return Some(Rule::K8);
    }
    if found.is_none() {
        return Some(Rule::K8);
    }
    None
}

fn is_array_member(found: Option<FoundMember<'_>>) -> bool
    ensures { result ≡ is_array_member (option_map (λ one. one.type) (option_map view_found found.entry)) }
{
    match found {
        None => false,
        Some(one) => is_array(one.ty),
    }
}

/// The rule that `->` breaks: K8 where the operand is no pointer to a structure or union with such a member (ISO C99,
/// 6.5.2.3p2), K10 where it has no value, K15 where it is an array that is declared `register`.
#[tactic(auto, using(crate::proofs::NodeRules::arrow))]
pub fn arrow_rule(known: Known, of: &Operand, name: &[u8]) -> Option<Rule>
    requires { IsKnown known }
    ensures { (scope : CScope) (line : ℕ) → result ≡ rule_at (placed (types_in known.entry) scope line (arrow_node (view_operand of.now) name.now)) }
{
    if lacks_behind(known, of, name) {
        return Some(Rule::K8);
    }
    if lacks_value(known, of) {
        return Some(Rule::K10);
    }
    if is_fixed(of) {
        return Some(Rule::K15);
    }
    None
}
