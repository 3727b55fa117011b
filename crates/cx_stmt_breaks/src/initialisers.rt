//! Values of initialisers (ISO C99, 6.7.8).

ghost use Rattle.std.specs.Prelude.{◌≡◌, ℕ, None, Some, option_map};
ghost use Rattle.cx_breaks.specs.Placed.{placed};
ghost use Rattle.cx_core.specs.Trees.{CTypes};
ghost use Rattle.cx_kinds.specs.Known.{IsKnown, types_in};
ghost use Rattle.cx_operands.specs.Views.{view_operand};
ghost use Rattle.cx_rules.specs.Nodes.{given_node, element_node, designated_node};
ghost use Rattle.cx_rules.specs.Rules.{rule_at};
ghost use Rattle.cx_rules.specs.Scope.{CScope};
ghost use Rattle.cx_stmt_breaks.specs.Facts.{given_facts};

use crate::asked::is_unconstant;
use cr_base::Rule;
use cx_breaks::{is_fixed, lacks_value};
use cx_kinds::Known;
use cx_operands::Operand;

/// A value that is given in an initialiser, or a list in braces (ISO C99, 6.7.8).
#[derive(Clone, Copy)]
pub struct Given {
    /// Whether there is a place for it.
    pub has_place: bool,
    /// Whether it may be assigned there.
    pub is_assignable: bool,
    /// Whether it is a constant where one is needed.
    pub is_constant: bool,
}

/// The rule that a given value, or a list in braces, breaks: K10, K15 where the value can't be taken, K12 where it may not be
/// assigned at its place (ISO C99, 6.7.8p11), K17 where it is no constant and has to be one (6.7.8p4), K21 where there is no place
/// for it (6.7.8p2).
pub fn given_rule(known: Known, value: Option<&Operand>, given: Given) -> Option<Rule>
    requires { IsKnown known }
    ensures { (scope : CScope) (line : ℕ) → result ≡ rule_at (placed (types_in known.entry) scope line (given_node (given_facts (option_map (λ one. view_operand one.now) value.entry) given))) }
{
    match value {
        None => gives_list(known, given),
        Some(one) => gives_value(known, one, given),
    }
}

#[tactic(auto, using(crate::proofs::InitRules::gives_list))]
fn gives_list(known: Known, given: Given) -> Option<Rule>
    requires { IsKnown known }
    ensures { (scope : CScope) (line : ℕ) → result ≡ rule_at (placed (types_in known.entry) scope line (given_node (given_facts None given))) }
{
    if given.has_place && !given.is_assignable {
        return Some(Rule::K12);
    }
    if given.has_place && !given.is_constant {
        return Some(Rule::K17);
    }
    if !given.has_place {
        return Some(Rule::K21);
    }
    None
}

#[tactic(auto, using(crate::proofs::InitRules::gives_value))]
fn gives_value(known: Known, value: &Operand, given: Given) -> Option<Rule>
    requires { IsKnown known }
    ensures { (scope : CScope) (line : ℕ) → result ≡ rule_at (placed (types_in known.entry) scope line (given_node (given_facts (Some (view_operand value.now)) given))) }
{
    if lacks_value(known, value) {
        return Some(Rule::K10);
    }
    if given.has_place && !given.is_assignable {
        return Some(Rule::K12);
    }
    if is_fixed(value) {
        return Some(Rule::K15);
    }
    if given.has_place && !given.is_constant {
        return Some(Rule::K17);
    }
    if !given.has_place {
        return Some(Rule::K21);
    }
    None
}

/// The rule that an index in a designator breaks: K10, K15 where its value can't be taken, K17 where it isn't an integer constant
/// expression, K21 where there is no such element (ISO C99, 6.7.8p6).
#[tactic(auto, using(crate::proofs::InitRules::element))]
pub fn element_rule(known: Known, index: &Operand, has_place: bool) -> Option<Rule>
    requires { IsKnown known }
    ensures { (scope : CScope) (line : ℕ) → result ≡ rule_at (placed (types_in known.entry) scope line (element_node (view_operand index.now) has_place)) }
{
    if lacks_value(known, index) {
        return Some(Rule::K10);
    }
    if is_fixed(index) {
        return Some(Rule::K15);
    }
    if is_unconstant(known.types, index) {
        return Some(Rule::K17);
    }
    if !has_place {
        return Some(Rule::K21);
    }
    None
}

/// The rule that a member's name in a designator breaks: K21 where there is no such member (ISO C99, 6.7.8p7).
#[tactic(auto, using(crate::proofs::InitRules::designated))]
pub fn designated_rule(has_place: bool) -> Option<Rule>
    ensures { (types : CTypes) (scope : CScope) (line : ℕ) → result ≡ rule_at (placed types scope line (designated_node has_place)) }
{
    if !has_place {
        return Some(Rule::K21);
    }
    None
}
