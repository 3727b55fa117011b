//! Operators with two operands and with three (ISO C99, 6.5.5 to 6.5.15 and 6.5.17).

ghost use Rattle.std.specs.Prelude.{◌≡◌, ◌&&◌, ℕ};
ghost use Rattle.cx_breaks.specs.Placed.{placed};
ghost use Rattle.cx_kinds.specs.Known.{IsKnown, types_in};
ghost use Rattle.cx_operands.specs.Views.{view_operand, view_value_type};
ghost use Rattle.cx_rules.specs.Nodes.{binary_node, tests_node, cond_node, comma_node};
ghost use Rattle.cx_rules.specs.Pairs.{is_nothing};
ghost use Rattle.cx_rules.specs.Rules.{rule_at};
ghost use Rattle.cx_rules.specs.Scope.{CScope};
ghost use Rattle.cx_rules.specs.Types.{is_scalar};

use crate::asked::{is_fixed, is_unchosen, lacks_object, lacks_value, pairing_taken, type_taken};
use cr_base::Rule;
use cx_core::Op2;
use cx_kinds::Known;
use cx_operands::{Operand, ValueTy};
use cx_pairs::is_scalar;
use cx_rules::Pairing;

/// The rule that a binary operator breaks: K10 where it doesn't take the operands (ISO C99, 6.5.5p2 to 6.5.12p2), K15 where
/// one is an array that is declared `register`.
#[tactic(auto, using(crate::proofs::NodeRules::binary))]
pub fn binary_rule(known: Known, op: Op2, left: &Operand, right: &Operand) -> Option<Rule>
    requires { IsKnown known }
    ensures { (scope : CScope) (line : ℕ) → result ≡ rule_at (placed (types_in known.entry) scope line (binary_node op (view_operand left.now) (view_operand right.now))) }
{
    if lacks_value(known, left) {
        return Some(Rule::K10);
    }
    if lacks_value(known, right) {
        return Some(Rule::K10);
    }
    if is_nothing(pairing_taken(known, op, left, right)) {
        return Some(Rule::K10);
    }
    if is_fixed(left) {
        return Some(Rule::K15);
    }
    if is_fixed(right) {
        return Some(Rule::K15);
    }
    None
}

fn is_nothing(pairing: Pairing) -> bool
    ensures { result ≡ is_nothing pairing }
{
    matches!(pairing, Pairing::Nothing)
}

/// The rule that `&&` or `||` breaks: K10 where an operand isn't scalar (ISO C99, 6.5.13p2, 6.5.14p2), K15 where one is an
/// array that is declared `register`.
#[tactic(auto, using(crate::proofs::NodeRules::tests))]
pub fn tests_rule(known: Known, left: &Operand, right: &Operand) -> Option<Rule>
    requires { IsKnown known }
    ensures { (scope : CScope) (line : ℕ) → result ≡ rule_at (placed (types_in known.entry) scope line (tests_node (view_operand left.now) (view_operand right.now))) }
{
    if lacks_value(known, left) {
        return Some(Rule::K10);
    }
    if lacks_value(known, right) {
        return Some(Rule::K10);
    }
    if !are_scalar(known, type_taken(left), type_taken(right)) {
        return Some(Rule::K10);
    }
    if is_fixed(left) {
        return Some(Rule::K15);
    }
    if is_fixed(right) {
        return Some(Rule::K15);
    }
    None
}

fn are_scalar(known: Known, left: ValueTy<'_>, right: ValueTy<'_>) -> bool
    ensures { result ≡ (is_scalar (types_in known.entry) (view_value_type left.entry) && is_scalar (types_in known.entry) (view_value_type right.entry)) }
{
    is_scalar(known, left) && is_scalar(known, right)
}

/// The rule that `?:` breaks: K10 where a value can't be taken, K15 where an operand is an array that is declared
/// `register`, K16 where the first operand isn't scalar or the others are no pair (ISO C99, 6.5.15p2, p3).
#[tactic(auto, using(crate::proofs::NodeRules::cond))]
pub fn cond_rule(known: Known, test: &Operand, first: &Operand, second: &Operand) -> Option<Rule>
    requires { IsKnown known }
    ensures { (scope : CScope) (line : ℕ) → result ≡ rule_at (placed (types_in known.entry) scope line (cond_node (view_operand test.now) (view_operand first.now) (view_operand second.now))) }
{
    if lacks_value(known, test) {
        return Some(Rule::K10);
    }
    if lacks_object(known, first) {
        return Some(Rule::K10);
    }
    if lacks_object(known, second) {
        return Some(Rule::K10);
    }
    if is_fixed(test) {
        return Some(Rule::K15);
    }
    if is_fixed(first) {
        return Some(Rule::K15);
    }
    if is_fixed(second) {
        return Some(Rule::K15);
    }
    if !is_scalar(known, type_taken(test)) {
        return Some(Rule::K16);
    }
    if is_unchosen(known.types, first, second) {
        return Some(Rule::K16);
    }
    None
}

/// The rule that the comma operator breaks: K10 where an operand is an lvalue of incomplete type, K15 where one is an array
/// that is declared `register`.
#[tactic(auto, using(crate::proofs::NodeRules::comma))]
pub fn comma_rule(known: Known, first: &Operand, second: &Operand) -> Option<Rule>
    requires { IsKnown known }
    ensures { (scope : CScope) (line : ℕ) → result ≡ rule_at (placed (types_in known.entry) scope line (comma_node (view_operand first.now) (view_operand second.now))) }
{
    if lacks_object(known, first) {
        return Some(Rule::K10);
    }
    if lacks_object(known, second) {
        return Some(Rule::K10);
    }
    if is_fixed(first) {
        return Some(Rule::K15);
    }
    if is_fixed(second) {
        return Some(Rule::K15);
    }
    None
}
