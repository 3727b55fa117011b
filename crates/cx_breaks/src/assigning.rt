//! Assignments, `++` and `--` (ISO C99, 6.5.2.4, 6.5.3.1 and 6.5.16).

ghost use Rattle.std.specs.Prelude.{◌≡◌, ℕ};
ghost use Rattle.cx_breaks.specs.Placed.{placed};
ghost use Rattle.cx_kinds.specs.Known.{IsKnown, types_in};
ghost use Rattle.cx_operands.specs.Views.{view_operand, view_value_type};
ghost use Rattle.cx_rules.specs.Nodes.{assign_node, assign_by_node, step_node};
ghost use Rattle.cx_rules.specs.Pairs.{joins};
ghost use Rattle.cx_rules.specs.Rules.{rule_at, not_stepped};
ghost use Rattle.cx_rules.specs.Scope.{CScope};

use crate::asked::{is_fixed, lacks_value, may_be_stored, may_change, pairing_taken, type_taken};
use cr_base::Rule;
use cx_core::Op2;
use cx_kinds::Known;
use cx_operands::{Operand, ValueTy};
use cx_pairs::is_element_pointer;
use cx_rules::Pairing;

/// The rule that a simple assignment breaks: K10 where the right operand has no value, K11 where the left one is no
/// modifiable lvalue (ISO C99, 6.5.16p2), K12 where the value may not be assigned to it (6.5.16.1p1), K15 where the right
/// operand is an array that is declared `register`.
#[tactic(auto, using(crate::proofs::NodeRules::assign))]
pub fn assign_rule(known: Known, target: &Operand, value: &Operand) -> Option<Rule>
    requires { IsKnown known }
    ensures { (scope : CScope) (line : ℕ) → result ≡ rule_at (placed (types_in known.entry) scope line (assign_node (view_operand target.now) (view_operand value.now))) }
{
    if lacks_value(known, value) {
        return Some(Rule::K10);
    }
    if !may_change(known, target) {
        return Some(Rule::K11);
    }
    if !may_be_stored(known.types, target, value) {
        return Some(Rule::K12);
    }
    if is_fixed(value) {
        return Some(Rule::K15);
    }
    None
}

/// The rule that a compound assignment breaks: K10 where the operator doesn't take the operands (ISO C99, 6.5.16.2p1, p2),
/// K11 where the left one is no modifiable lvalue (6.5.16p2), K15 where the right one is an array that is declared
/// `register`.
#[tactic(auto, using(crate::proofs::NodeRules::assign_by))]
pub fn assign_by_rule(known: Known, op: Op2, target: &Operand, value: &Operand) -> Option<Rule>
    requires { IsKnown known }
    ensures { (scope : CScope) (line : ℕ) → result ≡ rule_at (placed (types_in known.entry) scope line (assign_by_node op (view_operand target.now) (view_operand value.now))) }
{
    if lacks_value(known, value) {
        return Some(Rule::K10);
    }
    if !joins(pairing_taken(known, op, target, value)) {
        return Some(Rule::K10);
    }
    if !may_change(known, target) {
        return Some(Rule::K11);
    }
    if is_fixed(value) {
        return Some(Rule::K15);
    }
    None
}

fn joins(pairing: Pairing) -> bool
    ensures { result ≡ joins pairing }
{
    matches!(
        pairing,
        Pairing::Arithmetic | Pairing::Shift | Pairing::PointerInteger
    )
}

/// The rule that `++` or `--` breaks: K10 where the operand is neither an integer nor a pointer to a complete type, K11
/// where it is no modifiable lvalue (ISO C99, 6.5.2.4p1, 6.5.3.1p1).
#[tactic(auto, using(crate::proofs::NodeRules::step))]
pub fn step_rule(known: Known, on: &Operand) -> Option<Rule>
    requires { IsKnown known }
    ensures { (scope : CScope) (line : ℕ) → result ≡ rule_at (placed (types_in known.entry) scope line (step_node (view_operand on.now))) }
{
    if not_stepped(known, type_taken(on)) {
        return Some(Rule::K10);
    }
    if !may_change(known, on) {
        return Some(Rule::K11);
    }
    None
}

fn not_stepped(known: Known, v: ValueTy<'_>) -> bool
    requires { IsKnown known }
    ensures { result ≡ not_stepped (types_in known.entry) (view_value_type v.entry) }
{
    !(v.is_integer(known.types) || is_element_pointer(known, v))
}
