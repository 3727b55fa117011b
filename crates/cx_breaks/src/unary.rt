//! Forms with one operand, and literals (ISO C99, 6.5.1, 6.5.2.5 and 6.5.3).

ghost use Rattle.std.specs.Prelude.{◌≡◌, ℕ};
ghost use Rattle.cx_breaks.specs.Placed.{placed};
ghost use Rattle.cx_core.specs.Trees.{CTypes};
ghost use Rattle.cx_core.specs.Views.{view_type};
ghost use Rattle.cx_kinds.specs.Known.{IsKnown, types_in};
ghost use Rattle.cx_operands.specs.Views.{view_operand, view_value_type};
ghost use Rattle.cx_rules.specs.Nodes.{literal_node, address_node, deref_node, unary_node, sizeof_expr_node, sizeof_type_node};
ghost use Rattle.cx_rules.specs.Rules.{rule_at, not_signable};
ghost use Rattle.cx_rules.specs.Scope.{CScope};

use crate::asked::{has_place, is_fixed, is_sizeless, lacks_value, type_taken};
use cr_base::Rule;
use cx_core::{Op1, Ty};
use cx_kinds::{Known, is_complete, is_too_large};
use cx_operands::{Operand, ValueTy};
use cx_pairs::is_scalar;

/// The rule that a string literal or a compound literal of a type breaks: M3 where the type is too large.
#[tactic(auto, using(crate::proofs::NodeRules::literal))]
pub fn literal_rule(known: Known, t: &Ty) -> Option<Rule>
    requires { IsKnown known }
    ensures { (scope : CScope) (line : ℕ) → result ≡ rule_at (placed (types_in known.entry) scope line (literal_node (view_type t.now))) }
{
    if is_too_large(known, t) {
        return Some(Rule::M3);
    }
    None
}

/// The rule that unary `&` breaks: K15 where the operand has no address (ISO C99, 6.5.3.2p1).
#[tactic(auto, using(crate::proofs::NodeRules::address))]
pub fn address_rule(of: &Operand) -> Option<Rule>
    ensures { (types : CTypes) (scope : CScope) (line : ℕ) → result ≡ rule_at (placed types scope line (address_node (view_operand of.now))) }
{
    if !has_place(of) {
        return Some(Rule::K15);
    }
    None
}

/// The rule that unary `*` breaks: K10 where the operand is no pointer (ISO C99, 6.5.3.2p2), K15 where it is an array that
/// is declared `register`.
#[tactic(auto, using(crate::proofs::NodeRules::deref))]
pub fn deref_rule(known: Known, of: &Operand) -> Option<Rule>
    requires { IsKnown known }
    ensures { (scope : CScope) (line : ℕ) → result ≡ rule_at (placed (types_in known.entry) scope line (deref_node (view_operand of.now))) }
{
    if lacks_value(known, of) {
        return Some(Rule::K10);
    }
    if !type_taken(of).is_pointer() {
        return Some(Rule::K10);
    }
    if is_fixed(of) {
        return Some(Rule::K15);
    }
    None
}

/// The rule that a unary arithmetic operator breaks: K10 where it doesn't take the operand (ISO C99, 6.5.3.3p1), K15 where
/// that is an array that is declared `register`.
#[tactic(auto, using(crate::proofs::NodeRules::unary))]
pub fn unary_rule(known: Known, op: Op1, on: &Operand) -> Option<Rule>
    requires { IsKnown known }
    ensures { (scope : CScope) (line : ℕ) → result ≡ rule_at (placed (types_in known.entry) scope line (unary_node op (view_operand on.now))) }
{
    if lacks_value(known, on) {
        return Some(Rule::K10);
    }
    if not_signable(known, op, type_taken(on)) {
        return Some(Rule::K10);
    }
    if is_fixed(on) {
        return Some(Rule::K15);
    }
    None
}

fn not_signable(known: Known, op: Op1, v: ValueTy<'_>) -> bool
    ensures { result ≡ not_signable (types_in known.entry) op (view_value_type v.entry) }
{
    match op {
        Op1::Not => !is_scalar(known, v),
        Op1::Plus | Op1::Minus | Op1::Complement => !v.is_integer(known.types),
    }
}

/// The rule that `sizeof` of an expression breaks: K14 where that is a function, of incomplete type, or a bit-field
/// (ISO C99, 6.5.3.4p1).
#[tactic(auto, using(crate::proofs::NodeRules::sizeof_expr))]
pub fn sizeof_expr_rule(known: Known, of: &Operand) -> Option<Rule>
    requires { IsKnown known }
    ensures { (scope : CScope) (line : ℕ) → result ≡ rule_at (placed (types_in known.entry) scope line (sizeof_expr_node (view_operand of.now))) }
{
    if is_sizeless(known, of) {
        return Some(Rule::K14);
    }
    None
}

/// The rule that `sizeof` of a type breaks: K14 where the type isn't complete (ISO C99, 6.5.3.4p1).
#[tactic(auto, using(crate::proofs::NodeRules::sizeof_type))]
pub fn sizeof_type_rule(known: Known, t: &Ty) -> Option<Rule>
    requires { IsKnown known }
    ensures { (scope : CScope) (line : ℕ) → result ≡ rule_at (placed (types_in known.entry) scope line (sizeof_type_node (view_type t.now))) }
{
    if !is_complete(known, t) {
        return Some(Rule::K14);
    }
    None
}
