//! Names in expressions, and enumerators (ISO C99, 6.5.1 and 6.7.2.2).

ghost use Rattle.std.specs.Prelude.{◌≡◌, ◌&&◌, ℕ, List, Some, pos, neg_ℤ, int_le, option_map};
ghost use Rattle.cx_breaks.specs.Placed.{placed};
ghost use Rattle.cx_core.specs.Trees.{CTypes};
ghost use Rattle.cx_kinds.specs.Known.{IsKnown, types_in};
ghost use Rattle.cx_operands.specs.Views.{view_operand};
ghost use Rattle.cx_rules.specs.Nodes.{name_node, enumerator_node};
ghost use Rattle.cx_rules.specs.Rules.{rule_at, is_taken, names_void, not_declared};
ghost use Rattle.cx_rules.specs.Scope.{CScope};
ghost use Rattle.cx_scope.specs.Views.{view_meant};

use crate::written::{is_fixed_written, is_unconstant, lacks_written};
use cr_base::{Int, Rule};
use cx_kinds::{Known, is_void};
use cx_operands::Operand;
use cx_scope::Meant;

/// The rule that a name in an expression breaks, where it means this: K1 where it is declared neither as an object or a function
/// nor as an enumerator (ISO C99, 6.5.1p2), K10 where it names an object of type `void`, which is no lvalue (6.3.2.1p1).
#[tactic(auto, using(crate::proofs::PartRules::named))]
pub fn name_rule(meant: Option<&Meant>) -> Option<Rule>
    ensures { (types : CTypes) (scope : CScope) (line : ℕ) → result ≡ rule_at (placed types scope line (name_node (option_map (λ one. view_meant one.now) meant.entry))) }
{
    if not_declared(meant) {
        return Some(Rule::K1);
    }
    if names_void(meant) {
        return Some(Rule::K10);
    }
    None
}

fn names_void(meant: Option<&Meant>) -> bool
    ensures { result ≡ names_void (option_map (λ one. view_meant one.now) meant.entry) }
{
    match meant {
        None => false,
        Some(one) => is_void_object(one),
    }
}

fn is_void_object(meant: &Meant) -> bool
    ensures { result ≡ names_void (Some (view_meant meant.now)) }
{
    match meant {
        Meant::Object { ty, .. } => is_void(ty),
        Meant::Function { .. } => false,
        Meant::Enumerator(_) => false,
        Meant::TypeName(_) => false,
        Meant::Tag { .. } => false,
    }
}

fn not_declared(meant: Option<&Meant>) -> bool
    ensures { result ≡ not_declared (option_map (λ one. view_meant one.now) meant.entry) }
{
    match meant {
        None => true,
        Some(one) => is_no_value(one),
    }
}

fn is_no_value(meant: &Meant) -> bool
    ensures { result ≡ not_declared (Some (view_meant meant.now)) }
{
    match meant {
        Meant::Object { .. } => false,
        Meant::Function { .. } => false,
        Meant::Enumerator(_) => false,
        Meant::TypeName(_) => true,
        Meant::Tag { .. } => true,
    }
}

/// The rule that an enumerator breaks, whose name is taken in the innermost scope or isn't: K2 where it is; K10, K15 where the
/// value that is written can't be taken; K17 where that isn't an integer constant expression, K23 where its value isn't one of
/// `int` (ISO C99, 6.7.2.2p2).
#[tactic(auto, using(crate::proofs::PartRules::enumerator))]
pub fn enumerator_rule(
    known: Known,
    taken: bool,
    written: Option<&Operand>,
    value: Int,
) -> Option<Rule>
    requires { IsKnown known }
    ensures { (scope : CScope) (line : ℕ) (name : List ℕ) → is_taken scope name ≡ taken
        → result ≡ rule_at (placed (types_in known.entry) scope line (enumerator_node name (option_map (λ one. view_operand one.now) written.entry) value)) }
{
    if taken {
        return Some(Rule::K2);
    }
    if lacks_written(known, written) {
        return Some(Rule::K10);
    }
    if is_fixed_written(written) {
        return Some(Rule::K15);
    }
    if is_unconstant(known.types, written) {
        return Some(Rule::K17);
    }
    if !is_int(value) {
        return Some(Rule::K23);
    }
    None
}

// Whether it is a value of `int`.
fn is_int(value: Int) -> bool
    ensures { result ≡ (int_le (neg_ℤ (pos 2147483648)) value && int_le value (pos 2147483647)) }
{
    -2_147_483_648 <= value && value <= 2_147_483_647
}
