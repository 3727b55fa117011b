//! Statements and labels (ISO C99, 6.8).

ghost use Rattle.std.specs.Prelude.{◌≡◌, ℕ, bytes_eq, option_map};
ghost use Rattle.cx_breaks.specs.Placed.{placed};
ghost use Rattle.cx_core.specs.Trees.{CTypes};
ghost use Rattle.cx_core.specs.Views.{view_type};
ghost use Rattle.cx_kinds.specs.Known.{IsKnown, types_in};
ghost use Rattle.cx_operands.specs.Views.{view_operand};
ghost use Rattle.cx_rules.specs.Nodes.{label_node, case_node, default_node, dropped_node, controls_node, switch_node, goto_node, jump_node};
ghost use Rattle.cx_rules.specs.Rules.{rule_at};
ghost use Rattle.cx_rules.specs.Scope.{CScope};
ghost use Rattle.std.specs.List.{list_any};

use crate::asked::{has_integer, has_scalar, is_no_case, is_unconstant};
use cr_base::{Int, Name, Rule};
use cx_breaks::{is_fixed, lacks_object, lacks_value};
use cx_core::Ty;
use cx_kinds::Known;
use cx_operands::Operand;

/// The rule that a label breaks behind others of its function: K19 where one of them has its name (ISO C99, 6.8.1p3).
#[tactic(auto, using(crate::proofs::StmtRules::label))]
pub fn label_rule(name: &Name, before: &[Name]) -> Option<Rule>
    ensures { (types : CTypes) (scope : CScope) (line : ℕ) → result ≡ rule_at (placed types scope line (label_node name.now before.now)) }
{
    if is_listed(name, before) {
        return Some(Rule::K19);
    }
    None
}

/// The rule that `goto` breaks in a function with these labels: K19 where none of them has the name (ISO C99, 6.8.6.1p1).
#[tactic(auto, using(crate::proofs::StmtRules::goto))]
pub fn goto_rule(name: &Name, labels: &[Name]) -> Option<Rule>
    ensures { (types : CTypes) (scope : CScope) (line : ℕ) → result ≡ rule_at (placed types scope line (goto_node name.now labels.now)) }
{
    if !is_listed(name, labels) {
        return Some(Rule::K19);
    }
    None
}

fn is_listed(name: &Name, names: &[Name]) -> bool
    ensures { result ≡ list_any (bytes_eq name.now) names.now }
{
    for other in names {
        if name.bytes() == other.bytes() {
            return true;
        }
    }
    false
}

/// The rule that a `case` label breaks in the innermost `switch`, which takes a value of this type, behind labels of these values:
/// K10, K15 where the value can't be taken, K17 where it isn't an integer constant expression, K18 where the label stands in no
/// `switch` or an earlier one has its value (ISO C99, 6.8.1p2, 6.8.4.2p3).
#[tactic(auto, using(crate::proofs::StmtRules::case_label))]
pub fn case_rule(
    known: Known,
    switch_ty: Option<&Ty>,
    value: &Operand,
    before: &[Int],
) -> Option<Rule>
    requires { IsKnown known }
    ensures { (scope : CScope) (line : ℕ) → result ≡ rule_at (placed (types_in known.entry) scope line (case_node (option_map (λ t. view_type t.now) switch_ty.entry) (view_operand value.now) before.now)) }
{
    if lacks_value(known, value) {
        return Some(Rule::K10);
    }
    if is_fixed(value) {
        return Some(Rule::K15);
    }
    if is_unconstant(known.types, value) {
        return Some(Rule::K17);
    }
    if is_no_case(known.types, switch_ty, value, before) {
        return Some(Rule::K18);
    }
    None
}

/// The rule that a `default` label breaks: K18 where it stands in no `switch`, or isn't the first one there (ISO C99, 6.8.1p2,
/// 6.8.4.2p3).
#[tactic(auto, using(crate::proofs::StmtRules::default_label))]
pub fn default_rule(switch_ty: Option<&Ty>, before: bool) -> Option<Rule>
    ensures { (types : CTypes) (scope : CScope) (line : ℕ) → result ≡ rule_at (placed types scope line (default_node (option_map (λ t. view_type t.now) switch_ty.entry) before)) }
{
    if switch_ty.is_none() {
        return Some(Rule::K18);
    }
    if before {
        return Some(Rule::K18);
    }
    None
}

/// The rule that an expression statement breaks: K10, K15 where the operand can't be evaluated (ISO C99, 6.8.3p2).
#[tactic(auto, using(crate::proofs::StmtRules::dropped))]
pub fn dropped_rule(known: Known, value: &Operand) -> Option<Rule>
    requires { IsKnown known }
    ensures { (scope : CScope) (line : ℕ) → result ≡ rule_at (placed (types_in known.entry) scope line (dropped_node (view_operand value.now))) }
{
    if lacks_object(known, value) {
        return Some(Rule::K10);
    }
    if is_fixed(value) {
        return Some(Rule::K15);
    }
    None
}

/// The rule that the controlling expression of `if` or of a loop breaks: K10, K15 where its value can't be taken, K18 where it
/// isn't scalar (ISO C99, 6.8.4.1p1, 6.8.5p2).
#[tactic(auto, using(crate::proofs::StmtRules::controls))]
pub fn controls_rule(known: Known, value: &Operand) -> Option<Rule>
    requires { IsKnown known }
    ensures { (scope : CScope) (line : ℕ) → result ≡ rule_at (placed (types_in known.entry) scope line (controls_node (view_operand value.now))) }
{
    if lacks_value(known, value) {
        return Some(Rule::K10);
    }
    if is_fixed(value) {
        return Some(Rule::K15);
    }
    if !has_scalar(known, value) {
        return Some(Rule::K18);
    }
    None
}

/// The rule that the controlling expression of `switch` breaks: K10, K15 where its value can't be taken, K18 where it isn't an
/// integer (ISO C99, 6.8.4.2p1).
#[tactic(auto, using(crate::proofs::StmtRules::switches))]
pub fn switch_rule(known: Known, value: &Operand) -> Option<Rule>
    requires { IsKnown known }
    ensures { (scope : CScope) (line : ℕ) → result ≡ rule_at (placed (types_in known.entry) scope line (switch_node (view_operand value.now))) }
{
    if lacks_value(known, value) {
        return Some(Rule::K10);
    }
    if is_fixed(value) {
        return Some(Rule::K15);
    }
    if !has_integer(known.types, value) {
        return Some(Rule::K18);
    }
    None
}

/// The rule that `continue` or `break` breaks: K18 where it isn't inside of its statement (ISO C99, 6.8.6.2p1, 6.8.6.3p1).
#[tactic(auto, using(crate::proofs::StmtRules::jump))]
pub fn jump_rule(is_inside: bool) -> Option<Rule>
    ensures { (types : CTypes) (scope : CScope) (line : ℕ) → result ≡ rule_at (placed types scope line (jump_node is_inside)) }
{
    if !is_inside {
        return Some(Rule::K18);
    }
    None
}
