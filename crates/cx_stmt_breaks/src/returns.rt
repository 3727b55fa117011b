//! `return` (ISO C99, 6.8.6.4).

ghost use Rattle.std.specs.Prelude.{◌≡◌, ℕ, None, Some, option_map, if◌then◌else◌};
ghost use Rattle.cx_breaks.specs.Asked.{lacks_object, lacks_value};
ghost use Rattle.cx_breaks.specs.Placed.{placed};
ghost use Rattle.cx_core.specs.Views.{view_type};
ghost use Rattle.cx_kinds.specs.Known.{IsKnown, types_in};
ghost use Rattle.cx_operands.specs.Views.{view_operand};
ghost use Rattle.cx_rules.specs.Nodes.{return_node};
ghost use Rattle.cx_rules.specs.Rules.{rule_at};
ghost use Rattle.cx_rules.specs.Scope.{CScope};
ghost use Rattle.cx_rules.specs.Types.{is_void};

use crate::asked::is_misfit;
use cr_base::Rule;
use cx_breaks::{is_fixed, lacks_object, lacks_value};
use cx_core::Ty;
use cx_kinds::{Known, is_void};
use cx_operands::Operand;

/// The rule that `return` breaks in a function that gives this type: K10, K15 where the value can't be taken, K12 where it may not
/// be assigned to an object of that type (ISO C99, 6.8.6.4p3), K20 where a value stands in a function that gives none, or none in
/// one that gives one (6.8.6.4p1).
pub fn return_rule(known: Known, result_ty: &Ty, value: Option<&Operand>) -> Option<Rule>
    requires { IsKnown known }
    ensures { (scope : CScope) (line : ℕ) → result ≡ rule_at (placed (types_in known.entry) scope line (return_node (view_type result_ty.now) (option_map (λ one. view_operand one.now) value.entry))) }
{
    match value {
        None => returns_nothing(known, result_ty),
        Some(one) => returns_value(known, result_ty, one),
    }
}

#[tactic(auto, using(crate::proofs::StmtRules::returns_nothing))]
fn returns_nothing(known: Known, result_ty: &Ty) -> Option<Rule>
    requires { IsKnown known }
    ensures { (scope : CScope) (line : ℕ) → result ≡ rule_at (placed (types_in known.entry) scope line (return_node (view_type result_ty.now) None)) }
{
    if !is_void(result_ty) {
        return Some(Rule::K20);
    }
    None
}

#[tactic(auto, using(crate::proofs::StmtRules::returns_value))]
fn returns_value(known: Known, result_ty: &Ty, value: &Operand) -> Option<Rule>
    requires { IsKnown known }
    ensures { (scope : CScope) (line : ℕ) → result ≡ rule_at (placed (types_in known.entry) scope line (return_node (view_type result_ty.now) (Some (view_operand value.now)))) }
{
    if return_lacks(known, result_ty, value) {
        return Some(Rule::K10);
    }
    if !is_void(result_ty) && is_misfit(known.types, result_ty, value) {
        return Some(Rule::K12);
    }
    if is_fixed(value) {
        return Some(Rule::K15);
    }
    if is_void(result_ty) {
        return Some(Rule::K20);
    }
    None
}

// Whether the value can't be taken; one in a function that gives none is only evaluated.
fn return_lacks(known: Known, result_ty: &Ty, value: &Operand) -> bool
    requires { IsKnown known }
    ensures { result ≡ (if is_void (view_type result_ty.now) then lacks_object (types_in known.entry) (view_operand value.now) else lacks_value (types_in known.entry) (view_operand value.now)) }
{
    if is_void(result_ty) {
        lacks_object(known, value)
    } else {
        lacks_value(known, value)
    }
}
