//! Array declarators, and lists of identifiers (ISO C99, 6.7.5.2 and 6.7.5.3).

ghost use Rattle.std.specs.Prelude.{◌≡◌, ℕ, option_map};
ghost use Rattle.cx_breaks.specs.Placed.{placed};
ghost use Rattle.cx_core.specs.Trees.{CTypes};
ghost use Rattle.cx_kinds.specs.Known.{IsKnown, types_in};
ghost use Rattle.cx_operands.specs.Views.{view_operand};
ghost use Rattle.cx_rules.specs.Nodes.{array_node, identifiers_node};
ghost use Rattle.cx_rules.specs.Rules.{rule_at, is_empty};
ghost use Rattle.cx_rules.specs.Scope.{CScope};
ghost use Rattle.cx_type_breaks.specs.Arrays.{is_short};

use crate::written::{constant_written, is_fixed_written, is_unconstant, lacks_written};
use cr_base::{Int, Name, Rule};
use cx_kinds::Known;
use cx_operands::Operand;

/// The rule that the brackets of an array declarator break: O3 where something else than a length stands in them, or the
/// length isn't an integer constant expression; K6 where it is less than 1 (ISO C99, 6.7.5.2p1); K10, K15 where its value can't
/// be taken.
#[tactic(auto, using(crate::proofs::PartRules::array))]
pub fn array_rule(known: Known, is_plain: bool, length: Option<&Operand>) -> Option<Rule>
    requires { IsKnown known }
    ensures { (scope : CScope) (line : ℕ) → result ≡ rule_at (placed (types_in known.entry) scope line (array_node is_plain (option_map (λ one. view_operand one.now) length.entry))) }
{
    if !is_plain {
        return Some(Rule::O3);
    }
    if is_unconstant(known.types, length) {
        return Some(Rule::O3);
    }
    if is_short(constant_written(known.types, length)) {
        return Some(Rule::K6);
    }
    if lacks_written(known, length) {
        return Some(Rule::K10);
    }
    if is_fixed_written(length) {
        return Some(Rule::K15);
    }
    None
}

// Whether a length is less than 1.
fn is_short(length: Option<Int>) -> bool
    ensures { result ≡ is_short length }
{
    match length {
        None => false,
        Some(value) => value < 1,
    }
}

/// The rule that a list of identifiers breaks: O4 where one stands in it (ISO C99, 6.7.5.3p3).
#[tactic(auto, using(crate::proofs::PartRules::identifiers))]
pub fn identifiers_rule(names: &[Name]) -> Option<Rule>
    ensures { (types : CTypes) (scope : CScope) (line : ℕ) → result ≡ rule_at (placed types scope line (identifiers_node names.now)) }
{
    if is_empty(names) {
        None
    } else {
        Some(Rule::O4)
    }
}

fn is_empty(names: &[Name]) -> bool
    ensures { result ≡ is_empty names.now }
{
    match names.split_first() {
        None => true,
        Some(_) => false,
    }
}
