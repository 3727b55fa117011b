//! Parameters (ISO C99, 6.7.5.3).

ghost use Rattle.std.specs.Prelude.{◌≡◌, ℕ};
ghost use Rattle.cx_breaks.specs.Placed.{placed};
ghost use Rattle.cx_core.specs.Trees.{CTypes};
ghost use Rattle.cx_core.specs.Views.{view_type};
ghost use Rattle.cx_rules.specs.Nodes.{param_node};
ghost use Rattle.cx_rules.specs.Rules.{rule_at, is_empty, is_taken_by, says_nothing};
ghost use Rattle.cx_rules.specs.Scope.{CScope};
ghost use Rattle.cx_shapes.specs.Views.{view_specs};

use cr_base::{Name, Rule};
use cx_core::Ty;
use cx_kinds::is_void;
use cx_lex::Keyword;
use cx_shapes::Specs;

/// The rule that a parameter breaks, whose name is taken in the innermost scope or isn't: K2 where it is, K7 where the type is
/// `void` and it isn't the only one, unnamed and plain (ISO C99, 6.7.5.3p10).
#[tactic(auto, using(crate::proofs::PartRules::param))]
pub fn param_rule(
    taken: bool,
    is_only: bool,
    specs: &Specs,
    name: &Option<Name>,
    t: &Ty,
) -> Option<Rule>
    ensures { (types : CTypes) (scope : CScope) (line : ℕ) → is_taken_by scope name.now ≡ taken
        → result ≡ rule_at (placed types scope line (param_node is_only (view_specs specs.now) name.now (view_type t.now))) }
{
    if taken {
        return Some(Rule::K2);
    }
    if is_void(t) && !says_nothing(is_only, specs, name, t) {
        return Some(Rule::K7);
    }
    None
}

fn says_nothing(is_only: bool, specs: &Specs, name: &Option<Name>, t: &Ty) -> bool
    ensures { result ≡ says_nothing is_only (view_specs specs.now) name.now (view_type t.now) }
{
    if !is_only {
        return false;
    }
    if name.is_some() {
        return false;
    }
    is_empty(specs.storage.as_slice()) && !t.is_const
}

fn is_empty(words: &[Keyword]) -> bool
    ensures { result ≡ is_empty words.now }
{
    match words.split_first() {
        None => true,
        Some(_) => false,
    }
}
