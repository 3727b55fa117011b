//! Whole declarators: the steps from the type of their specifiers (ISO C99, 6.7.5).

ghost use Rattle.std.specs.Prelude.{◌≡◌, ℕ, map, reverse};
ghost use Rattle.cx_breaks.specs.Placed.{placed};
ghost use Rattle.cx_core.specs.Views.{view_type};
ghost use Rattle.cx_kinds.specs.Known.{IsKnown, types_in};
ghost use Rattle.cx_rules.specs.Nodes.{derives_node};
ghost use Rattle.cx_rules.specs.Rules.{rule_at};
ghost use Rattle.cx_rules.specs.Scope.{CScope};
ghost use Rattle.cx_rules.specs.Shapes.{derived};
ghost use Rattle.cx_shapes.specs.Views.{view_step};
ghost use Rattle.cx_type_breaks.specs.Derivation.{outline_of, after_by, faults_at, faults_by, faults_of, joined, sized};

use cr_base::Rule;
use cx_core::Ty;
use cx_kinds::{Known, has_size, is_array, is_function, is_too_large};
use cx_shapes::Step;

// What steps ask of a type.
#[derive(Clone, Copy)]
pub(crate) struct Outline {
    pub(crate) is_function: bool,
    pub(crate) is_array: bool,
    pub(crate) has_size: bool,
}

// Which rules some step breaks.
#[derive(Clone, Copy)]
pub(crate) struct Faults {
    // K3.
    pub(crate) of_restrict: bool,
    // K5.
    pub(crate) of_elements: bool,
    // K7.
    pub(crate) of_functions: bool,
}

/// The rule that a whole declarator breaks, whose steps (the first one last) lead from the type of the specifiers to this type:
/// K3 where `restrict` stands beside a pointer to a function (ISO C99, 6.7.3p2), K5 where the elements of an array are of
/// incomplete type (6.7.5.2p1), K7 where a function gives an array or a function, or an array is of functions (6.7.5.3p1), M3 where
/// the type is too large.
#[tactic(auto, using(crate::proofs::PartRules::derives))]
pub fn derives_rule(known: Known, from: &Ty, steps: &[Step], whole: &Ty) -> Option<Rule>
    requires { IsKnown known }
    ensures { (scope : CScope) (line : ℕ) → view_type whole.now ≡ derived (view_type from.now) (reverse (map view_step steps.now))
        → result ≡ rule_at (placed (types_in known.entry) scope line (derives_node (view_type from.now) (reverse (map view_step steps.now)))) }
{
    let found = faults_of(known, from, steps);
    if found.of_restrict {
        return Some(Rule::K3);
    }
    if found.of_elements {
        return Some(Rule::K5);
    }
    if found.of_functions {
        return Some(Rule::K7);
    }
    if is_too_large(known, whole) {
        return Some(Rule::M3);
    }
    None
}

#[tactic(auto, using(crate::proofs::Outlines::faults_are))]
fn faults_of(known: Known, from: &Ty, steps: &[Step]) -> Faults
    requires { IsKnown known }
    ensures { result ≡ faults_of (types_in known.entry) (view_type from.now) (reverse (map view_step steps.now)) }
{
    faults_by(outline_of(known, from), steps)
}

fn outline_of(known: Known, t: &Ty) -> Outline
    requires { IsKnown known }
    ensures { result ≡ outline_of (types_in known.entry) (view_type t.now) }
{
    Outline {
        is_function: is_function(t),
        is_array: is_array(t),
        has_size: has_size(known, t),
    }
}

#[tactic(auto, using(crate::proofs::Outlines::last_is_first))]
fn faults_by(outline: Outline, steps: &[Step]) -> Faults
    ensures { result ≡ faults_by outline (reverse (map view_step steps.now)) }
{
    match steps.split_last() {
        None => Faults {
            of_restrict: false,
            of_elements: false,
            of_functions: false,
        },
        Some((step, others)) => joined(
            faults_at(outline, step),
            faults_by(after(outline, step), others),
        ),
    }
}

fn joined(one: Faults, other: Faults) -> Faults
    ensures { result ≡ joined one other }
{
    Faults {
        of_restrict: one.of_restrict || other.of_restrict,
        of_elements: one.of_elements || other.of_elements,
        of_functions: one.of_functions || other.of_functions,
    }
}

// Which rules one step breaks.
fn faults_at(here: Outline, step: &Step) -> Faults
    ensures { result ≡ faults_at here (view_step step.now) }
{
    match step {
        Step::Pointer { is_restrict, .. } => Faults {
            of_restrict: *is_restrict && here.is_function,
            of_elements: false,
            of_functions: false,
        },
        Step::Array { .. } => Faults {
            of_restrict: false,
            of_elements: !here.is_function && !here.has_size,
            of_functions: here.is_function,
        },
        Step::Function { .. } => Faults {
            of_restrict: false,
            of_elements: false,
            of_functions: here.is_function || here.is_array,
        },
    }
}

// The type behind a step.
fn after(here: Outline, step: &Step) -> Outline
    ensures { result ≡ after_by here (view_step step.now) }
{
    match step {
        Step::Pointer { .. } => Outline {
            is_function: false,
            is_array: false,
            has_size: true,
        },
        Step::Array { length } => Outline {
            is_function: false,
            is_array: true,
            has_size: sized(*length, here.has_size),
        },
        Step::Function { .. } => Outline {
            is_function: true,
            is_array: false,
            has_size: false,
        },
    }
}

// Whether an array has a size, whose elements have one or not.
fn sized(length: Option<u64>, has_size: bool) -> bool
    ensures { result ≡ sized length has_size }
{
    match length {
        None => false,
        Some(count) => count != 0 && has_size,
    }
}
