//! Members of structures and unions (ISO C99, 6.7.2.1).

ghost use Rattle.std.specs.Prelude.{◌≡◌, ◌&&◌, ◌||◌, ℕ, map, option_map, is_some, int_lt, not, pos};
ghost use Rattle.std.specs.List.{list_any};
ghost use Rattle.cx_breaks.specs.Placed.{placed};
ghost use Rattle.cx_core.specs.Conversions.{basic_of};
ghost use Rattle.cx_core.specs.Trees.{form_of_type};
ghost use Rattle.cx_core.specs.Views.{view_member, view_type, view_types};
ghost use Rattle.cx_kinds.specs.Known.{IsKnown, types_in};
ghost use Rattle.cx_operands.specs.Views.{view_operand};
ghost use Rattle.cx_rules.specs.Nodes.{member_node};
ghost use Rattle.cx_rules.specs.Rules.{rule_at, has_name, is_open_array, most_width, not_width, value_is, wider_than_int};
ghost use Rattle.cx_rules.specs.Scope.{CScope};
ghost use Rattle.std.specs.Ordering.{int_eq};
ghost use Rattle.cx_type_breaks.specs.Members.{is_misfit};

use crate::written::{constant_written, is_fixed_written, is_unconstant, lacks_written};
use cr_base::{Int, Name, Rule};
use cx_core::{Basic, Ty, TyForm, Types, basic_of};
use cx_kinds::{Known, is_function, is_incomplete, is_integer};
use cx_operands::Operand;
use cx_scope::Members;

/// The rule that a member breaks, behind others and as the last one or not: O6 where a bit-field's type is wider than `int`, O10
/// where it is a flexible array, K5 where its type is incomplete, K8 where it is a function or its name is taken (ISO C99,
/// 6.7.2.1p2), K10, K15 where the value of a width can't be taken, K17 where that isn't an integer constant expression, K22 where a
/// bit-field can't have it (6.7.2.1p3, p4).
#[tactic(auto, using(crate::proofs::PartRules::member))]
pub fn member_rule(
    known: Known,
    is_last: bool,
    name: &Option<Name>,
    t: &Ty,
    width: Option<&Operand>,
    before: &Members,
) -> Option<Rule>
    requires { IsKnown known }
    ensures { (scope : CScope) (line : ℕ) → result ≡ rule_at (placed (types_in known.entry) scope line
        (member_node is_last name.now (view_type t.now) (option_map (λ one. view_operand one.now) width.entry) (map view_member before.now))) }
{
    if width.is_some() && is_wide(known.types, t) {
        return Some(Rule::O6);
    }
    if is_flexible(is_last, t) {
        return Some(Rule::O10);
    }
    if is_incomplete(known, t) {
        return Some(Rule::K5);
    }
    if is_function(t) {
        return Some(Rule::K8);
    }
    if is_named(name, before) {
        return Some(Rule::K8);
    }
    if lacks_written(known, width) {
        return Some(Rule::K10);
    }
    if is_fixed_written(width) {
        return Some(Rule::K15);
    }
    if is_unconstant(known.types, width) {
        return Some(Rule::K17);
    }
    if width.is_some() && is_misfit(known, t, name, constant_written(known.types, width)) {
        return Some(Rule::K22);
    }
    None
}

fn is_wide(types: &Types, t: &Ty) -> bool
    ensures { result ≡ wider_than_int (basic_of (view_types types.now) (form_of_type (view_type t.now))) }
{
    match basic_of(t, types) {
        None => false,
        Some(which) => Basic::Int.rank() < which.rank(),
    }
}

fn is_flexible(is_last: bool, t: &Ty) -> bool
    ensures { result ≡ (is_last && is_open_array (form_of_type (view_type t.now))) }
{
    is_last && is_open_array(t)
}

fn is_open_array(t: &Ty) -> bool
    ensures { result ≡ is_open_array (form_of_type (view_type t.now)) }
{
    match &t.form {
        TyForm::Array(_, length) => length.is_none(),
        _ => false,
    }
}

// Whether a member has the name.
fn is_named(name: &Option<Name>, before: &Members) -> bool
    ensures { result ≡ list_any (has_name name.now) (map view_member before.now) }
{
    match name {
        None => false,
        Some(name) => before.has(name),
    }
}

// Whether a bit-field of the type can't have the width.
#[tactic(auto, unfolding(crate::specs::Members::is_misfit))]
fn is_misfit(known: Known, t: &Ty, name: &Option<Name>, width: Option<Int>) -> bool
    ensures { result ≡ is_misfit (types_in known.entry) (view_type t.now) name.now width }
{
    !is_integer(known, t) || is_unfit(known.types, t, name, width)
}

fn is_unfit(types: &Types, t: &Ty, name: &Option<Name>, width: Option<Int>) -> bool
    ensures { result ≡ value_is (not_width (view_types types.now) (view_type t.now) name.now) width }
{
    match width {
        None => false,
        Some(width) => not_width(types, t, name.is_some(), width),
    }
}

fn not_width(types: &Types, t: &Ty, has_name: bool, width: Int) -> bool
    ensures { result ≡ (int_lt width (pos 0) || (int_lt (pos (most_width (basic_of (view_types types.now) (form_of_type (view_type t.now))))) width || (has_name && int_eq width (pos 0)))) }
{
    if width < 0 {
        return true;
    }
    if Int::from(most_width(basic_of(t, types))) < width {
        return true;
    }
    has_name && width == 0
}

fn most_width(which: Option<Basic>) -> u32
    ensures { result ≡ most_width which }
{
    match which {
        None => 0,
        Some(Basic::Truth) => 1,
        Some(which) => which.width(),
    }
}
