//! Calls (ISO C99, 6.5.2.2).

ghost use Rattle.std.specs.Prelude.{◌≡◌, ◌==◌, ℕ, length, map, nat_lt, not, option_map, if◌then◌else◌};
ghost use Rattle.std.specs.List.{list_any};
ghost use Rattle.cx_breaks.specs.Asked.{cannot_be_called, is_fixed, lacks_list, lacks_value, some_unfit, takes_no_such};
ghost use Rattle.cx_breaks.specs.Calls.{params_unassignable};
ghost use Rattle.cx_breaks.specs.Placed.{placed};
ghost use Rattle.cx_core.specs.Trees.{listed};
ghost use Rattle.cx_core.specs.Views.{view_function_type, view_params, view_type, view_types, types_of};
ghost use Rattle.cx_kinds.specs.Known.{IsKnown, types_in};
ghost use Rattle.cx_operands.specs.Views.{view_operand};
ghost use Rattle.cx_rules.specs.Nodes.{call_node};
ghost use Rattle.cx_rules.specs.Rules.{rule_at, count_is_wrong, is_empty, is_plain_void, result_incomplete, some_unassignable};
ghost use Rattle.cx_rules.specs.Scope.{CScope};

use crate::asked::{called_as, is_fixed, lacks_value, may_be_given};
use cr_base::Rule;
use cx_core::{FunctionTy, Params, Ty, Types};
use cx_kinds::{Known, is_incomplete, is_void};
use cx_operands::Operand;

/// The rule that a call breaks: O4 where arguments stand and the function has no parameter list, K9 where it is no function
/// or takes another number of arguments (ISO C99, 6.5.2.2p1, p2), K10 where a value can't be taken, K12 where an argument may
/// not be assigned to its parameter (6.5.2.2p2), K15 where one is an array that is declared `register`.
#[tactic(auto, using(crate::proofs::CallRules::called))]
pub fn call_rule(known: Known, callee: &Operand, args: &[Operand]) -> Option<Rule>
    requires { IsKnown known }
    ensures { (scope : CScope) (line : ℕ) → result ≡ rule_at (placed (types_in known.entry) scope line (call_node (view_operand callee.now) (map view_operand args.now))) }
{
    let function = called_as(callee);
    if !is_empty(args) && lacks_list(function) {
        return Some(Rule::O4);
    }
    if cannot_be_called(known, function, count_of(args)) {
        return Some(Rule::K9);
    }
    if lacks_value(known, callee) {
        return Some(Rule::K10);
    }
    if some_lack(known, args) {
        return Some(Rule::K10);
    }
    if takes_no_such(known.types, function, args) {
        return Some(Rule::K12);
    }
    if is_fixed(callee) {
        return Some(Rule::K15);
    }
    if some_fixed(args) {
        return Some(Rule::K15);
    }
    None
}

fn count_of(args: &[Operand]) -> usize
    ensures { result ≡ length (map view_operand args.now) }
{
    args.len()
}

fn is_empty(args: &[Operand]) -> bool
    ensures { result ≡ is_empty (map view_operand args.now) }
{
    match args.split_first() {
        None => true,
        Some(_) => false,
    }
}

#[tactic(auto, using(crate::proofs::Opened::function_view), unfolding(crate::specs::Asked::lacks_list))]
fn lacks_list(function: Option<&FunctionTy>) -> bool
    ensures { result ≡ lacks_list (option_map (λ one. view_function_type one.now) function.entry) }
{
    match function {
        None => false,
        Some(one) => matches!(one.params, Params::Unlisted),
    }
}

#[tactic(auto, using(crate::proofs::Opened::function_view), unfolding(crate::specs::Asked::cannot_be_called))]
fn cannot_be_called(known: Known, function: Option<&FunctionTy>, count: usize) -> bool
    requires { IsKnown known }
    ensures { result ≡ cannot_be_called (types_in known.entry) count (option_map (λ one. view_function_type one.now) function.entry) }
{
    match function {
        None => true,
        Some(one) => {
            count_is_wrong(&one.params, one.is_variadic, count)
                || result_incomplete(known, &one.result_ty)
        }
    }
}

fn count_is_wrong(params: &Params, is_variadic: bool, count: usize) -> bool
    ensures { result ≡ count_is_wrong (view_params params.now) is_variadic count }
{
    match params {
        Params::Unlisted => false,
        Params::Listed(list) => list_is_wrong(list.as_slice(), is_variadic, count),
    }
}

fn list_is_wrong(list: &[Ty], is_variadic: bool, count: usize) -> bool
    ensures { result ≡ count_is_wrong (listed (types_of (map view_type list.now))) is_variadic count }
{
    number_is_wrong(list.len(), is_variadic, count)
}

fn number_is_wrong(wanted: usize, is_variadic: bool, count: usize) -> bool
    ensures { result ≡ (if is_variadic then nat_lt count wanted else not (wanted == count)) }
{
    if is_variadic {
        count < wanted
    } else {
        wanted != count
    }
}

// Whether a type is the unqualified `void` (ISO C99, 6.9.1p3).
fn is_plain_void(t: &Ty) -> bool
    ensures { result ≡ is_plain_void (view_type t.now) }
{
    is_void(t) && !t.is_const
}

// Whether what a function gives back is incomplete, and not `void`.
fn result_incomplete(known: Known, result_ty: &Ty) -> bool
    requires { IsKnown known }
    ensures { result ≡ result_incomplete (types_in known.entry) (view_type result_ty.now) }
{
    !is_plain_void(result_ty) && is_incomplete(known, result_ty)
}

fn some_lack(known: Known, args: &[Operand]) -> bool
    requires { IsKnown known }
    ensures { result ≡ list_any (lacks_value (types_in known.entry)) (map view_operand args.now) }
{
    for arg in args {
        if lacks_value(known, arg) {
            return true;
        }
    }
    false
}

fn some_fixed(args: &[Operand]) -> bool
    ensures { result ≡ list_any is_fixed (map view_operand args.now) }
{
    for arg in args {
        if is_fixed(arg) {
            return true;
        }
    }
    false
}

#[tactic(auto, using(crate::proofs::Opened::function_view), unfolding(crate::specs::Asked::takes_no_such))]
fn takes_no_such(types: &Types, function: Option<&FunctionTy>, args: &[Operand]) -> bool
    ensures { result ≡ takes_no_such (view_types types.now) (map view_operand args.now) (option_map (λ one. view_function_type one.now) function.entry) }
{
    match function {
        None => false,
        Some(one) => list_unassignable(types, &one.params, args),
    }
}

fn list_unassignable(types: &Types, params: &Params, args: &[Operand]) -> bool
    ensures { result ≡ params_unassignable (view_types types.now) (view_params params.now) (map view_operand args.now) }
{
    match params {
        Params::Unlisted => false,
        Params::Listed(list) => some_unassignable(types, list.as_slice(), args),
    }
}

fn some_unassignable(types: &Types, params: &[Ty], args: &[Operand]) -> bool
    ensures { result ≡ some_unassignable (view_types types.now) (types_of (map view_type params.now)) (map view_operand args.now) }
{
    some_unfit(types, params, args)
}

fn some_unfit(types: &Types, params: &[Ty], args: &[Operand]) -> bool
    ensures { result ≡ some_unfit (view_types types.now) (map view_type params.now) (map view_operand args.now) }
{
    for index in 0..params.len() {
        let param = &params[index];
        let Some(arg) = args.get(index) else {
            return false;
        };
        if !may_be_given(types, param, arg) {
            return true;
        }
    }
    false
}
