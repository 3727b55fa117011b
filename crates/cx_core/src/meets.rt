ghost use Rattle.std.specs.Prelude.{◌≡◌, ◌&&◌, map, IfOk};
ghost use Rattle.cx_core.specs.Compatible.{of_two_units, meet_in_basic, enums_agree, lengths_agree, are_kept_by_promotions, is_kept_by_promotions, in_pairs, are_of_two, same_basics};
ghost use Rattle.cx_core.specs.Conversions.{same_basic};
ghost use Rattle.cx_core.specs.Needed.{needed, needed_forms, needed_unqualified, needed_params, needed_lists, pair_needed, with_pair, gathered, answer};
ghost use Rattle.cx_core.specs.Trees.{form_of_type};
ghost use Rattle.cx_core.specs.Views.{view_type, view_types, view_function_type, view_params, types_of};

use crate::compatibility::RecordPair;
use crate::conversions::{basic_of, basic_of_enum, promoted_basic};
use crate::ty::{Basic, FunctionTy, Params, Ty, TyForm, Types};
use cr_base::{Items, Memory};

// Whether two types can be compatible; the pairs of records that have to be so are put behind the others.
#[cycle(meet)]
pub(crate) fn types_meet(
    types: &Types,
    a: &Ty,
    b: &Ty,
    pairs: &mut Items<RecordPair>,
) -> Result<bool, Memory>
    ensures { IfOk result (λ found. answer found pairs.new ≡
        gathered pairs.old (needed (view_types types.now) (view_type a.now) (view_type b.now))) }
{
    if a.is_const != b.is_const {
        return Ok(false);
    }
    forms_meet(types, a, b, pairs)
}

// The same of the unqualified versions.
#[cycle(meet)]
fn forms_meet(types: &Types, a: &Ty, b: &Ty, pairs: &mut Items<RecordPair>) -> Result<bool, Memory>
    ensures { IfOk result (λ found. answer found pairs.new ≡
        gathered pairs.old (needed_unqualified (view_types types.now) (view_type a.now) (view_type b.now))) }
{
    match (&a.form, &b.form) {
        (TyForm::Void, TyForm::Void) => Ok(true),
        (TyForm::Enum(first), TyForm::Enum(second)) => Ok(enums_agree(types, *first, *second)),
        (TyForm::Pointer(first), TyForm::Pointer(second)) => types_meet(
            types,
            first.get(),
            second.get(),
            pairs,
        ),
        (TyForm::Array(first, length), TyForm::Array(second, other_length)) => {
            if !lengths_agree(*length, *other_length) {
                return Ok(false);
            }
            types_meet(types, first.get(), second.get(), pairs)
        }
        (TyForm::Record(first), TyForm::Record(second)) => pair_needed(*first, *second, pairs),
        (TyForm::Function(first), TyForm::Function(second)) => functions_meet(
            types,
            first.get(),
            second.get(),
            pairs,
        ),
        // Two integer types of which one is basic at least, or types of two kinds.
        _ => Ok(meet_in_basic(types, a, b)),
    }
}

// The same of two function types.
#[cycle(meet)]
#[tactic(auto, using(crate::proofs::Gathers::gathered_met, crate::proofs::Gathers::gathered_none))]
fn functions_meet(
    types: &Types,
    a: &FunctionTy,
    b: &FunctionTy,
    pairs: &mut Items<RecordPair>,
) -> Result<bool, Memory>
    ensures { IfOk result (λ found. answer found pairs.new ≡
        gathered pairs.old (needed_forms (view_types types.now) (view_function_type a.now) (view_function_type b.now))) }
{
    if !types_meet(types, &a.result_ty, &b.result_ty, pairs)? {
        return Ok(false);
    }
    let found = params_meet(
        types,
        &a.params,
        a.is_variadic,
        &b.params,
        b.is_variadic,
        pairs,
    )?;
    Ok(found)
}

#[cycle(meet)]
fn params_meet(
    types: &Types,
    a: &Params,
    a_more: bool,
    b: &Params,
    b_more: bool,
    pairs: &mut Items<RecordPair>,
) -> Result<bool, Memory>
    ensures { IfOk result (λ found. answer found pairs.new ≡
        gathered pairs.old (needed_params (view_types types.now) (view_params a.now) a_more (view_params b.now) b_more)) }
{
    match (a, b) {
        (Params::Unlisted, Params::Unlisted) => Ok(true),
        (Params::Unlisted, Params::Listed(params)) => Ok(
            !b_more && are_kept_by_promotions(params.as_slice()),
        ),
        (Params::Listed(params), Params::Unlisted) => Ok(
            !a_more && are_kept_by_promotions(params.as_slice()),
        ),
        (Params::Listed(first), Params::Listed(second)) => {
            if a_more != b_more {
                return Ok(false);
            }
            lists_meet(types, first.as_slice(), second.as_slice(), pairs)
        }
    }
}

#[cycle(meet)]
fn lists_meet(
    types: &Types,
    a: &[Ty],
    b: &[Ty],
    pairs: &mut Items<RecordPair>,
) -> Result<bool, Memory>
    ensures { IfOk result (λ found. answer found pairs.new ≡
        gathered pairs.old (needed_lists (view_types types.now) (types_of (map view_type a.now)) (types_of (map view_type b.now)))) }
{
    for index in 0..a.len() {
        let first = &a[index];
        let Some(second) = b.get(index) else {
            return Ok(false);
        };
        if !forms_meet(types, first, second, pairs)? {
            return Ok(false);
        }
    }
    Ok(a.len() == b.len())
}

// The pair of two records is put behind the others, where they are different and it isn't there.
fn pair_needed(first: u32, second: u32, pairs: &mut Items<RecordPair>) -> Result<bool, Memory>
    ensures { IfOk result (λ found. answer found pairs.new ≡ gathered pairs.old (pair_needed first second)) }
{
    if first == second || is_among(pairs.as_slice(), first, second) {
        return Ok(true);
    }
    pairs.push(RecordPair { first, second })?;
    Ok(true)
}

fn is_among(pairs: &[RecordPair], first: u32, second: u32) -> bool
    ensures { result ≡ in_pairs pairs.now first second }
{
    for pair in pairs {
        if pair.first == first && pair.second == second {
            return true;
        }
    }
    false
}

/// Whether the lengths of two compatible arrays go together: one isn't known, or they are the same (ISO C99,
/// 6.7.5.2p6).
pub fn lengths_agree(first: Option<u64>, second: Option<u64>) -> bool
    ensures { result ≡ lengths_agree first second }
{
    match (first, second) {
        (Some(count), Some(other)) => count == other,
        _ => true,
    }
}

/// Whether two integer types are, or are compatible with, one basic type (ISO C99, 6.7.2.2p4).
pub fn meet_in_basic(types: &Types, a: &Ty, b: &Ty) -> bool
    ensures { result ≡ meet_in_basic (view_types types.now) (form_of_type (view_type a.now)) (form_of_type (view_type b.now)) }
{
    same_basics(basic_of(a, types), basic_of(b, types))
}

fn same_basics(first: Option<Basic>, second: Option<Basic>) -> bool
    ensures { result ≡ same_basics first second }
{
    match (first, second) {
        (Some(one), Some(other)) => same_basic(one, other),
        _ => false,
    }
}

/// Whether two basic types are the same.
#[tactic(auto, unfolding(crate::specs::Conversions::same_basic))]
pub fn same_basic(first: Basic, second: Basic) -> bool
    ensures { result ≡ same_basic first second }
{
    first == second
}

/// Whether two enumerated types are the same, or of two units and compatible with one basic type (ISO C99,
/// 6.7.2.2p4).
pub fn enums_agree(types: &Types, first: u32, second: u32) -> bool
    ensures { result ≡ enums_agree (view_types types.now) first second }
{
    if first == second {
        return true;
    }
    of_two_units(types.enum_units.as_slice(), first, second)
        && same_basics(basic_of_enum(types, first), basic_of_enum(types, second))
}

// Whether two numbers belong to two units.
pub(crate) fn of_two_units(units: &[u32], first: u32, second: u32) -> bool
    ensures { result ≡ of_two_units units.now first second }
{
    match (units.get(first as usize), units.get(second as usize)) {
        (Some(unit), Some(other)) => *unit != *other,
        _ => false,
    }
}

/// Whether arguments of these types are what the default promotions leave as they are (ISO C99, 6.7.5.3p15).
pub fn are_kept_by_promotions(params: &[Ty]) -> bool
    ensures { result ≡ are_kept_by_promotions (types_of (map view_type params.now)) }
{
    for param in params {
        if !is_kept_by_promotions(param) {
            return false;
        }
    }
    true
}

fn is_kept_by_promotions(param: &Ty) -> bool
    ensures { result ≡ is_kept_by_promotions (form_of_type (view_type param.now)) }
{
    match &param.form {
        TyForm::Basic(which) => same_basic(promoted_basic(*which, None), *which),
        _ => true,
    }
}
