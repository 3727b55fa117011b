//! Types with the numbers of the program.

ghost use Rattle.std.specs.Prelude.{◌≡◌, ◌+◌, map, IfOk, option_map};
ghost use Rattle.cx_core.specs.Trees.{ty, record_type, enum_type};
ghost use Rattle.cx_core.specs.Views.{view_type, view_params, view_function_type, view_member, view_record};
ghost use Rattle.cx_renumber.specs.Numbers.{type_there, form_there, params_there, member_there, record_there};
ghost use Rattle.cx_renumber.specs.Views.{view_counts};

use crate::numbers::{Counts, number_behind};
use cr_base::{Boxed, Items, Memory, Name};
use cx_core::{FunctionTy, Member, Params, RecordTy, Ty, TyForm};
use std::alloc::Global;

// A type of this form.
fn boxed(alloc: Global, form: TyForm, is_const: bool) -> Result<Boxed<Ty>, Memory>
    ensures { IfOk result (λ made. view_type made ≡ view_type (record { form = form; is_const = is_const })) }
{
    Boxed::new(alloc, Ty { form, is_const })
}

/// A type (ISO C99, 6.2.5). Refused only for want of memory.
#[cycle(there)]
pub fn type_there(alloc: Global, before: Counts, one: &Ty) -> Result<Boxed<Ty>, Memory>
    ensures { IfOk result (λ made. view_type made ≡ type_there (view_counts before) (view_type one.now)) }
{
    let is_const = one.is_const;
    match &one.form {
        TyForm::Void => boxed(alloc, TyForm::Void, is_const),
        TyForm::Basic(which) => boxed(alloc, TyForm::Basic(*which), is_const),
        TyForm::Enum(number) => enum_there(alloc, before, *number, is_const),
        TyForm::Record(number) => record_type_there(alloc, before, *number, is_const),
        TyForm::Pointer(to) => {
            let to = type_there(alloc, before, to.get())?;
            boxed(alloc, TyForm::Pointer(to), is_const)
        }
        TyForm::Array(element, length) => {
            let element = type_there(alloc, before, element.get())?;
            boxed(alloc, TyForm::Array(element, *length), is_const)
        }
        TyForm::Function(held) => {
            let function = signature_there(alloc, before, held.get())?;
            boxed(alloc, TyForm::Function(function), is_const)
        }
    }
}

fn enum_there(
    alloc: Global,
    before: Counts,
    number: u32,
    is_const: bool,
) -> Result<Boxed<Ty>, Memory>
    ensures { IfOk result (λ made. view_type made ≡ ty (enum_type ((view_counts before).enums + number)) is_const) }
{
    let there = number_behind(before.enums, number)?;
    boxed(alloc, TyForm::Enum(there), is_const)
}

fn record_type_there(
    alloc: Global,
    before: Counts,
    number: u32,
    is_const: bool,
) -> Result<Boxed<Ty>, Memory>
    ensures { IfOk result (λ made. view_type made ≡ ty (record_type ((view_counts before).records + number)) is_const) }
{
    let there = number_behind(before.records, number)?;
    boxed(alloc, TyForm::Record(there), is_const)
}

#[cycle(there)]
fn signature_there(
    alloc: Global,
    before: Counts,
    one: &FunctionTy,
) -> Result<Boxed<FunctionTy>, Memory>
    ensures { IfOk result (λ made. view_function_type made ≡ form_there (view_counts before) (view_function_type one.now)) }
{
    let result_ty = type_there(alloc, before, &one.result_ty)?;
    let params = params_there(alloc, before, &one.params)?;
    Boxed::new(
        alloc,
        FunctionTy {
            result_ty: result_ty.into_inner(),
            params,
            is_variadic: one.is_variadic,
        },
    )
}

#[cycle(there)]
fn params_there(alloc: Global, before: Counts, one: &Params) -> Result<Params, Memory>
    ensures { IfOk result (λ made. view_params made ≡ params_there (view_counts before) (view_params one.now)) }
{
    match one {
        Params::Unlisted => Ok(Params::Unlisted),
        Params::Listed(types) => Ok(Params::Listed(types_there(alloc, before, types.as_slice())?)),
    }
}

/// Types, in their order. Refused only for want of memory.
#[cycle(there)]
pub fn types_there(alloc: Global, before: Counts, types: &[Ty]) -> Result<Items<Ty>, Memory>
    ensures { IfOk result (λ made. map view_type made ≡ map (type_there (view_counts before)) (map view_type types.now)) }
{
    let mut made = Items::new(alloc);
    for one in types {
        made.push(type_there(alloc, before, one)?.into_inner())?;
    }
    Ok(made)
}

pub(crate) fn name_copy(name: &Option<Name>) -> Result<Option<Name>, Memory>
    ensures { IfOk result (λ made. made ≡ name.now) }
{
    match name {
        Some(name) => Ok(Some(name.copy()?)),
        None => Ok(None),
    }
}

fn member_there(alloc: Global, before: Counts, one: &Member) -> Result<Member, Memory>
    ensures { IfOk result (λ made. view_member made ≡ member_there (view_counts before) (view_member one.now)) }
{
    let name = name_copy(&one.name)?;
    let there = type_there(alloc, before, &one.ty)?;
    Ok(Member {
        name,
        ty: there.into_inner(),
        bits: one.bits,
    })
}

fn members_there(alloc: Global, before: Counts, members: &[Member]) -> Result<Items<Member>, Memory>
    ensures { IfOk result (λ made. map view_member made ≡ map (member_there (view_counts before)) (map view_member members.now)) }
{
    let mut made = Items::new(alloc);
    for one in members {
        made.push(member_there(alloc, before, one)?)?;
    }
    Ok(made)
}

/// A completed structure or union type (ISO C99, 6.7.2.1). Refused only for want of memory.
pub fn record_there(alloc: Global, before: Counts, one: &RecordTy) -> Result<RecordTy, Memory>
    ensures { IfOk result (λ made. view_record made ≡ record_there (view_counts before) (view_record one.now)) }
{
    let number = number_behind(before.records, one.number)?;
    let tag = name_copy(&one.tag)?;
    let members = members_there(alloc, before, one.members.as_slice())?;
    Ok(RecordTy {
        number,
        tag,
        is_union: one.is_union,
        members,
    })
}
