//! Objects, functions and mentions with the numbers of the program.

ghost use Rattle.std.specs.Prelude.{◌≡◌, map, IfOk};
ghost use Rattle.cx_core.specs.Views.{view_does, view_function, view_mention, view_object, view_outer};
ghost use Rattle.cx_renumber.specs.Numbers.{does_there, function_there, mention_there, object_there, outer_there};
ghost use Rattle.cx_renumber.specs.Views.{view_counts, view_numbers};

use crate::numbers::{Counts, Numbers};
use crate::statements::{option_puts_there, stmt_there};
use crate::types::{name_copy, type_there, types_there};
use cr_base::{Memory, Place};
use cx_core::{CoreObject, Does, Fun, Mention, Outer};
use std::alloc::Global;

/// An object of the unit, which keeps the number of its unit. Refused only for want of memory.
pub fn object_there(
    alloc: Global,
    numbers: &Numbers,
    one: &CoreObject,
) -> Result<CoreObject, Memory>
    ensures { IfOk result (λ made. view_object made ≡ object_there (view_numbers numbers.now) (view_object one.now)) }
{
    let object = numbers.object_for(one.object)?;
    let name = name_copy(&one.name)?;
    let there = type_there(alloc, numbers.before, &one.ty)?;
    let puts = option_puts_there(alloc, numbers, &one.puts)?;
    Ok(CoreObject {
        object,
        unit: one.unit,
        name,
        is_text: one.is_text,
        ty: there.into_inner(),
        linkage: one.linkage,
        puts,
    })
}

/// A function that the unit defines. Refused only for want of memory.
pub fn function_there(alloc: Global, numbers: &Numbers, one: &Fun) -> Result<Fun, Memory>
    ensures { IfOk result (λ made. view_function made ≡ function_there (view_numbers numbers.now) (view_function one.now)) }
{
    let function = numbers.function_for(one.function)?;
    let name = one.name.copy()?;
    let there = type_there(alloc, numbers.before, &one.ty)?;
    let params = numbers.objects_for(alloc, one.params.as_slice())?;
    let body = stmt_there(alloc, numbers, &one.body)?;
    Ok(Fun {
        function,
        name,
        unit: one.unit,
        linkage: one.linkage,
        ty: there.into_inner(),
        params,
        body: body.into_inner(),
    })
}

/// A function that the unit declares and doesn't define. Refused only for want of memory.
pub fn outer_there(alloc: Global, numbers: &Numbers, one: &Outer) -> Result<Outer, Memory>
    ensures { IfOk result (λ made. view_outer made ≡ outer_there (view_numbers numbers.now) (view_outer one.now)) }
{
    let function = numbers.function_for(one.function)?;
    let name = one.name.copy()?;
    let there = type_there(alloc, numbers.before, &one.ty)?;
    Ok(Outer {
        function,
        name,
        linkage: one.linkage,
        ty: there.into_inner(),
    })
}

fn does_there(alloc: Global, before: Counts, does: &Does) -> Result<Does, Memory>
    ensures { IfOk result (λ made. view_does made ≡ does_there (view_counts before) (view_does does.now)) }
{
    match does {
        Does::Declares => Ok(Does::Declares),
        Does::Defines => Ok(Does::Defines),
        Does::Calls(trailing) => {
            Ok(Does::Calls(types_there(alloc, before, trailing.as_slice())?))
        }
        Does::Uses => Ok(Does::Uses),
    }
}

/// What the unit with this number does with a thing that it names. Refused only for want of memory.
pub fn mention_there(
    alloc: Global,
    before: Counts,
    unit: u32,
    one: &Mention,
) -> Result<Mention, Memory>
    ensures { IfOk result (λ made. view_mention made ≡ mention_there (view_counts before) unit (view_mention one.now)) }
{
    let name = one.name.copy()?;
    let there = type_there(alloc, before, &one.ty)?;
    let does = does_there(alloc, before, &one.does)?;
    Ok(Mention {
        name,
        place: Place {
            unit,
            line: one.place.line,
        },
        ty: there.into_inner(),
        linkage: one.linkage,
        does,
    })
}
