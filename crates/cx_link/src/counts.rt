//! How many numbers units take.

ghost use Rattle.std.specs.Prelude.{◌≡◌, ◌+◌, map, IfOk};
ghost use Rattle.cx_core.specs.Views.{view_function, view_object, view_outer, view_unit};
ghost use Rattle.cx_renumber.specs.Numbers.{above, counts_of, no_counts, together};
ghost use Rattle.cx_renumber.specs.Views.{view_counts};

use cr_base::Memory;
use cx_core::{CoreObject, CoreUnit, Fun, Outer};
use cx_renumber::Counts;

/// A count as a number of 32 bits. Refused only where it needs more.
pub fn narrow(count: usize) -> Result<u32, Memory>
    ensures { IfOk result (λ made. made ≡ count) }
{
    match u32::try_from(count) {
        Ok(made) => Ok(made),
        Err(_) => Err(Memory),
    }
}

fn sum(first: u32, second: u32) -> Result<u32, Memory>
    ensures { IfOk result (λ made. made ≡ first + second) }
{
    match first.checked_add(second) {
        Some(made) => Ok(made),
        None => Err(Memory),
    }
}

/// No numbers.
pub fn no_counts() -> Counts
    ensures { view_counts result ≡ no_counts }
{
    Counts {
        records: 0,
        enums: 0,
        objects: 0,
        functions: 0,
    }
}

/// What both take together. Refused only where a number needs more than 32 bits.
pub fn together(first: Counts, second: Counts) -> Result<Counts, Memory>
    ensures { IfOk result (λ made. view_counts made ≡ together (view_counts first) (view_counts second)) }
{
    Ok(Counts {
        records: sum(first.records, second.records)?,
        enums: sum(first.enums, second.enums)?,
        objects: sum(first.objects, second.objects)?,
        functions: sum(first.functions, second.functions)?,
    })
}

fn above_objects(objects: &[CoreObject]) -> Result<u32, Memory>
    ensures { IfOk result (λ made. made ≡ above (map (λ known. known.object) (map view_object objects.now))) }
{
    let mut count = 0;
    for one in objects {
        count = count.max(sum(one.object, 1)?);
    }
    Ok(count)
}

fn above_functions(functions: &[Fun]) -> Result<u32, Memory>
    ensures { IfOk result (λ made. made ≡ above (map (λ known. known.function) (map view_function functions.now))) }
{
    let mut count = 0;
    for one in functions {
        count = count.max(sum(one.function, 1)?);
    }
    Ok(count)
}

fn above_outers(externals: &[Outer]) -> Result<u32, Memory>
    ensures { IfOk result (λ made. made ≡ above (map (λ known. known.function) (map view_outer externals.now))) }
{
    let mut count = 0;
    for one in externals {
        count = count.max(sum(one.function, 1)?);
    }
    Ok(count)
}

/// What a unit takes. Refused only where a number needs more than 32 bits.
pub fn counts_of(one: &CoreUnit) -> Result<Counts, Memory>
    ensures { IfOk result (λ made. view_counts made ≡ counts_of (view_unit one.now)) }
{
    let functions = above_functions(one.functions.as_slice())?;
    let externals = above_outers(one.externals.as_slice())?;
    Ok(Counts {
        records: narrow(one.types.records.len())?,
        enums: narrow(one.types.enums.len())?,
        objects: above_objects(one.objects.as_slice())?,
        functions: functions.max(externals),
    })
}
