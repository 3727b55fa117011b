//! The numbers that objects and functions of units take in the program.

ghost use Rattle.std.specs.Prelude.{◌≡◌, ℕ, ◌+◌, ◌<◌, ◌≤◌, map, Some, IfOk, OnOk, length, slice_set};
ghost use Rattle.cx_core.specs.Views.{view_object, view_outer, view_unit};
ghost use Rattle.cx_links.specs.Program.{counts_before, function_as, numbers_of, object_as};
ghost use Rattle.cx_linked.specs.Named.{IsNamed, all_numbers, function_number_among, object_number_among, units_of};
ghost use Rattle.cx_renumber.specs.Numbers.{above};
ghost use Rattle.cx_renumber.specs.Views.{number_in, view_counts, view_numbers};

use crate::named::{Named, sum};
use cr_base::{Items, Memory};
use cx_core::{CoreObject, CoreUnit, Outer};
use cx_link::counts_of;
use cx_renumber::{Counts, Numbers};
use std::alloc::Global;

// The numbers of so many things that stand behind others.
fn own_numbers(alloc: Global, before: u32, count: u32) -> Result<Items<u32>, Memory>
    ensures count { IfOk result (λ table. length table ≡ count) }
    ensures own { IfOk result (λ table. (number : ℕ) → number_in table before number ≡ before + number) }
{
    let mut table = Items::new(alloc);
    for number in 0..count {
        table.push(sum(before, number)?)?;
    }
    Ok(table)
}

fn put_object(
    named: &Named<'_>,
    before: u32,
    one: &CoreObject,
    table: &mut Items<u32>,
) -> Result<(), Memory>
    requires known { IsNamed named.now }
    requires within { one.now.object < length table.old }
    ensures { OnOk result (table.new ≡ slice_set table.old one.now.object (object_as (units_of named.now) (before + one.now.object) (Some (view_object one.now)))) }
{
    let there = named.object_number(sum(before, one.object)?, one)?;
    table.set(one.object as usize, there);
    Ok(())
}

// The numbers of the objects of a unit, by their own numbers.
fn object_numbers(
    alloc: Global,
    named: &Named<'_>,
    before: u32,
    count: u32,
    objects: &[CoreObject],
) -> Result<Items<u32>, Memory>
    requires known { IsNamed named.now }
    requires within { above (map (λ known. known.object) (map view_object objects.now)) ≤ count }
    ensures { IfOk result (λ table. (number : ℕ) → number_in table before number ≡ object_number_among (units_of named.now) before (map view_object objects.now) number) }
{
    let mut table = own_numbers(alloc, before, count)?;
    let mut place = objects.len();
    while place > 0 {
        place -= 1;
        put_object(named, before, &objects[place], &mut table)?;
    }
    Ok(table)
}

fn put_function(
    named: &Named<'_>,
    before: u32,
    one: &Outer,
    table: &mut Items<u32>,
) -> Result<(), Memory>
    requires known { IsNamed named.now }
    requires within { one.now.function < length table.old }
    ensures { OnOk result (table.new ≡ slice_set table.old one.now.function (function_as (units_of named.now) (before + one.now.function) (Some (view_outer one.now)))) }
{
    let there = named.function_number(sum(before, one.function)?, one)?;
    table.set(one.function as usize, there);
    Ok(())
}

// The numbers of the functions of a unit, by their own numbers.
fn function_numbers(
    alloc: Global,
    named: &Named<'_>,
    before: u32,
    count: u32,
    externals: &[Outer],
) -> Result<Items<u32>, Memory>
    requires known { IsNamed named.now }
    requires within { above (map (λ known. known.function) (map view_outer externals.now)) ≤ count }
    ensures { IfOk result (λ table. (number : ℕ) → number_in table before number ≡ function_number_among (units_of named.now) before (map view_outer externals.now) number) }
{
    let mut table = own_numbers(alloc, before, count)?;
    let mut place = externals.len();
    while place > 0 {
        place -= 1;
        put_function(named, before, &externals[place], &mut table)?;
    }
    Ok(table)
}

// The numbers of a unit, before which others take some.
fn numbers_of(
    alloc: Global,
    named: &Named<'_>,
    before: Counts,
    one: &CoreUnit,
) -> Result<Numbers, Memory>
    requires known { IsNamed named.now }
    ensures { IfOk result (λ numbers. (unit : ℕ) → view_counts before ≡ counts_before unit (units_of named.now)
        → view_numbers numbers ≡ numbers_of (units_of named.now) (view_unit one.now) unit) }
{
    let counts = counts_of(one)?;
    let objects = object_numbers(
        alloc,
        named,
        before.objects,
        counts.objects,
        one.objects.as_slice(),
    )?;
    let functions = function_numbers(
        alloc,
        named,
        before.functions,
        counts.functions,
        one.externals.as_slice(),
    )?;
    Ok(Numbers {
        before,
        objects,
        functions,
    })
}

/// The numbers of each unit. Refused for want of memory, and where one needs more than 32 bits.
pub(crate) fn all_numbers(alloc: Global, named: &Named<'_>) -> Result<Items<Numbers>, Memory>
    requires known { IsNamed named.now }
    ensures { IfOk result (λ all. map view_numbers all ≡ all_numbers (units_of named.now)) }
{
    let mut all = Items::new(alloc);
    for unit in 0..named.units.len() {
        let before = named.before_of(unit)?;
        all.push(numbers_of(alloc, named, before, &named.units[unit])?)?;
    }
    Ok(all)
}
