//! The typed program of a unit (ISO C99, 6.9).

ghost use Rattle.std.specs.Prelude.{◌≡◌, [], ◌∷◌, ◌++◌, map, IfOk};
ghost use Rattle.straight_core.specs.Linked.{IsLinked};
ghost use Rattle.straight_core.specs.Views.{view_function, view_object, view_outer, view_program, view_types};
ghost use Rattle.straight_decl.specs.CoreOf as spec;
ghost use Rattle.straight_decl.specs.Given.{Gives};
ghost use Rattle.straight_tree.specs.Views.{external_view, unit_view};

use crate::declaration::{core_objects, is_putchar_declared};
use crate::function::{core_function, name_of, putchar_type};
use crate::object_names::ObjectNames;
use crate::scope::{Scope, not_built};
use cr_base::{Items, Memory, Stop};
use std::alloc::Global;
use straight_core::{CoreObject, Fun, Outer, Parts, Program, Types};
use straight_tree::{External, Unit};

/// The declaration of `putchar`, which is function 0.
fn putchar_outer(alloc: Global) -> Result<Outer, Memory>
    ensures { IfOk result (λ one. view_outer one ≡ spec.putchar_outer) }
{
    Ok(Outer {
        function: 0,
        name: name_of(alloc, b"putchar")?,
        ty: putchar_type(alloc)?,
    })
}

/// The external functions: `putchar`, where it is declared.
fn externals_of(alloc: Global, has_putchar: bool) -> Result<Items<Outer>, Memory>
    ensures { IfOk result (λ list. map view_outer list ≡ spec.externals_of has_putchar) }
{
    let mut externals = Items::new(alloc);
    if has_putchar {
        externals.push(putchar_outer(alloc)?)?;
    }
    Ok(externals)
}

/// No records and no enumerated types.
fn no_types(alloc: Global) -> Types
    ensures { view_types result ≡ spec.no_core_types }
{
    Types {
        records: Items::new(alloc),
        enums: Items::new(alloc),
        record_units: Items::new(alloc),
        enum_units: Items::new(alloc),
    }
}

/// The program of objects and the function `main`, as parts.
fn program_with(
    alloc: Global,
    has_putchar: bool,
    objects: Items<CoreObject>,
    main: Fun,
) -> Result<Parts, Memory>
    ensures { IfOk result (λ parts. view_program parts ≡ spec.program_with has_putchar (map view_object objects, view_function main)) }
{
    let mut functions = Items::new(alloc);
    functions.push(main)?;
    Ok(Parts {
        types: no_types(alloc),
        objects,
        functions,
        externals: externals_of(alloc, has_putchar)?,
    })
}

/// The objects and the function `main` of a unit's parts, the last of which is `main`.
fn core_parts(
    alloc: Global,
    unit: u32,
    has_putchar: bool,
    parts: &[External],
    last: &External,
) -> Result<Parts, Stop>
    ensures value { Gives view_program unit result (spec.parted unit has_putchar (map external_view parts.now) (external_view last.now)) }
{
    let mut scope = Scope {
        objects: ObjectNames::new(alloc),
        has_putchar,
    };
    let objects = core_objects(alloc, unit, &mut scope, parts)?;
    let main = core_function(alloc, unit, &scope, last)?;
    Ok(program_with(alloc, has_putchar, objects, main)?)
}

/// The same parts, which are typed and linked.
fn linked_parts(
    alloc: Global,
    unit: u32,
    has_putchar: bool,
    parts: &[External],
    last: &External,
) -> Result<Parts, Stop>
    ensures value { Gives view_program unit result (spec.parted unit has_putchar (map external_view parts.now) (external_view last.now)) }
    ensures linked { IfOk result (λ whole. IsLinked (view_program whole)) }
{
    core_parts(alloc, unit, has_putchar, parts, last)
}

/// The program of the same parts.
fn program_from(
    alloc: Global,
    unit: u32,
    has_putchar: bool,
    parts: &[External],
    last: &External,
) -> Result<Program, Stop>
    ensures { Gives view_program unit result (spec.parted unit has_putchar (map external_view parts.now) (external_view last.now)) }
{
    let whole = linked_parts(alloc, unit, has_putchar, parts, last)?;
    Ok(Program::new(whole.types, whole.objects, whole.functions, whole.externals))
}

/// The program of a unit's parts behind the declaration of `putchar`, if it has one.
fn program_behind(
    alloc: Global,
    unit: u32,
    has_putchar: bool,
    parts: &[External],
) -> Result<Program, Stop>
    ensures { Gives view_program unit result (spec.program_behind unit has_putchar (map external_view parts.now)) }
{
    let Some((last, firsts)) = parts.split_last() else {
        return Err(not_built(unit));
    };
    program_from(alloc, unit, has_putchar, firsts, last)
}

/// The program of a unit's parts.
fn program_of_parts(alloc: Global, unit: u32, parts: &[External]) -> Result<Program, Stop>
    ensures { Gives view_program unit result (spec.program_of_parts unit (map external_view parts.now)) }
{
    let [first, others @ ..] = parts else {
        return Err(not_built(unit));
    };
    if is_putchar_declared(first) {
        return program_behind(alloc, unit, true, others);
    }
    program_behind(alloc, unit, false, parts)
}

/// The typed and linked program of a unit with this number, from 0.
///
/// Refused by N1, for the unit and line 1, where the unit isn't one that is typed today: one that
/// declares, in this order, `int putchar(int);` or not, objects `int x;` and `int x = N;`, and
/// `int main(void)` with a body of expression statements and a last `return` with a value (ISO C99,
/// 6.5 to 6.9). Otherwise only want of memory stops it.
pub fn program_of(alloc: Global, unit: &Unit, number: u32) -> Result<Program, Stop>
    ensures typed { Gives view_program number result (spec.core_of number (unit_view unit.now)) }
{
    program_of_parts(alloc, number, unit.parts.as_slice())
}
