//! Which declarations hold at a place (ISO C99, 6.2.1).

ghost use Rattle.std.specs.List.{list_any};
ghost use Rattle.std.specs.Prelude.{◌≡◌, ◌<◌, IfSome, bytes_eq, get_or, length};
ghost use Rattle.cr_base.specs.declared.refusal.Stop.TheVariants as stop;
ghost use Rattle.straight_core.specs.Views.{view_type};
ghost use Rattle.straight_decl.specs.CoreOf as spec;
ghost use Rattle.straight_decl.specs.Given.{Gives, not_built, scope_of};

use crate::object_names::ObjectNames;
use cr_base::{Items, Name, Place, Refusal, Rule, Stop};
use straight_core::{Ty, TyForm};

/// The declarations whose scope holds a place.
#[derive(Drop)]
pub(crate) struct Scope {
    /// The names of the objects: that at an index is the object with this number.
    pub(crate) objects: ObjectNames,
    /// Whether the function `putchar` is declared, which then is function 0.
    pub(crate) has_putchar: bool,
}

/// The refusal of a unit that isn't typed yet.
pub(crate) fn not_built(unit: u32) -> Stop
    ensures { result ≡ stop.Refused (not_built unit) }
{
    Stop::Refused(Refusal {
        rule: Rule::N1,
        unit,
        line: 1,
    })
}

/// The type `int`.
pub(crate) fn int_type() -> Ty
    ensures { view_type result ≡ spec.int_type }
{
    Ty {
        form: TyForm::Int,
        is_const: false,
    }
}

/// The type `void`.
pub(crate) fn void_type() -> Ty
    ensures { view_type result ≡ spec.void_type }
{
    Ty {
        form: TyForm::Void,
        is_const: false,
    }
}

/// The line of a node's first own token, from the lines of all of them.
pub(crate) fn line_in(lines: &Items<u32>) -> u32
    ensures { result ≡ get_or lines.now 0 0 }
{
    match lines.get(0) {
        Some(line) => *line,
        None => 0,
    }
}

/// The place of a node, by the lines of its own tokens.
pub(crate) fn place_in(unit: u32, lines: &Items<u32>) -> Place
    ensures { result ≡ spec.place_in unit lines.now }
{
    Place {
        unit,
        line: line_in(lines),
    }
}

/// The number of the object that a name declares.
pub(crate) fn object_named(unit: u32, name: &Name, scope: &Scope) -> Result<u32, Stop>
    ensures { Gives (λ number. number) unit result (spec.object_named name.now scope.now.objects) }
{
    let Some(index) = scope.objects.number_of(name.bytes()) else {
        return Err(not_built(unit));
    };
    match u32::try_from(index) {
        Ok(number) => Ok(number),
        Err(_) => Err(Stop::Memory),
    }
}

#[tactic(auto, using(crate::proofs::ObjectNumbers::is_named))]
fn is_object(name: &[u8], objects: &ObjectNames) -> bool
    ensures { result ≡ list_any (λ other. bytes_eq other name.now) objects.now }
{
    objects.number_of(name).is_some()
}

/// Whether a name is declared, or will be.
pub(crate) fn is_declared(name: &[u8], scope: &Scope) -> bool
    ensures { result ≡ spec.is_declared name.now (scope_of scope.now) }
{
    is_object(name, &scope.objects)
        || (scope.has_putchar && b"putchar".as_slice() == name)
        || b"main".as_slice() == name
}
