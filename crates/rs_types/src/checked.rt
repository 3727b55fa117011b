//! The first item of a crate that is ill typed.

ghost use Rattle.std.specs.Prelude.{◌≡◌, [], Some, map, option_map, IfOk, IsTrue};
ghost use Rattle.rs_layout.specs.Layouts.{ModulesAreAligned};
ghost use Rattle.rs_mean.specs.Typing.{first_ill, first_ill_item, well_typed};
ghost use Rattle.rs_text.specs.Valid.{valid_crate, valid_items};
ghost use Rattle.rs_tree.specs.Views.{crate_view, module_view};
ghost use Rattle.rs_types.specs.Checked.{IfIllTyped, place_view};

use crate::items::item_stands;
use rs_tree::{Crate, Module};

/// Why a crate isn't checked.
#[derive(Drop)]
pub enum TypeFault {
    /// The item with this number of the module with this number, each from 0, is the first one that isn't well
    /// typed.
    IllTyped { module: u32, item: u32 },
    /// Want of memory: a number would pass its type's end.
    Memory,
}

/// A place in a crate.
#[derive(Clone, Copy)]
struct Place {
    unit: usize,
    item: usize,
}

// The number of the first item of a module that isn't well typed.
fn first_ill_item(modules: &[Module], unit: &Module) -> Option<usize>
    requires modules { ModulesAreAligned (map module_view modules.now) }
    requires items { IsTrue (valid_items (module_view «unit».now).items) }
    ensures { result ≡ first_ill_item (map module_view modules.now) (module_view «unit».now) [] 0 (module_view «unit».now).items }
{
    let items = unit.items.as_slice();
    for index in 0..items.len() {
        if !item_stands(modules, unit, &items[..index], &items[index]) {
            return Some(index);
        }
    }
    None
}

// The first item of a crate that isn't well typed.
fn first_ill(whole: &Crate) -> Option<Place>
    requires { IsTrue (valid_crate (crate_view whole.now)) }
    ensures { option_map place_view result ≡ first_ill (crate_view whole.now) }
{
    let modules = whole.modules.as_slice();
    for unit in 0..modules.len() {
        if let Some(item) = first_ill_item(modules, &modules[unit]) {
            return Some(Place { unit, item });
        }
    }
    None
}

/// Whether every item of a valid crate is well typed. `IllTyped` names the first one that isn't.
pub fn check_crate(whole: &Crate) -> Result<(), TypeFault>
    requires { IsTrue (valid_crate (crate_view whole.now)) }
    ensures typed { IfOk result (λ done. IsTrue (well_typed (crate_view whole.now))) }
    ensures ill { IfIllTyped result (λ place. first_ill (crate_view whole.now) ≡ Some place) }
{
    let Some(place) = first_ill(whole) else {
        return Ok(());
    };
    match (u32::try_from(place.unit), u32::try_from(place.item)) {
        (Ok(module), Ok(item)) => Err(TypeFault::IllTyped { module, item }),
        _ => Err(TypeFault::Memory),
    }
}
