//! The order of declarations of each unit, with the numbers of the program.

ghost use Rattle.std.specs.Prelude.{◌≡◌, map, Some, IfOk, slice_get};
ghost use Rattle.cx_core.specs.Views.{view_order, view_unit};
ghost use Rattle.cx_links.specs.Program.{numbers_of};
ghost use Rattle.cx_linked.specs.Linking.{IsLinking, units_in};
ghost use Rattle.cx_linked.specs.Named.{all_orders};
ghost use Rattle.cx_renumber.specs.Numbers.{order_there};

use crate::found::Found;
use crate::parts::Linking;
use cr_base::{Items, Memory};
use cx_core::{CoreUnit, DeclaredOrder};
use cx_renumber::order_there;
use std::alloc::Global;

impl<'a> Linking<'a> {
    fn order_of(&self, alloc: Global, unit: usize, one: &CoreUnit) -> Result<DeclaredOrder, Memory>
        requires known { IsLinking self.now }
        requires at { slice_get (units_in self.now) unit ≡ Some (view_unit one.now) }
        ensures { IfOk result (λ made. view_order made ≡ order_there (numbers_of (units_in self.now) (view_unit one.now) unit) (view_unit one.now).order) }
    {
        let order = &one.order;
        let found = Found {
            unit,
            home: one,
            thing: order,
        };
        let numbers = self.numbers_of(&found)?;
        order_there(alloc, numbers, order)
    }

    /// The order of declarations of each unit. Refused for want of memory, and where a number needs more than 32 bits.
    pub(crate) fn orders(&self, alloc: Global) -> Result<Items<DeclaredOrder>, Memory>
        requires known { IsLinking self.now }
        ensures { IfOk result (λ all. map view_order all ≡ all_orders (units_in self.now)) }
    {
        let units = self.named.units;
        let mut all = Items::new(alloc);
        for unit in 0..units.len() {
            all.push(self.order_of(alloc, unit, &units[unit])?)?;
        }
        Ok(all)
    }
}
