//! The numbers of nodes.

ghost use Rattle.std.specs.Prelude.{◌≡◌, IfOk};
ghost use Rattle.build_flow_instrs.specs.Views.{place_view};
ghost use Rattle.build_flow_reached.specs.Numbers.{counted_from, found_at, is_reached, node_number, numbers_from};

use crate::index::PlaceIndex;
use build_flow_instrs::FlowPlace;
use cr_base::{Items, Memory};
use std::alloc::Global;

/// The numbers of nodes: those of the places that are reached, in the order of the text.
#[derive(Drop)]
pub(crate) struct Numbers {
    numbers: Items<Option<u32>>,
    count: u32,
}

impl Numbers {
    /// The numbers of the places that are reached. Refused only for want of memory.
    pub(crate) fn of(alloc: Global, reached: &[bool]) -> Result<Numbers, Memory>
        ensures numbers { IfOk result (λ made. made.numbers ≡ numbers_from 0 reached.now) }
        ensures count { IfOk result (λ made. made.count ≡ counted_from 0 reached.now) }
    {
        let mut numbers = Items::new(alloc);
        let mut count: u32 = 0;
        for one in reached {
            if *one {
                numbers.push(Some(count))?;
                count = count.checked_add(1).ok_or(Memory)?;
            } else {
                numbers.push(None)?;
            }
        }
        Ok(Numbers { numbers, count })
    }

    // The number of the node of a place by its number.
    fn found(&self, place: u32) -> Option<u32>
        ensures { result ≡ found_at self.now.numbers place }
    {
        match self.numbers.get(place as usize) {
            Some(number) => *number,
            None => None,
        }
    }
}

/// The places of linear code, and which of them are reached.
#[derive(Clone, Copy)]
pub(crate) struct Places<'a> {
    pub(crate) index: &'a PlaceIndex,
    pub(crate) numbers: &'a Numbers,
}

impl<'a> Places<'a> {
    /// Whether a place is reached.
    pub(crate) fn is_reached(&self, alloc: Global, place: &FlowPlace) -> Result<bool, Memory>
        ensures { IfOk result (λ is. is ≡ is_reached self.now.index.now self.now.numbers.now (place_view place.now)) }
    {
        let place = self.index.number(alloc, place)?;
        Ok(self.numbers.found(place).is_some())
    }

    /// The number of the node of a place, or how many nodes there are where it isn't reached.
    pub(crate) fn number(&self, alloc: Global, place: &FlowPlace) -> Result<u32, Memory>
        ensures { IfOk result (λ number. number ≡ node_number self.now.index.now self.now.numbers.now (place_view place.now)) }
    {
        let place = self.index.number(alloc, place)?;
        match self.numbers.found(place) {
            Some(number) => Ok(number),
            None => Ok(self.numbers.count),
        }
    }
}
