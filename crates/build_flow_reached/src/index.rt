//! The numbers of places, in the order of the text.

ghost use Rattle.std.specs.Prelude.{◌≡◌, map, IfOk, OnOk};
ghost use Rattle.build_flow_instrs.specs.Views.{instr_view, place_view};
ghost use Rattle.build_flow_nodes.specs.Points as points;
ghost use Rattle.build_flow_reached.specs.Index.{edge_key, key_of, number_in, IsHeld, IsNoted, IsNumbered};

use build_flow_instrs::{FlowPlace, Instr, copy_path, part_path};
use cr_base::{Items, Memory};
use indexmap::IndexMap;
use std::alloc::Global;

/// The number of each place to which control may go: that of its first mark, from 0 on.
#[derive(Drop)]
pub(crate) struct PlaceIndex {
    numbers: IndexMap<Vec<u32>, u32>,
    count: u32,
}

fn edge_key(alloc: Global, choice: &[u32], target: &[u32]) -> Result<Vec<u32>, Memory>
    ensures { IfOk result (λ key. key.items ≡ edge_key choice.now target.now) }
{
    let Ok(length) = u32::try_from(choice.len()) else {
        return Err(Memory);
    };
    let mut key = Items::new(alloc);
    key.push(4)?;
    key.push(length)?;
    key.append(copy_path(alloc, choice)?)?;
    key.append(copy_path(alloc, target)?)?;
    Ok(key.into_vec())
}

// What a place is found by: its kind, and then the paths of its statements.
fn key_of(alloc: Global, place: &FlowPlace) -> Result<Vec<u32>, Memory>
    ensures { IfOk result (λ key. key.items ≡ key_of (place_view place.now)) }
{
    match place {
        FlowPlace::Statement(path) => Ok(part_path(alloc, 0, path.as_slice())?.into_vec()),
        FlowPlace::Test(path) => Ok(part_path(alloc, 1, path.as_slice())?.into_vec()),
        FlowPlace::Third(path) => Ok(part_path(alloc, 2, path.as_slice())?.into_vec()),
        FlowPlace::End => Ok(part_path(alloc, 3, &[])?.into_vec()),
        FlowPlace::Edge { choice, target } => edge_key(alloc, choice.as_slice(), target.as_slice()),
    }
}

impl PlaceIndex {
    /// The number of a place, or how many marks there are where none is of it.
    pub(crate) fn number(&self, alloc: Global, place: &FlowPlace) -> Result<u32, Memory>
        ensures { IfOk result (λ number. number ≡ number_in self.now (place_view place.now)) }
    {
        let key = key_of(alloc, place)?;
        match self.numbers.get(key.as_slice()) {
            Some(number) => Ok(*number),
            None => Ok(self.count),
        }
    }

    // A place has the next number, unless it has one.
    fn note(&mut self, alloc: Global, place: &FlowPlace) -> Result<(), Memory>
        ensures { OnOk result (IsNoted self.old self.new (place_view place.now)) }
    {
        let Some(count) = self.count.checked_add(1) else {
            return Err(Memory);
        };
        let key = key_of(alloc, place)?;
        self.put(key)?;
        self.count = count;
        Ok(())
    }

    // What isn't found has the next number.
    fn put(&mut self, key: Vec<u32>) -> Result<(), Memory>
        ensures held { OnOk result ((place : points.FlowPlace) → key.items ≡ key_of place → IsHeld self.old.numbers self.new.numbers self.old.count place) }
        ensures count { OnOk result (self.new.count ≡ self.old.count) }
    {
        if self.numbers.contains_key(key.as_slice()) {
            return Ok(());
        }
        let count = self.count;
        self.numbers.insert(key, count)?;
        Ok(())
    }

    /// How many marks there are.
    pub(crate) fn count(&self) -> u32
        ensures { result ≡ self.now.count }
    {
        self.count
    }

    /// The numbers of the places of linear code. Refused only for want of memory, as which more marks than a number of 32 bits tells count, too.
    pub(crate) fn of(alloc: Global, code: &[Instr]) -> Result<PlaceIndex, Memory>
        ensures { IfOk result (λ index. IsNumbered index (map instr_view code.now)) }
    {
        let mut index = PlaceIndex {
            numbers: IndexMap::new(alloc),
            count: 0,
        };
        for instr in code {
            if let Instr::Marks(place) = instr {
                index.note(alloc, place)?;
            }
        }
        Ok(index)
    }
}
