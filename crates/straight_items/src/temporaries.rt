ghost use Rattle.std.specs.Prelude.{◌≡◌, [], IfOk, OnErr};
ghost use Rattle.straight_items.specs.Search.{temporary, IsNextFree};
ghost use Rattle.straight_items.specs.Temporaries.{AreApart, Makes};
ghost use Rattle.straight_rust_tree.specs.Names.{is_among};

use cr_base::{Items, Memory, Name};
use std::alloc::Global;
use std::marker::Model;

/// The names of a function's temporaries, which are numbered from 0 on: `t`, `t_0`, `t_1` and so on, as
/// far as they aren't taken. Contracts see the names that are taken by others, and those of the
/// temporaries. The names of temporaries are identifiers that differ from one another and from those
/// that are taken.
#[derive(Debug, Drop)]
pub struct Temporaries {
    alloc: Global,
    taken: Items<Name>,
    names: Items<Name>,
    // The candidates before this number are taken, and those from it on are no temporaries.
    next: u32,
}

impl Model for Temporaries {
    ghost use Rattle.straight_items.specs.Search.{HoldsNames};
    ghost use Rattle.straight_items.specs.Temporaries.{TemporaryNames};

    ghost Value = { TemporaryNames };

    ghost view = { λ it. record { taken = it.taken; names = it.names } };

    ghost invariant = { λ it. HoldsNames it.taken it.names it.next };
}

impl Temporaries {
    /// No temporaries, beside these names that are taken.
    pub fn new(alloc: Global, taken: Items<Name>) -> Temporaries
        ensures { result ≡ record { taken = taken; names = [] } }
    {
        Temporaries {
            alloc,
            taken,
            names: Items::new(alloc),
            next: 0,
        }
    }

    /// Makes the next temporary and gives its number. Refused only for want of memory, as which a number
    /// past those of 32 bits counts too; then nothing changed.
    pub fn fresh(&mut self) -> Result<u32, Memory>
        ensures ok { IfOk result (λ number. Makes self.old self.new number) }
        ensures err { OnErr result (self.new ≡ self.old) }
    {
        let Ok(number) = u32::try_from(self.names.len()) else {
            return Err(Memory);
        };
        let taken = self.taken.as_slice();
        let found = first_free(self.alloc, taken, self.next)?;
        self.names.push(found.name)?;
        self.next = found.number + 1;
        Ok(number)
    }

    /// The names of the temporaries, by their numbers: identifiers that differ from one another and from
    /// those that are taken.
    pub fn names(&self) -> &[Name]
        ensures value { result.now ≡ self.now.names }
        ensures apart { AreApart self.now.taken self.now.names }
    {
        self.names.as_slice()
    }
}

// A candidate for the name of a temporary, by its number.
fn temporary(alloc: Global, number: u32) -> Result<Name, Memory>
    ensures { IfOk result (λ name. name ≡ temporary number) }
{
    if number == 0 {
        return Ok(Name::of(Vec::from_slice(alloc, b"t")?));
    }
    let suffix = number - 1;
    let text = format!(in alloc; "t_{suffix}")?;
    Ok(Name::of(text.into_bytes()))
}

// A candidate that is free.
#[derive(Drop)]
struct Found {
    name: Name,
    // Its number among the candidates.
    number: u32,
}

// The first candidate from a number on that others haven't taken. From the number on no candidate is a
// temporary, so these aren't looked at.
fn first_free(alloc: Global, taken: &[Name], from: u32) -> Result<Found, Memory>
    ensures { IfOk result (λ found. IsNextFree taken.now from found.name found.number) }
{
    for number in from..u32::MAX {
        let name = temporary(alloc, number)?;
        if !is_taken(taken, &name) {
            return Ok(Found { name, number });
        }
    }
    Err(Memory)
}

// Whether a name is among others.
fn is_taken(names: &[Name], name: &Name) -> bool
    ensures { result ≡ is_among names.now name.now }
{
    for other in names {
        if other.bytes() == name.bytes() {
            return true;
        }
    }
    false
}
