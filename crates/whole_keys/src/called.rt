//! Which functions a unit calls by name (ISO C99, 6.5.2.2).

ghost use Rattle.std.specs.Prelude.{◌≡◌, ℕ, ◌==◌, ◌&&◌, ◌||◌, not, map, IfOk, OnOk};
ghost use Rattle.whole_keys.specs.Called.{is_in};
ghost use Rattle.whole_keys.specs.Views.{view_call};
ghost use Rattle.whole_names.specs.Keys.{is_called, is_called_bare, is_called_with};

use crate::calls::NamedCall;
use cr_base::{Items, Memory};
use std::alloc::Global;
use std::collections::HashSet;
use std::marker::Model;

/// The calls by name of a unit, with an index of the functions that are called with arguments and of those that are called without. Contracts see the list of the
/// calls.
#[derive(Drop)]
pub struct Called {
    calls: Items<NamedCall>,
    with_args: HashSet<u32>,
    bare: HashSet<u32>,
}

impl Model for Called {
    ghost use Rattle.std.specs.Prelude.{List, map};
    ghost use Rattle.whole_keys.specs.Called.{AreCalled};
    ghost use Rattle.whole_keys.specs.Views.{view_call};
    ghost use Rattle.whole_names.specs.Calls.{NamedCall};

    ghost Value = { List NamedCall };

    ghost view = { λ it. map view_call it.calls };

    ghost invariant = { λ it. AreCalled (map view_call it.calls) it.with_args it.bare };
}

// Notes the callee of a call with arguments.
fn note_with(called: &mut HashSet<u32>, one: NamedCall) -> Result<(), Memory>
    ensures { OnOk result ((number : ℕ) → is_in called.new number ≡ (is_in called.old number || (one.callee == number && not one.is_bare))) }
{
    if one.is_bare {
        return Ok(());
    }
    called.insert(one.callee)?;
    Ok(())
}

// The functions that are called with arguments.
fn called_with(alloc: Global, calls: &[NamedCall]) -> Result<HashSet<u32>, Memory>
    ensures { IfOk result (λ made. (number : ℕ) → is_in made number ≡ is_called_with (map view_call calls.now) number) }
{
    let mut called = HashSet::new(alloc);
    for one in calls {
        note_with(&mut called, *one)?;
    }
    Ok(called)
}

// Notes the callee of a call without arguments.
fn note_bare(called: &mut HashSet<u32>, one: NamedCall) -> Result<(), Memory>
    ensures { OnOk result ((number : ℕ) → is_in called.new number ≡ (is_in called.old number || (one.callee == number && one.is_bare))) }
{
    if !one.is_bare {
        return Ok(());
    }
    called.insert(one.callee)?;
    Ok(())
}

// The functions that are called without arguments.
fn called_bare(alloc: Global, calls: &[NamedCall]) -> Result<HashSet<u32>, Memory>
    ensures { IfOk result (λ made. (number : ℕ) → is_in made number ≡ is_called_bare (map view_call calls.now) number) }
{
    let mut called = HashSet::new(alloc);
    for one in calls {
        note_bare(&mut called, *one)?;
    }
    Ok(called)
}

impl Called {
    /// Those of a list. Refused only for want of memory.
    pub fn of(alloc: Global, calls: Items<NamedCall>) -> Result<Called, Memory>
        ensures { IfOk result (λ made. made ≡ map view_call calls) }
    {
        let with_args = called_with(alloc, calls.as_slice())?;
        let bare = called_bare(alloc, calls.as_slice())?;
        Ok(Called {
            calls,
            with_args,
            bare,
        })
    }

    /// Whether a function is called with arguments.
    pub fn is_called_with(&self, number: u32) -> bool
        ensures { result ≡ is_called_with self.now number }
    {
        self.with_args.contains(&number)
    }

    /// Whether a function is called without arguments.
    pub fn is_called_bare(&self, number: u32) -> bool
        ensures { result ≡ is_called_bare self.now number }
    {
        self.bare.contains(&number)
    }

    /// Whether a function is called.
    pub fn is_called(&self, number: u32) -> bool
        ensures { result ≡ is_called self.now number }
    {
        self.is_called_with(number) || self.is_called_bare(number)
    }
}
