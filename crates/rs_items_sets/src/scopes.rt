ghost use Rattle.std.specs.Prelude.{◌≡◌, ℕ, List, ◌++◌, ◌∷◌, [], IfOk, OnErr, OnOk, option_map};
ghost use Rattle.rs_items_sets.specs.LawsNames.{AreFew};
ghost use Rattle.rs_items_sets.specs.Names.{IsRustName, candidate, free, rust_name};
ghost use Rattle.rs_items_sets.specs.Scopes.{IsFree};
ghost use Rattle.rs_items_sets.specs.Sets.{ArePassed, begun, set_of, with_name};
ghost use Rattle.rs_text.specs.Names.{is_among};

use crate::candidates::{itself, with_suffix};
use crate::scope::NameScope;
use crate::sets::NameSet;
use cr_base::{Memory, Name};
use std::alloc::Global;
use std::marker::Model;

/// The names that are taken in a module, in a function beside those, and among the fields of a record.
#[derive(Drop)]
pub struct Scopes {
    module: NameSet,
    own: NameSet,
    fields: NameSet,
}

impl Model for Scopes {
    ghost use Rattle.rs_items_sets.specs.Scopes.{HoldsAll, taken_in};
    ghost use Rattle.rs_items_sets.specs.Sets.{TakenNames};

    ghost Value = { TakenNames };

    ghost view = { λ it. taken_in it.module it.own it.fields };

    ghost invariant = { λ it. HoldsAll it.module it.own it.fields };
}

// A name that is free, and how many candidates with a suffix are gone that stand in front of it.
#[derive(Drop)]
struct Found {
    name: Vec<u8>,
    passed: u64,
}

impl Scopes {
    /// No name is taken.
    pub fn new(alloc: Global) -> Scopes
        ensures { result ≡ record { module_names = []; own_names = []; field_names = [] } }
    {
        Scopes {
            module: NameSet::new(alloc),
            own: NameSet::new(alloc),
            fields: NameSet::new(alloc),
        }
    }

    // No set has more names than can be numbered.
    #[tactic(auto, using(crate::proofs::Found::few_in))]
    fn is_few(&self, scope: NameScope)
        ensures { AreFew (set_of self.now scope) }
    {
        let _kept = &self.module;
    }

    // Whether a name is taken in a set.
    fn has(&self, scope: NameScope, name: &[u8]) -> bool
        ensures { result ≡ is_among (set_of self.now scope) name.now }
    {
        match scope {
            NameScope::Module => self.module.has(name),
            NameScope::Function => self.module.has(name) || self.own.has(name),
            NameScope::Fields => self.fields.has(name),
        }
    }

    // So many candidates with a suffix of a name are gone.
    fn passed(&self, scope: NameScope, name: &[u8]) -> u64
        ensures { ArePassed (set_of self.now scope) scope name.now result }
    {
        match scope {
            NameScope::Module => self.module.passed(name),
            NameScope::Function => self.module.passed(name).max(self.own.passed(name)),
            NameScope::Fields => self.fields.passed(name),
        }
    }

    // The first candidate with a suffix that is free, where the name itself isn't.
    fn suffixed(&self, alloc: Global, scope: NameScope, name: &[u8]) -> Result<Found, Memory>
        ensures { IfOk result (λ found. IsFree (set_of self.now scope) scope name.now found.passed found.name.items) }
    {
        for number in self.passed(scope, name)..u64::MAX {
            if let Some(bytes) = with_suffix(alloc, scope, name, number)? {
                if !self.has(scope, bytes.as_slice()) {
                    return Ok(Found {
                        name: bytes,
                        passed: number,
                    });
                }
            }
        }
        Err(Memory)
    }

    // The name itself, where it is a candidate and free.
    fn itself(
        &self,
        alloc: Global,
        scope: NameScope,
        name: &[u8],
    ) -> Result<Option<Vec<u8>>, Memory>
        ensures { IfOk result (λ one. option_map (λ v. v.items) one ≡ free (set_of self.now scope) (candidate scope name.now 0)) }
    {
        let Some(bytes) = itself(alloc, scope, name)? else {
            return Ok(None);
        };
        if self.has(scope, bytes.as_slice()) {
            return Ok(None);
        }
        Ok(Some(bytes))
    }

    // The first candidate that is free.
    fn first_free(&self, alloc: Global, scope: NameScope, name: &[u8]) -> Result<Found, Memory>
        ensures name { IfOk result (λ found. IsRustName (set_of self.now scope) scope name.now found.name.items) }
        ensures passed { IfOk result (λ found. ArePassed (set_of self.now scope) scope name.now found.passed) }
    {
        match self.itself(alloc, scope, name)? {
            Some(bytes) => Ok(Found {
                name: bytes,
                passed: 0,
            }),
            None => self.suffixed(alloc, scope, name),
        }
    }

    // Takes a name that was found free for a name of C.
    fn take(&mut self, scope: NameScope, wanted: Vec<u8>, found: Found) -> Result<(), Memory>
        requires name { IsRustName (set_of self.old scope) scope wanted.items found.name.items }
        requires passed { ArePassed (set_of self.old scope) scope wanted.items found.passed }
        ensures ok { OnOk result (self.new ≡ with_name self.old scope found.name.items) }
        ensures err { OnErr result (self.new ≡ self.old) }
    {
        let Found { name, passed } = found;
        match scope {
            NameScope::Module => self.module.add(wanted, passed, name),
            NameScope::Function => self.own.add(wanted, passed, name),
            NameScope::Fields => self.fields.add(wanted, passed, name),
        }
    }

    /// The Rust name of a name of C in a set: its first candidate that is free, which is taken from then on. Refused only for want of memory; then
    /// nothing changed.
    pub fn rust_name(
        &mut self,
        alloc: Global,
        scope: NameScope,
        name: &[u8],
    ) -> Result<Name, Memory>
        ensures name { IfOk result (λ one. one ≡ rust_name (set_of self.old scope) scope name.now) }
        ensures taken { IfOk result (λ one. self.new ≡ with_name self.old scope one) }
        ensures err { OnErr result (self.new ≡ self.old) }
    {
        self.is_few(scope);
        let found = self.first_free(alloc, scope, name)?;
        let copy = Vec::from_slice(alloc, found.name.as_slice())?;
        let wanted = Vec::from_slice(alloc, name)?;
        self.take(scope, wanted, found)?;
        Ok(Name::of(copy))
    }

    /// Leaves no name taken in the set of fields, in the set of a function but those of its module, or in any set.
    pub fn begin(&mut self, scope: NameScope)
        ensures { self.new ≡ begun scope self.old }
    {
        match scope {
            NameScope::Module => {
                self.module.clear();
                self.own.clear();
                self.fields.clear();
            }
            NameScope::Function => self.own.clear(),
            NameScope::Fields => self.fields.clear(),
        }
    }
}
