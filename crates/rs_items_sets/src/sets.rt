ghost use Rattle.std.specs.Prelude.{◌≡◌, ◌≤◌, ℕ, List, length, ◌++◌, ◌∷◌, [], false, if◌then◌else◌, bytes_eq, OnErr, OnOk};
ghost use Rattle.rs_items_sets.specs.Sets.{most_names, names_in, passed_in, Notes};
ghost use Rattle.rs_text.specs.Names.{is_among};

use cr_base::Memory;
use indexmap::{IndexMap, IndexSet};
use std::alloc::Global;

// The most names of a set.
const MOST_NAMES: usize = 4_294_967_295;

/// The names that are taken in a set, in the order in which they were, and for a name of C how many of its candidates with a suffix are
/// known to be gone, so that many names of one kind are found in time in proportion.
#[derive(Drop)]
pub(crate) struct NameSet {
    taken: IndexSet<Vec<u8>>,
    passed: IndexMap<Vec<u8>, u64>,
}

impl NameSet {
    /// No name is taken.
    pub(crate) fn new(alloc: Global) -> NameSet
        ensures names { names_in result.taken.keys ≡ [] }
        ensures passed { (name : List ℕ) → passed_in result.passed name ≡ 0 }
    {
        NameSet {
            taken: IndexSet::new(alloc),
            passed: IndexMap::new(alloc),
        }
    }

    /// Whether a name is taken.
    pub(crate) fn has(&self, name: &[u8]) -> bool
        ensures { result ≡ is_among (names_in self.now.taken.keys) name.now }
    {
        self.taken.contains(name)
    }

    /// How many candidates with a suffix of a name are known to be gone.
    pub(crate) fn passed(&self, name: &[u8]) -> u64
        ensures { result ≡ passed_in self.now.passed name.now }
    {
        match self.passed.get(name) {
            Some(number) => *number,
            None => 0,
        }
    }

    // Notes that so many candidates with a suffix of a name are gone.
    fn pass(&mut self, name: Vec<u8>, count: u64) -> Result<(), Memory>
        ensures names { names_in self.new.taken.keys ≡ names_in self.old.taken.keys }
        ensures passed { OnOk result ((other : List ℕ) → passed_in self.new.passed other ≡ if bytes_eq other name.items then count else passed_in self.old.passed other) }
        ensures err { OnErr result ((other : List ℕ) → passed_in self.new.passed other ≡ passed_in self.old.passed other) }
    {
        self.passed.insert(name, count)?;
        Ok(())
    }

    // Takes a name, where there aren't too many.
    fn take(&mut self, name: Vec<u8>) -> Result<(), Memory>
        requires { is_among (names_in self.old.taken.keys) name.items ≡ false }
        ensures names { OnOk result (names_in self.new.taken.keys ≡ names_in self.old.taken.keys ++ name.items ∷ []) }
        ensures few { OnOk result (length (names_in self.new.taken.keys) ≤ most_names) }
        ensures passed { self.new.passed ≡ self.old.passed }
        ensures err { OnErr result (names_in self.new.taken.keys ≡ names_in self.old.taken.keys) }
    {
        if self.taken.len() >= MOST_NAMES {
            return Err(Memory);
        }
        self.taken.insert(name)?;
        Ok(())
    }

    /// Takes a name that was found for a name of C when so many candidates with a suffix of that were gone. Refused only for want of memory, as which more names
    /// than a number of 32 bits tells count, too; then no name was taken.
    pub(crate) fn add(&mut self, wanted: Vec<u8>, passed: u64, name: Vec<u8>) -> Result<(), Memory>
        requires { is_among (names_in self.old.taken.keys) name.items ≡ false }
        ensures names { OnOk result (names_in self.new.taken.keys ≡ names_in self.old.taken.keys ++ name.items ∷ []) }
        ensures few { OnOk result (length (names_in self.new.taken.keys) ≤ most_names) }
        ensures noted { (other : List ℕ) → Notes (passed_in self.old.passed other) (passed_in self.new.passed other) wanted.items passed other }
        ensures err { OnErr result (names_in self.new.taken.keys ≡ names_in self.old.taken.keys) }
    {
        self.pass(wanted, passed)?;
        self.take(name)
    }

    /// Leaves no name taken.
    pub(crate) fn clear(&mut self)
        ensures names { names_in self.new.taken.keys ≡ [] }
        ensures passed { (name : List ℕ) → passed_in self.new.passed name ≡ 0 }
    {
        self.taken.clear();
        self.passed.clear();
    }
}
