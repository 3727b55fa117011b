//! The names of a module by their keys.

ghost use Rattle.std.specs.Prelude.{◌≡◌, if◌then◌else◌, None, Some, OnOk, option_map};
ghost use Rattle.std.specs.Option.{option_copied};
ghost use Rattle.whole_given.specs.Told.{first_of, told};
ghost use Rattle.whole_keys.specs.Views.{view_key};
ghost use Rattle.whole_keys.specs.declared.key.NameKey.{NameKey};
ghost use Rattle.whole_names.specs.Keys.{same_key};

use cr_base::{Memory, Name};
use std::alloc::Global;
use std::collections::HashMap;
use whole_keys::NameKey;

/// The names of a module by their keys: the first that a key got.
#[derive(Drop)]
pub struct NameTable {
    names: HashMap<NameKey, Name>,
}

impl NameTable {
    /// No key has a name.
    pub fn new(alloc: Global) -> NameTable
        ensures { (key : NameKey) → told result key ≡ None }
    {
        NameTable {
            names: HashMap::new(alloc),
        }
    }

    /// Gives a name to a key that has none. Refused only for want of memory.
    pub fn give(&mut self, key: NameKey, name: Name) -> Result<(), Memory>
        ensures { OnOk result ((other : NameKey) → told self.new other ≡ first_of (told self.old other) (if same_key (view_key other) (view_key key) then Some name else None)) }
    {
        if self.names.contains_key(&key) {
            return Ok(());
        }
        self.names.insert(key, name)?;
        Ok(())
    }

    /// The name of a key.
    pub fn name(&self, key: NameKey) -> Option<&Name>
        ensures { option_copied result ≡ told self.now key }
    {
        self.names.get(&key)
    }
}
