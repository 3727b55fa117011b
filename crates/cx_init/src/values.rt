//! The values that an initialiser has stored so far, and whether each stands behind the one before.

ghost use Rattle.std.specs.Prelude.{◌≡◌, [], ◌∷◌, ◌++◌, ◌↔◌, IsTrue, OnOk, OnErr};
ghost use Rattle.cx_init.specs.Ascending.{paths_of, next_behind, ascend, ends_before, ends_before_more, ascend_joined, stand_before};

use crate::paths::stands_behind;
use crate::stored::Stored;
use cr_base::{Items, Memory};
use std::alloc::Global;
use std::marker::Model;

/// What an initialiser has stored so far, the latest value last. While each value stands behind the one before, as in tables, it is
/// known without a search that nothing is stored behind them.
#[derive(Drop)]
pub struct StoredValues {
    list: Items<Stored>,
    /// Whether each stands behind the one before.
    ascends: bool,
}

impl Model for StoredValues {
    ghost use Rattle.std.specs.Coded.{coded_list};
    ghost use Rattle.std.specs.Prelude.{◌≡◌, List};
    ghost use Rattle.cx_init.specs.Ascending.{ascend, paths_of};
    ghost use Rattle.cx_init.specs.contracts.stored.Stored as contents;
    ghost use Rattle.cx_init.specs.declared.stored.Stored.{Stored};

    ghost Value = { List Stored };

    ghost coded = { coded_list contents.the_row.coded };

    ghost view = { λ values. values.list };

    ghost invariant = { λ values. values.ascends ≡ ascend (paths_of values.list) };
}

impl StoredValues {
    /// No values. It takes no memory until one is pushed.
    pub fn new(alloc: Global) -> StoredValues
        ensures { result ≡ [] }
    {
        StoredValues {
            list: Items::new(alloc),
            ascends: true,
        }
    }

    /// These values.
    pub(crate) fn of(list: Items<Stored>) -> StoredValues
        ensures { result ≡ list }
    {
        let ascends = ascend(list.as_slice());
        StoredValues { list, ascends }
    }

    /// The values as a list.
    pub(crate) fn into_items(self) -> Items<Stored>
        ensures { result ≡ self }
    {
        let StoredValues { list, ascends: _ } = self;
        list
    }

    /// All values, to read.
    pub(crate) fn as_slice(&self) -> &[Stored]
        ensures { result.now ≡ self.now }
    {
        self.list.as_slice()
    }

    /// Whether there is no value.
    pub(crate) fn is_empty(&self) -> bool
        ensures { IsTrue result ↔ (self.now ≡ []) }
    {
        self.list.is_empty()
    }

    /// Whether each value stands behind the one before, and a path behind all of them.
    pub(crate) fn stand_before(&self, later: &[u64]) -> bool
        ensures { result ≡ stand_before (paths_of self.now) later.now }
    {
        self.ascends && ends_before(self.list.as_slice(), later)
    }

    // Whether each value stands behind the one before, here and in values that come behind these.
    fn ascend_joined(&self, more: &StoredValues) -> bool
        ensures { result ≡ ascend_joined (paths_of self.now) (paths_of more.now) }
    {
        self.ascends && more.ascends && ends_before_more(self.list.as_slice(), more.list.as_slice())
    }

    /// Appends a value. Refused only for want of memory, and then nothing changed.
    pub(crate) fn push(&mut self, one: Stored) -> Result<(), Memory>
        ensures ok { OnOk result (self.new ≡ self.old ++ one ∷ []) }
        ensures err { OnErr result (self.new ≡ self.old) }
    {
        let ascends = self.stand_before(one.path.as_slice());
        self.list.push(one)?;
        self.ascends = ascends;
        Ok(())
    }

    /// Appends values, in their order. Refused only for want of memory, and then nothing changed.
    pub(crate) fn append(&mut self, more: StoredValues) -> Result<(), Memory>
        ensures ok { OnOk result (self.new ≡ self.old ++ more) }
        ensures err { OnErr result (self.new ≡ self.old) }
    {
        let ascends = self.ascend_joined(&more);
        self.list.append(more.into_items())?;
        self.ascends = ascends;
        Ok(())
    }
}

// Whether a path stands behind that of the last value, where there is one.
fn ends_before(stored: &[Stored], later: &[u64]) -> bool
    ensures { result ≡ ends_before (paths_of stored.now) later.now }
{
    match stored.split_last() {
        None => true,
        Some((last, _)) => stands_behind(last.path.as_slice(), later),
    }
}

// Whether the first of these values, where there is one, stands behind the last of those.
fn ends_before_more(those: &[Stored], these: &[Stored]) -> bool
    ensures { result ≡ ends_before_more (paths_of those.now) (paths_of these.now) }
{
    match these.first() {
        None => true,
        Some(next) => ends_before(those, next.path.as_slice()),
    }
}

// Whether the first of other values, where there is one, stands behind a path.
fn next_behind(path: &[u64], others: &[Stored]) -> bool
    ensures { result ≡ next_behind path.now (paths_of others.now) }
{
    match others.first() {
        None => true,
        Some(next) => stands_behind(path, next.path.as_slice()),
    }
}

// Whether each value stands behind the one before.
fn ascend(stored: &[Stored]) -> bool
    ensures { result ≡ ascend (paths_of stored.now) }
{
    for index in 0..stored.len() {
        if !next_behind(stored[index].path.as_slice(), &stored[index + 1..]) {
            return false;
        }
    }
    true
}
