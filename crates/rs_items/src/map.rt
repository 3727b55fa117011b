ghost use Rattle.std.specs.Prelude.{◌≡◌, ℕ, ◌==◌, if◌then◌else◌, [], ◌∷◌, ◌++◌, map, None, Some, IfOk, OnErr, OnOk, option_map};
ghost use Rattle.indexmap.specs.IndexMap.{get_by};
ghost use Rattle.rs_items.specs.Known.{Begins, KeepsAll, KeepsOne, Names, same_named, view_field, view_known, view_names};
ghost use Rattle.rs_items.specs.Known as known;
ghost use Rattle.rs_items_sets.specs.Names.{rust_name};
ghost use Rattle.rs_items_sets.specs.Sets.{begun, set_of, with_name};
ghost use Rattle.rs_items.specs.Walks.{with_field_names};
ghost use Rattle.rs_items_sets.specs.declared.scope.NameScope.TheVariants.{Fields};

use crate::known::{Known, MemberField, Named};
use cr_base::{Items, Memory, Name};
use indexmap::IndexMap;
use rs_items_sets::{NameScope, Scopes};
use std::alloc::Global;

/// The names of a module of the written crate: those that are taken in it, in a function of it and among the fields of a record, and what the things of the C
/// program have become.
#[derive(Drop)]
pub struct NameMap {
    alloc: Global,
    unit: u32,
    has_bits: bool,
    scopes: Scopes,
    kept: IndexMap<Named, Known>,
    temporaries: IndexMap<u32, Known>,
    fields: IndexMap<u32, Items<MemberField>>,
}

impl NameMap {
    /// The names of the module of a unit, before any is taken or kept. `has_bits` says whether the program has a bit-field member.
    pub fn new(alloc: Global, unit: u32, has_bits: bool) -> NameMap
        ensures unit { (view_names result).unit ≡ unit }
        ensures bits { (view_names result).has_bits ≡ has_bits }
        ensures taken { (view_names result).taken ≡ record { module_names = []; own_names = []; field_names = [] } }
        ensures known { (one : Named) → (view_names result).known one ≡ None }
        ensures fields { (number : ℕ) → (view_names result).fields number ≡ None }
    {
        NameMap {
            alloc,
            unit,
            has_bits,
            scopes: Scopes::new(alloc),
            kept: IndexMap::new(alloc),
            temporaries: IndexMap::new(alloc),
            fields: IndexMap::new(alloc),
        }
    }

    /// The number of the unit of the module.
    pub fn unit(&self) -> u32
        ensures { result ≡ (view_names self.now).unit }
    {
        self.unit
    }

    /// Whether the program has a bit-field member.
    pub fn bits(&self) -> bool
        ensures { result ≡ (view_names self.now).has_bits }
    {
        self.has_bits
    }

    /// The Rust name of a name of C in a set: its first candidate that isn't taken there, which is taken from then on. Refused only for want of memory, as which
    /// more names than a number of 32 bits tells count, too; then no name was taken.
    pub fn rust_name(&mut self, c_name: &Name, scope: NameScope) -> Result<Name, Memory>
        ensures name { IfOk result (λ name. name ≡ rust_name (set_of (view_names self.old).taken scope) scope c_name.now) }
        ensures taken { IfOk result (λ name. (view_names self.new).taken ≡ with_name (view_names self.old).taken scope name) }
        ensures err { OnErr result ((view_names self.new).taken ≡ (view_names self.old).taken) }
        ensures known { (view_names self.new).known ≡ (view_names self.old).known }
        ensures unit { (view_names self.new).unit ≡ (view_names self.old).unit }
        ensures bits { (view_names self.new).has_bits ≡ (view_names self.old).has_bits }
        ensures fields { (view_names self.new).fields ≡ (view_names self.old).fields }
    {
        self.scopes.rust_name(self.alloc, scope, c_name.bytes())
    }

    /// Begins the names of another record's fields, of another function of the module, or of another module: none is taken in that set but those of its
    /// module, and in the last two cases no temporary is kept any more, since those of each function are numbered from 0.
    pub fn begin(&mut self, scope: NameScope)
        ensures taken { (view_names self.new).taken ≡ begun scope (view_names self.old).taken }
        ensures known { Begins scope (view_names self.old) (view_names self.new) }
        ensures unit { (view_names self.new).unit ≡ (view_names self.old).unit }
        ensures bits { (view_names self.new).has_bits ≡ (view_names self.old).has_bits }
        ensures fields { (view_names self.new).fields ≡ (view_names self.old).fields }
    {
        self.scopes.begin(scope);
        match scope {
            NameScope::Module | NameScope::Function => self.temporaries.clear(),
            NameScope::Fields => {}
        }
    }

    /// The name of a field, which is taken among those of fields from then on.
    pub(crate) fn field_name(&mut self, wanted: &Name) -> Result<Name, Memory>
        ensures name { IfOk result (λ name. name ≡ rust_name self.old.scopes.field_names Fields wanted.now) }
        ensures taken { IfOk result (λ name. self.new ≡ with_field_names self.old (self.old.scopes.field_names ++ name ∷ [])) }
        ensures rest { self.new ≡ with_field_names self.old self.new.scopes.field_names }
    {
        self.scopes
            .rust_name(self.alloc, NameScope::Fields, wanted.bytes())
    }

    /// Leaves no name taken among those of fields.
    pub(crate) fn begin_fields(&mut self)
        ensures { self.new ≡ with_field_names self.old [] }
    {
        self.scopes.begin(NameScope::Fields);
    }

    /// Keeps the fields of the members of a record.
    pub(crate) fn keep_fields(
        &mut self,
        number: u32,
        members: Items<MemberField>,
    ) -> Result<(), Memory>
        ensures fields { OnOk result ((other : ℕ) → (view_names self.new).fields other ≡
            if other == number then Some (map view_field members) else (view_names self.old).fields other) }
        ensures err { OnErr result ((other : ℕ) → (view_names self.new).fields other ≡ (view_names self.old).fields other) }
        ensures rest { self.new ≡ record self.old { fields = self.new.fields } }
    {
        self.fields.insert(number, members)?;
        Ok(())
    }

    /// The fields of the members of a record that was written, in their order, or None where none of that number was.
    pub fn fields(&self, number: u32) -> Option<&Items<MemberField>>
        ensures { option_map (λ list. map view_field list.now) result ≡ (view_names self.now).fields number }
    {
        self.fields.get(&number)
    }

    // Keeps what a temporary has become.
    fn keep_temporary(&mut self, number: u32, one: Known) -> Result<(), Memory>
        ensures known { OnOk result ((other : ℕ) → option_map view_known (get_by (λ key. other == key) self.new.temporaries) ≡
            if other == number then Some (view_known one) else option_map view_known (get_by (λ key. other == key) self.old.temporaries)) }
        ensures err { OnErr result ((other : ℕ) → option_map view_known (get_by (λ key. other == key) self.new.temporaries) ≡
            option_map view_known (get_by (λ key. other == key) self.old.temporaries)) }
        ensures others { self.new ≡ record self.old { temporaries = self.new.temporaries } }
    {
        self.temporaries.insert(number, one)?;
        Ok(())
    }

    // Keeps what a thing has become that is no temporary.
    fn keep_other(&mut self, named: Named, one: Known) -> Result<(), Memory>
        ensures known { OnOk result ((other : Named) → option_map view_known (get_by (same_named other) self.new.kept) ≡
            if same_named other named then Some (view_known one) else option_map view_known (get_by (same_named other) self.old.kept)) }
        ensures err { OnErr result ((other : Named) → option_map view_known (get_by (same_named other) self.new.kept) ≡
            option_map view_known (get_by (same_named other) self.old.kept)) }
        ensures others { self.new ≡ record self.old { kept = self.new.kept } }
    {
        self.kept.insert(named, one)?;
        Ok(())
    }

    /// Keeps what a thing has become. It is the newest entry of that thing. Refused only for want of memory; then nothing changed.
    pub fn keep(&mut self, one: Known) -> Result<(), Memory>
        ensures known { OnOk result (KeepsOne (view_names self.old) (view_names self.new) (view_known one)) }
        ensures err { OnErr result (KeepsAll (view_names self.old) (view_names self.new)) }
        ensures taken { (view_names self.new).taken ≡ (view_names self.old).taken }
        ensures unit { (view_names self.new).unit ≡ (view_names self.old).unit }
        ensures bits { (view_names self.new).has_bits ≡ (view_names self.old).has_bits }
        ensures fields { (view_names self.new).fields ≡ (view_names self.old).fields }
    {
        match one.named {
            Named::Temporary(number) => self.keep_temporary(number, one),
            named => self.keep_other(named, one),
        }
    }

    /// The newest entry of a thing, or none where none is kept.
    pub fn known(&self, named: Named) -> Option<&Known>
        ensures { option_map (λ one. view_known one.now) result ≡ (view_names self.now).known named }
    {
        match named {
            Named::Temporary(number) => self.temporaries.get(&number),
            other => self.kept.get(&other),
        }
    }
}
