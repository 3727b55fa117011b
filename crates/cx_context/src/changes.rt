//! What steps of a walk change of the scope. Each refusal is for want of memory alone, and then nothing is said of the scope.

ghost use Rattle.std.specs.Prelude.{◌≡◌, true, length, IfOk, OnOk, option_map, map};
ghost use Rattle.cx_context.specs.Views.{scope_of};
ghost use Rattle.cx_core.specs.Views.{view_type};
ghost use Rattle.cx_rules.specs.Pieces.{called, used, with_text, with_used, continued, seen_tag, tag_number, with_open_enum, with_closed_enum, with_param, declared_since};
ghost use Rattle.cx_rules.specs.Rules.{is_taken};
ghost use Rattle.cx_rules.specs.Scope.{ordinary, with_declared, with_call, entered, left};
ghost use Rattle.cx_scope.specs.Changes.{cut_back};
ghost use Rattle.cx_scope.specs.Views.{view_declared, view_meant, view_param, view_tag};

use crate::context::Context;
use cr_base::{Items, Memory, Name};
use cx_core::Ty;
use cx_scope::{Declared, Meant, Param, Tag};

/// What stood at the place where a list of members or of enumerators began.
#[derive(Clone, Copy)]
pub struct Begun {
    /// What its tag meant before, in the same scope.
    pub found: Option<Tag>,
    /// The number of the type that the list completes.
    pub number: u32,
}

impl Context {
    /// What an identifier means that is no tag (ISO C99, 6.2.1p4).
    #[tactic(auto, using(crate::proofs::Same::copied_is))]
    pub fn ordinary(&self, name: &Name) -> Option<&Meant>
        ensures { option_map (λ one. view_meant one.now) result ≡ ordinary name.now (scope_of self.now).declared }
    {
        self.scope.ordinary(name)
    }

    /// What a tag means, where it may be written without one: in the innermost scope alone, or in all.
    pub fn seen_tag(&self, alone: bool, name: &Option<Name>) -> Option<Tag>
        ensures { option_map view_tag result ≡ seen_tag alone name.now (scope_of self.now) }
    {
        self.scope.seen_tag(alone, name)
    }

    /// Whether the innermost scope declares a name that is no tag.
    pub fn is_taken(&self, name: &Name) -> bool
        ensures { result ≡ is_taken (scope_of self.now) name.now }
    {
        self.scope.is_declared_inside(name)
    }

    /// The number of the structure or union that a tag means, or of a new one. Refused only for want of memory.
    pub fn record_number(&self, found: Option<Tag>) -> Result<u32, Memory>
        ensures { IfOk result (λ number. number ≡ tag_number (length (scope_of self.now).types.records) (option_map view_tag found)) }
    {
        tag_number(self.scope.types().records.len(), found)
    }

    /// The number of the next object.
    pub fn next_object(&self) -> u32
        ensures { result ≡ (scope_of self.now).next_object }
    {
        self.scope.next_object()
    }

    /// A declaration comes into scope.
    pub fn add(&mut self, one: Declared) -> Result<(), Memory>
        ensures { OnOk result (scope_of self.new ≡ with_declared one.name (view_meant one.meant) (scope_of self.old)) }
    {
        self.scope.add(one)?;
        Ok(())
    }

    /// A name is used in an expression (ISO C99, 6.9p3, p5).
    #[tactic(auto, using(crate::proofs::Same::used_types, crate::proofs::Same::laid_by))]
    pub fn add_use(&mut self, line: u32, name: &Name) -> Result<(), Memory>
        ensures { OnOk result (scope_of self.new ≡ used line name.now (ordinary name.now (scope_of self.old).declared) (scope_of self.old)) }
    {
        self.scope.add_use(line, name)?;
        Ok(())
    }

    /// What is mentioned as a use is called with arguments of these types behind those that parameters take.
    pub fn set_call(&mut self, index: u64, types: Items<Ty>)
        ensures { scope_of self.new ≡ with_call index (map view_type types) (scope_of self.old) }
    {
        self.scope.set_call(index, types);
    }

    /// The same where the call is one by name, and nothing where it isn't.
    pub fn set_called(&mut self, by_name: bool, index: u64, types: Items<Ty>)
        ensures { scope_of self.new ≡ called by_name index (map view_type types) (scope_of self.old) }
    {
        if by_name {
            self.set_call(index, types);
        }
    }

    /// The object of a string literal comes into being (ISO C99, 6.4.5p5).
    pub fn add_text(&mut self, line: u32, bytes: &[u8]) -> Result<(), Memory>
        ensures { OnOk result (scope_of self.new ≡ with_text line bytes.now (scope_of self.old)) }
    {
        self.scope.add_text(line, bytes)?;
        Ok(())
    }

    /// How many objects of literals there are so far.
    pub fn literal_count(&self) -> u64
        ensures { result ≡ length (scope_of self.now).literals }
    {
        self.scope.literal_count()
    }

    /// How much of what has linkage the unit named so far.
    pub fn mention_count(&self) -> u64
        ensures { result ≡ length (scope_of self.now).mentions }
    {
        self.scope.mention_count()
    }

    /// The literals and the mentions behind so many go (ISO C99, 6.5.3.4p2).
    pub fn cut_back(&mut self, literals: u64, mentions: u64)
        ensures { scope_of self.new ≡ cut_back literals mentions (scope_of self.old) }
    {
        self.scope.cut_back(literals, mentions);
    }

    /// A scope begins (ISO C99, 6.2.1p4); gives how many declarations there are, and where the scope around it began.
    pub fn enter(&mut self) -> (u64, u64)
        ensures scope { scope_of self.new ≡ entered (scope_of self.old) }
        ensures marks { result ≡ (length (scope_of self.old).declared, (scope_of self.old).begins) }
    {
        let count = self.scope.mark();
        let begins = self.scope.enter(count);
        (count, begins)
    }

    /// A scope ends that began with so many declarations; the one around it began with so many.
    pub fn leave(&mut self, count: u64, begins: u64)
        ensures { scope_of self.new ≡ left count begins (scope_of self.old) }
    {
        self.scope.leave(count, begins);
    }

    /// A scope ends that began with so many declarations, and gives its own, the newest first; the one around it began with so
    /// many.
    pub fn close(&mut self, count: u64, begins: u64) -> Result<Items<Declared>, Memory>
        ensures own { IfOk result (λ newest. map view_declared newest ≡ declared_since count (scope_of self.old)) }
        ensures left { OnOk result (scope_of self.new ≡ left count begins (scope_of self.old)) }
    {
        let newest = self.scope.close(count, begins)?;
        Ok(newest)
    }

    /// A parameter comes into scope, where there is one.
    #[tactic(auto, using(crate::proofs::Same::param_types, crate::proofs::Same::laid_by))]
    pub fn add_param(&mut self, param: &Option<Param>) -> Result<(), Memory>
        ensures { OnOk result (scope_of self.new ≡ with_param (option_map view_param param.now) (scope_of self.old)) }
    {
        self.scope.add_param(param)?;
        Ok(())
    }

    /// A structure or union that is named and not there yet is declared (ISO C99, 6.7.2.3p8).
    pub fn use_record(
        &mut self,
        found: Option<Tag>,
        name: &Option<Name>,
        is_union: bool,
    ) -> Result<(), Memory>
        ensures { OnOk result (scope_of self.new ≡ with_used (option_map view_tag found) name.now is_union (scope_of self.old)) }
    {
        self.scope.use_record(found, name, is_union)?;
        Ok(())
    }

    /// The tag of an enumerated type whose list begins comes into scope, where there is one (ISO C99, 6.2.1p7); gives the
    /// number of the type, and what its tag meant before in the same scope.
    pub fn begin_enum(&mut self, name: &Option<Name>) -> Result<Begun, Memory>
        ensures scope { OnOk result (scope_of self.new ≡ with_open_enum name.now (scope_of self.old)) }
        ensures found { IfOk result (λ begun. option_map view_tag begun.found ≡ seen_tag true name.now (scope_of self.old)) }
        ensures number { IfOk result (λ begun. begun.number ≡ length (scope_of self.old).types.enums) }
    {
        let found = self.scope.seen_tag(true, name);
        let number = numbered(self.scope.types().enums.len())?;
        self.scope.open_enum(name)?;
        Ok(Begun { found, number })
    }

    /// The list of an enumerated type has ended; whether it has a negative value.
    pub fn end_enum(
        &mut self,
        name: &Option<Name>,
        number: u32,
        negative: bool,
    ) -> Result<(), Memory>
        ensures { OnOk result (scope_of self.new ≡ with_closed_enum name.now number negative (scope_of self.old)) }
    {
        self.scope.close_enum(name, number, negative)?;
        Ok(())
    }

    /// A list of members begins: the structure or union of its tag is declared, unless the list completes it (ISO C99,
    /// 6.7.2.3p6).
    pub fn begin_record(&mut self, is_union: bool, name: &Option<Name>) -> Result<Begun, Memory>
        ensures scope { OnOk result (scope_of self.new ≡
            with_used (continued (scope_of self.old).types is_union (seen_tag true name.now (scope_of self.old))) name.now is_union (scope_of self.old)) }
        ensures found { IfOk result (λ begun. option_map view_tag begun.found ≡ seen_tag true name.now (scope_of self.old)) }
        ensures number { IfOk result (λ begun. begun.number ≡
            tag_number (length (scope_of self.old).types.records) (continued (scope_of self.old).types is_union (seen_tag true name.now (scope_of self.old)))) }
    {
        let found = self.scope.seen_tag(true, name);
        let continued = self.scope.continued(is_union, found);
        let number = tag_number(self.scope.types().records.len(), continued)?;
        self.use_record(continued, name, is_union)?;
        Ok(Begun { found, number })
    }
}

// A number of something that is made.
fn numbered(count: usize) -> Result<u32, Memory>
    ensures { IfOk result (λ number. number ≡ count) }
{
    match u32::try_from(count) {
        Ok(number) => Ok(number),
        Err(_) => Err(Memory),
    }
}

// The number of what a tag declares, or of what is new.
fn tag_number(count: usize, found: Option<Tag>) -> Result<u32, Memory>
    ensures { IfOk result (λ number. number ≡ tag_number count (option_map view_tag found)) }
{
    match found {
        Some(one) => Ok(one.number),
        None => numbered(count),
    }
}
