//! Numbers of objects, and the objects of compound literals (ISO C99, 6.5.2.5).

ghost use Rattle.std.specs.Prelude.{◌≡◌, length, OnOk, IfOk};
ghost use Rattle.cx_context.specs.Views.{scope_of};
ghost use Rattle.cx_core.specs.Views.{view_type, view_puts};
ghost use Rattle.cx_rules.specs.Pieces.{with_literal, literal_made};
ghost use Rattle.cx_rules.specs.Scope.{with_made_at, with_object_number};

use crate::context::Context;
use cr_base::{Boxed, Items, Memory};
use cx_core::{Put, Ty};
use cx_scope::literal_made;

/// What stood at the place where a compound literal began.
#[derive(Clone, Copy)]
pub struct LiteralBegun {
    /// How many objects of literals there were.
    pub literals: u64,
    /// The number of its object.
    pub object: u32,
}

impl Context {
    /// The number of an object is used up. Refused only for want of memory.
    pub fn count_object(&mut self) -> Result<(), Memory>
        ensures { OnOk result (scope_of self.new ≡ with_object_number (scope_of self.old)) }
    {
        if self.scope.next_object() == u32::MAX {
            return Err(Memory);
        }
        let _number = self.scope.fresh();
        Ok(())
    }

    /// Whether the place stands inside of a function.
    pub fn is_inside(&self) -> bool
        ensures { result ≡ (scope_of self.now).in_function }
    {
        self.scope.is_inside()
    }

    /// A compound literal of a type begins: its object comes into being. Refused only for want of memory.
    pub fn begin_literal(&mut self, ty: Boxed<Ty>) -> Result<LiteralBegun, Memory>
        ensures scope { OnOk result (scope_of self.new ≡ with_literal (view_type ty) (scope_of self.old)) }
        ensures literals { IfOk result (λ begun. begun.literals ≡ length (scope_of self.old).literals) }
        ensures object { IfOk result (λ begun. begun.object ≡ (scope_of self.old).next_object) }
    {
        let literals = self.scope.literal_count();
        let object = self.scope.next_object();
        self.scope.add_literal(ty)?;
        Ok(LiteralBegun { literals, object })
    }

    /// The object of a compound literal gets its type, and outside of functions what is stored in it.
    pub fn end_literal(
        &mut self,
        begun: LiteralBegun,
        is_inside: bool,
        ty: Boxed<Ty>,
        puts: Items<Put>,
    )
        ensures { scope_of self.new ≡ with_made_at begun.literals (literal_made is_inside begun.object (view_type ty) (view_puts puts)) (scope_of self.old) }
    {
        let made = literal_made(is_inside, begun.object, ty, puts);
        self.scope.set_made(begun.literals, made);
    }
}
