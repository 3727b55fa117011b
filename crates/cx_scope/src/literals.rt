//! Objects of literals (ISO C99, 6.4.5, 6.5.2.5).
#![tactic(auto, unfolding(crate::specs::Views::view_scope))]

ghost use Rattle.std.specs.Prelude.{◌≡◌, length, OnOk, OnErr, option_map};
ghost use Rattle.cx_core.specs.Views.{view_type, view_puts};
ghost use Rattle.cx_rules.specs.Pieces.{with_literal, literal_made};
ghost use Rattle.cx_rules.specs.Scope.{with_made, with_made_at};
ghost use Rattle.cx_scope.specs.Changes.{cut_back, fixed_outside};
ghost use Rattle.cx_scope.specs.Views.{view_scope, view_made};

use crate::lists::{replace_at, shorten};
use crate::made::Made;
use crate::scope::Scope;
use cr_base::{Boxed, Items, Memory};
use cx_core::{Put, Ty};

impl Scope {
    /// The object of a literal comes into being. Refused only for want of memory, and then nothing changed.
    pub fn add_made(&mut self, made: Made) -> Result<(), Memory>
        ensures added { OnOk result (view_scope self.new ≡ with_made (view_made made) (view_scope self.old)) }
        ensures refused { OnErr result (view_scope self.new ≡ view_scope self.old) }
    {
        self.literals.push(made)
    }

    /// The object of a literal that was made is completed. It takes no memory.
    pub fn set_made(&mut self, index: u64, made: Made)
        ensures { view_scope self.new ≡ with_made_at index (view_made made) (view_scope self.old) }
    {
        replace_at(&mut self.literals, index as usize, made);
    }

    /// How many objects of literals there are so far.
    pub fn literal_count(&self) -> u64
        ensures { result ≡ length (view_scope self.now).literals }
    {
        self.literals.len() as u64
    }

    /// A compound literal of a type begins: its object comes into being (ISO C99, 6.5.2.5). Refused only for want of memory,
    /// and then nothing changed.
    pub fn add_literal(&mut self, ty: Boxed<Ty>) -> Result<(), Memory>
        ensures added { OnOk result (view_scope self.new ≡ with_literal (view_type ty) (view_scope self.old)) }
        ensures refused { OnErr result (view_scope self.new ≡ view_scope self.old) }
    {
        let object = self.next_object;
        if object == u32::MAX {
            return Err(Memory);
        }
        self.add_made(Made {
            object,
            ty: ty.into_inner(),
            is_text: false,
            fixed: None,
        })?;
        self.next_object = object + 1;
        Ok(())
    }

    /// The literals and the mentions behind so many go: what the operand of `sizeof` names isn't used, and its literals are
    /// no objects (ISO C99, 6.5.3.4p2). It takes no memory.
    pub fn cut_back(&mut self, literals: u64, mentions: u64)
        ensures { view_scope self.new ≡ cut_back literals mentions (view_scope self.old) }
    {
        shorten(&mut self.literals, literals as usize);
        self.mentions.truncate(mentions as usize);
    }
}

/// The object of a compound literal with what is stored in it, inside of a function or outside (ISO C99, 6.5.2.5p6). It takes
/// no memory.
pub fn literal_made(in_function: bool, number: u32, ty: Boxed<Ty>, puts: Items<Put>) -> Made
    ensures { view_made result ≡ literal_made in_function number (view_type ty) (view_puts puts) }
{
    Made {
        object: number,
        ty: ty.into_inner(),
        is_text: false,
        fixed: fixed_outside(in_function, puts),
    }
}

fn fixed_outside(in_function: bool, puts: Items<Put>) -> Option<Items<Put>>
    ensures { option_map view_puts result ≡ fixed_outside in_function (view_puts puts) }
{
    if in_function { None } else { Some(puts) }
}
