//! The objects in scope (ISO C99, 6.2.1p4).

ghost use Rattle.std.specs.Prelude.{◌≡◌, ◌++◌};
ghost use Rattle.cx_mean.specs.Moves.{slots_in};
ghost use Rattle.cx_mean.specs.Operands.{Frame, slot_of};
ghost use Rattle.cx_moves.specs.Sites.{levels_of};

use crate::sites::Level;
use cx_work::{Objects, Slot, slot_in};
use mem_bytes::Ptr;

/// The objects of open statements, the innermost first, then those of parameters, then static ones.
#[derive(Clone, Copy)]
pub struct Scope<'s, 'a> {
    pub levels: &'s [Level<'a>],
    pub params: &'s [Slot],
    pub statics: &'s [Slot],
}

fn place_in_levels(levels: &[Level<'_>], object: u32) -> Option<Ptr>
    ensures { result ≡ slot_of (slots_in (levels_of levels.now)) object }
{
    let Some((level, outer)) = levels.split_last() else {
        return None;
    };
    match slot_in(level.slots.as_slice(), object) {
        Some(at) => Some(at),
        None => place_in_levels(outer, object),
    }
}

fn place_in_two(first: Option<Ptr>, slots: &[Slot], object: u32) -> Option<Ptr>
    ensures { (others : Frame) → first ≡ slot_of others object → result ≡ slot_of (others ++ slots.now) object }
{
    match first {
        Some(at) => Some(at),
        None => slot_in(slots, object),
    }
}

impl Objects for Scope<'_, '_> {
    ghost use Rattle.std.specs.Prelude.{◌++◌};
    ghost use Rattle.cx_mean.specs.Moves.{slots_in};
    ghost use Rattle.cx_moves.specs.Sites.{levels_of};

    ghost frame = { λ one. slots_in (levels_of one.levels.now) ++ one.params.now ++ one.statics.now };

    fn place_of(&self, object: u32) -> Option<Ptr> {
        let inner = place_in_levels(self.levels, object);
        let own = place_in_two(inner, self.params, object);
        place_in_two(own, self.statics, object)
    }
}
