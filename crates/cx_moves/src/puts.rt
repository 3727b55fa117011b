//! What is stored by initialisers (ISO C99, 6.7.8).

ghost use Rattle.std.specs.Prelude.{◌≡◌, Some, IfOk, MatchOption, map};
ghost use Rattle.cx_core.specs.Trees.{no_puts};
ghost use Rattle.cx_core.specs.Views.{puts_of, view_object, view_put};
ghost use Rattle.cx_mean.specs.Moves as meaning;
ghost use Rattle.cx_mean.specs.Moves.{stand};
ghost use Rattle.cx_mean.specs.State.{statics_in};
ghost use Rattle.cx_moves.specs.Moving.{behind_puts, first_put, object_puts};
ghost use Rattle.cx_moves.specs.Sites.{view_behind, view_move, view_site};
ghost use Rattle.cx_moves.specs.declared.sites.Site.{Site};

use crate::moves::{Behind, Move, Purpose, Putting};
use crate::sites::Site;
use crate::turns::next_of;
use cr_base::Memory;
use cx_core::{CoreObject, Put};
use mem_bytes::Store;

// The first put of some is evaluated.
fn first_put<'a>(object: u32, puts: &'a [Put], behind: Behind<'a>) -> Option<Move<'a>>
    ensures { MatchOption result (puts_of (map view_put puts.now) ≡ no_puts) (λ move. (site : Site) → first_put object (puts_of (map view_put puts.now)) (view_behind (view_site site) behind.entry) ≡ Some (view_move site move)) }
{
    let Some((put, others)) = puts.split_first() else {
        return None;
    };
    Some(Move::Values(
        put.value.get(),
        Purpose::Puts(Putting {
            object,
            put,
            others,
            behind,
        }),
    ))
}

fn puts_in(object: &CoreObject) -> &[Put]
    ensures { puts_of (map view_put result.now) ≡ object_puts (view_object object.now) }
{
    match &object.puts {
        Some(puts) => puts.as_slice(),
        None => &[],
    }
}

/// The puts of those static objects of a list that are defined, in order, and then `main` is called.
pub fn static_puts<'a>(objects: &'a [CoreObject]) -> Move<'a>
    ensures { (site : Site) → view_move site result ≡ meaning.static_puts (statics_in (map view_object objects.now)) }
{
    let mut others = objects;
    while let Some((object, behind)) = others.split_first() {
        match first_put(object.object, puts_in(object), Behind::Statics(behind)) {
            Some(put) => return put,
            None => {}
        }
        others = behind;
    }
    Move::CallsMain
}

fn behind_puts<'a, S: Store>(
    behind: Behind<'a>,
    site: &mut Site<'a>,
    store: &mut S,
) -> Result<Move<'a>, Memory>
    ensures next { IfOk result (λ move. stand (view_move site.new move) (S.memory store.new) ≡ behind_puts (view_behind (view_site site.old) behind.entry) (S.memory store.old)) }
    ensures limit { S.limit store.new ≡ S.limit store.old }
{
    match behind {
        Behind::Body => next_of(site, store),
        Behind::Statics(objects) => Ok(static_puts(objects)),
    }
}

/// The next put of an object, or what is behind its puts.
///
/// # Errors
///
/// `Memory` for want of memory.
pub fn putting<'a, S: Store>(
    object: u32,
    puts: &'a [Put],
    behind: Behind<'a>,
    site: &mut Site<'a>,
    store: &mut S,
) -> Result<Move<'a>, Memory>
    ensures next { IfOk result (λ move. stand (view_move site.new move) (S.memory store.new) ≡ meaning.putting object (puts_of (map view_put puts.now)) (view_behind (view_site site.old) behind.entry) (S.memory store.old)) }
    ensures limit { S.limit store.new ≡ S.limit store.old }
{
    match first_put(object, puts, behind) {
        Some(put) => Ok(put),
        None => behind_puts(behind, site, store),
    }
}
