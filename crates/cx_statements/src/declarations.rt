//! Declarations of objects that aren't static (ISO C99, 6.2.4p6 and 6.7.8).

ghost use Rattle.std.specs.Prelude.{◌≡◌, IfOk, option_map, unwrap_or};
ghost use Rattle.cx_access.specs.Views.{view_setting};
ghost use Rattle.cx_core.specs.Trees.{no_puts};
ghost use Rattle.cx_core.specs.Views.{view_puts};
ghost use Rattle.cx_mean.specs.Initialisers.{object_cleared};
ghost use Rattle.cx_mean.specs.Moves.{slots_in, stand};
ghost use Rattle.cx_mean.specs.Paths.{with_level};
ghost use Rattle.cx_moves.specs.Sites.{view_level, view_move, view_site};
ghost use Rattle.cx_statements.specs.Doing.{IsDeclared};

use cr_base::{Items, Memory};
use cx_access::Setting;
use cx_core::Put;
use cx_moves::{Behind, Level, Move, Scope, Site, open, putting};
use cx_puts::clear_object;
use mem_bytes::Store;
use std::alloc::Global;

// The puts of an initialiser, if there is one.
fn initialiser(puts: &Option<Items<Put>>) -> Option<&[Put]>
    ensures { option_map (λ list. view_puts list.now) result ≡ option_map view_puts puts.now }
{
    match puts {
        Some(puts) => Some(puts.as_slice()),
        None => None,
    }
}

// The puts of an initialiser; none where there is no initialiser.
fn puts_in(puts: &Option<Items<Put>>) -> &[Put]
    ensures { view_puts result.now ≡ unwrap_or (option_map view_puts puts.now) no_puts }
{
    match puts {
        Some(puts) => puts.as_slice(),
        None => &[],
    }
}

// The object of a declaration in the innermost open statements is made anew, and its first put follows.
fn cleared<'a, S: Store>(
    alloc: Global,
    store: &mut S,
    setting: &Setting<'a>,
    site: &mut Site<'a>,
    number: u32,
    puts: &'a Option<Items<Put>>,
) -> Result<Move<'a>, Memory>
    ensures next { IfOk result (λ move. IsDeclared (object_cleared (view_setting setting.now) (slots_in (view_site site.old).levels) number (option_map view_puts puts.now) (S.memory store.old)) number (option_map view_puts puts.now) (view_site site.old)
        (stand (view_move site.new move) (S.memory store.new))) }
    ensures limit { S.limit store.new ≡ S.limit store.old }
{
    let objects = Scope {
        levels: site.levels.as_slice(),
        params: &[],
        statics: &[],
    };
    clear_object(alloc, store, &objects, setting, number, initialiser(puts))?;
    putting(number, puts_in(puts), Behind::Body, site, store)
}

/// The declaration of an object is reached: it is made anew, and then the values of its puts are stored.
///
/// # Errors
///
/// `Memory` for want of memory.
pub(crate) fn declared<'a, S: Store>(
    alloc: Global,
    store: &mut S,
    setting: &Setting<'a>,
    site: &mut Site<'a>,
    level: Level<'a>,
    number: u32,
    puts: &'a Option<Items<Put>>,
) -> Result<Move<'a>, Memory>
    ensures next { IfOk result (λ move. IsDeclared (object_cleared (view_setting setting.now) (slots_in (with_level (view_level level.entry) (view_site site.old)).levels) number (option_map view_puts puts.now) (S.memory store.old)) number (option_map view_puts puts.now)
        (with_level (view_level level.entry) (view_site site.old)) (stand (view_move site.new move) (S.memory store.new))) }
    ensures limit { S.limit store.new ≡ S.limit store.old }
{
    open(site, level)?;
    cleared(alloc, store, setting, site, number, puts)
}
