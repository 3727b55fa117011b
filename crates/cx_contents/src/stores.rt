//! What initialisers store in objects before the program begins (ISO C99, 6.7.8p10).
#![tactic(auto, unfolding(cx_scope::specs::Views::view_scope))]

ghost use Rattle.std.specs.Prelude.{◌≡◌, option_map, OnOk};
ghost use Rattle.cx_contents.specs.Contents as contents;
ghost use Rattle.cx_core.specs.Views.{view_puts, view_type};
ghost use Rattle.cx_scope.specs.Views.{view_scope};

use cr_base::{Items, Memory};
use cx_core::{Put, Ty};
use cx_scope::Scope;

// What is stored is told of an object that lives as long as the program.
fn told_puts(is_static: bool, puts: Items<Put>) -> Option<Items<Put>>
    ensures { option_map view_puts result ≡ contents.told_puts is_static (view_puts puts) }
{
    if is_static { Some(puts) } else { None }
}

/// The object that was declared gets its type, and what is stored in it, where there is one. Refused only for want of memory.
pub(crate) fn store(
    scope: &mut Scope,
    number: Option<u32>,
    is_static: bool,
    ty: &Ty,
    puts: Items<Put>,
) -> Result<(), Memory>
    ensures stored { OnOk result (view_scope scope.new ≡ contents.with_stored is_static (view_type ty.now) (view_puts puts) number (view_scope scope.old)) }
    ensures types { (view_scope scope.new).types ≡ (view_scope scope.old).types }
{
    let Some(number) = number else {
        return Ok(());
    };
    let own = ty.copy(scope.alloc)?;
    scope
        .objects
        .change(number, own, told_puts(is_static, puts));
    Ok(())
}
