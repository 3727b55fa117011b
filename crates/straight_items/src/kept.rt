ghost use Rattle.std.specs.Prelude.{◌≡◌, ◌||◌, ◌&&◌, not};
ghost use Rattle.straight_items.specs.Names.{is_main_in, is_excluded, keeps_name};

use crate::scope::NameScope;
use crate::words::{is_keyword, is_path_word, is_reserved};

/// Whether a name of C is its own Rust name where nothing is taken: it is no keyword of Rust and not kept
/// for something else.
pub fn keeps_name(scope: NameScope, name: &[u8]) -> bool
    ensures { result ≡ keeps_name scope name.now }
{
    !is_excluded(scope, name) && !is_keyword(name)
}

// Whether a name is no candidate for itself.
fn is_excluded(scope: NameScope, name: &[u8]) -> bool
    ensures { result ≡ is_excluded scope name.now }
{
    if is_path_word(name) {
        return true;
    }
    is_reserved(name) || is_main_in(scope, name)
}

// Whether a name is `main` where that is the crate's own.
fn is_main_in(scope: NameScope, name: &[u8]) -> bool
    ensures { result ≡ is_main_in scope name.now }
{
    match scope {
        NameScope::Module => name == b"main".as_slice(),
        NameScope::Function => false,
        NameScope::Fields => false,
    }
}
