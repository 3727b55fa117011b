//! The functions of the library whose meaning is known (ISO C99, 7.20.3, 7.20.4 and 7.21): their types.

ghost use Rattle.std.specs.Prelude.{◌≡◌, false, map, option_map};
ghost use Rattle.cx_core.specs.Externals.{known_as, params_in};
ghost use Rattle.cx_core.specs.Trees.{unqualified, ty, void, pointer};
ghost use Rattle.cx_core.specs.Views.{view_type, view_params, view_function_type};
ghost use Rattle.cx_externals.specs.LibraryTypes.{known_view, type_of, types_of_library};
ghost use Rattle.cx_externals.specs.Functions.{has_signature, same_lists};
ghost use Rattle.cx_rules.specs.Types.{same_type};

use crate::basics::is_basic;
use cx_core::{Basic, FunctionTy, Params, Ty, TyForm};

/// A function of the library whose meaning is known.
#[derive(Clone, Copy)]
pub(crate) enum Library {
    Malloc,
    Calloc,
    Free,
    Memcpy,
    Memmove,
    Memset,
    Exit,
    Abort,
}

/// A type of a result or a parameter of one: `void`, `int`, `unsigned long`, `void *` and `const void *`.
#[derive(Clone, Copy)]
pub(crate) enum LibraryTy {
    Nothing,
    Int,
    Size,
    Bytes,
    ConstBytes,
}

/// The function of the library with a name.
#[tactic(auto, unfolding(cx_core::specs::Externals::known_functions))]
pub(crate) fn library_named(name: &[u8]) -> Option<Library>
    ensures { option_map known_view result ≡ known_as name.now }
{
    if name == b"malloc".as_slice() {
        return Some(Library::Malloc);
    }
    if name == b"calloc".as_slice() {
        return Some(Library::Calloc);
    }
    if name == b"free".as_slice() {
        return Some(Library::Free);
    }
    if name == b"memcpy".as_slice() {
        return Some(Library::Memcpy);
    }
    if name == b"memmove".as_slice() {
        return Some(Library::Memmove);
    }
    if name == b"memset".as_slice() {
        return Some(Library::Memset);
    }
    if name == b"exit".as_slice() {
        return Some(Library::Exit);
    }
    if name == b"abort".as_slice() {
        return Some(Library::Abort);
    }
    None
}

fn result_of(known: Library) -> LibraryTy
    ensures { type_of result ≡ (known_view known).signature.result }
{
    match known {
        Library::Malloc | Library::Calloc | Library::Memcpy | Library::Memmove | Library::Memset =>
            LibraryTy::Bytes,
        Library::Free | Library::Exit | Library::Abort => LibraryTy::Nothing,
    }
}

fn params_of(known: Library) -> &'static [LibraryTy]
    ensures { types_of_library result.now ≡ (known_view known).signature.params }
{
    match known {
        Library::Malloc => &[LibraryTy::Size],
        Library::Calloc => &[LibraryTy::Size, LibraryTy::Size],
        Library::Free => &[LibraryTy::Bytes],
        Library::Memcpy | Library::Memmove => &[
            LibraryTy::Bytes,
            LibraryTy::ConstBytes,
            LibraryTy::Size,
        ],
        Library::Memset => &[LibraryTy::Bytes, LibraryTy::Int, LibraryTy::Size],
        Library::Exit => &[LibraryTy::Int],
        Library::Abort => &[],
    }
}

// Whether what a pointer points to is `void`, `const` where that is asked for.
fn is_void_target(t: &Ty, is_const: bool) -> bool
    ensures { result ≡ same_type (view_type t.now) (ty void is_const) }
{
    t.is_const == is_const && matches!(t.form, TyForm::Void)
}

fn is_pointer_to_void(t: &Ty, is_const: bool) -> bool
    ensures { result ≡ same_type (unqualified (view_type t.now)) (ty (pointer (ty void is_const)) false) }
{
    match &t.form {
        TyForm::Pointer(to) => is_void_target(to.get(), is_const),
        _ => false,
    }
}

// Whether the unqualified version of a type is one of the library's.
fn is_library_type(known: LibraryTy, t: &Ty) -> bool
    ensures { result ≡ same_type (unqualified (view_type t.now)) (type_of known) }
{
    match known {
        LibraryTy::Nothing => matches!(t.form, TyForm::Void),
        LibraryTy::Int => is_basic(t, Basic::Int),
        LibraryTy::Size => is_basic(t, Basic::UnsignedLong),
        LibraryTy::Bytes => is_pointer_to_void(t, false),
        LibraryTy::ConstBytes => is_pointer_to_void(t, true),
    }
}

fn are_library_types(known: &[LibraryTy], params: &[Ty]) -> bool
    ensures { result ≡ same_lists (map unqualified (map view_type params.now)) (types_of_library known.now) }
{
    let mut rest = params;
    for one in known {
        let [param, others @ ..] = rest else {
            return false;
        };
        if !is_library_type(*one, param) {
            return false;
        }
        rest = others;
    }
    rest.is_empty()
}

fn takes_library_types(known: &[LibraryTy], params: &Params) -> bool
    ensures { result ≡ same_lists (params_in (view_params params.now)) (types_of_library known.now) }
{
    match params {
        Params::Unlisted => known.is_empty(),
        Params::Listed(listed) => are_library_types(known, listed.as_slice()),
    }
}

/// Whether a function type is that of a function of the library; one without a parameter list counts as one without parameters.
pub(crate) fn has_signature(known: Library, function: &FunctionTy) -> bool
    ensures { result ≡ has_signature (known_view known).signature (view_function_type function.now) }
{
    !function.is_variadic
        && is_library_type(result_of(known), &function.result_ty)
        && takes_library_types(params_of(known), &function.params)
}
