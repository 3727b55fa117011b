//! Types of C in rows.

use cr_base::Boxed;
use cx_core::{Basic, FunctionTy, Params, Ty, TyForm};
use row_words::{Asked, under_name};
use std::alloc::Global;

const BASIC: [(&str, Basic); 12] = [
    ("bool", Basic::Truth),
    ("char", Basic::Char),
    ("schar", Basic::SignedChar),
    ("uchar", Basic::UnsignedChar),
    ("short", Basic::Short),
    ("ushort", Basic::UnsignedShort),
    ("int", Basic::Int),
    ("unsigned", Basic::Unsigned),
    ("long", Basic::Long),
    ("ulong", Basic::UnsignedLong),
    ("llong", Basic::LongLong),
    ("ullong", Basic::UnsignedLongLong),
];

/// A type with the lengths of an array behind it.
pub(crate) fn type_in(alloc: Global, asked: &mut Asked, word: &str) -> Option<Boxed<Ty>> {
    match word.split_once('[') {
        Some((of, lengths)) => arrays(alloc, asked, of, lengths),
        None => element(alloc, asked, word),
    }
}

/// A type without qualifier.
pub(crate) fn plain(form: TyForm) -> Ty {
    Ty {
        form,
        is_const: false,
    }
}

// An array of these lengths, the outermost first, with a `]` behind each and a `[` between them.
fn arrays(alloc: Global, asked: &mut Asked, of: &str, lengths: &str) -> Option<Boxed<Ty>> {
    let mut ty = element(alloc, asked, of);
    for length in lengths.rsplit('[') {
        let length = asked.found(array_length(length), 1);
        ty = asked.had(Ty::array(alloc, ty?, Some(length)));
    }
    ty
}

// The length in front of a `]`.
fn array_length(text: &str) -> Option<u64> {
    text.strip_suffix(']')?.parse().ok()
}

fn element(alloc: Global, asked: &mut Asked, word: &str) -> Option<Boxed<Ty>> {
    match word {
        "pointer" => pointer_to(alloc, asked, TyForm::Void),
        "code" => {
            let code = code(alloc, asked)?;
            pointer_to(alloc, asked, code)
        }
        "enum" => asked.had(Boxed::new(alloc, plain(TyForm::Enum(0)))),
        _ => {
            let form = numbered(asked, word);
            asked.had(Boxed::new(alloc, plain(form)))
        }
    }
}

fn pointer_to(alloc: Global, asked: &mut Asked, form: TyForm) -> Option<Boxed<Ty>> {
    let target = asked.had(Boxed::new(alloc, plain(form)))?;
    asked.had(Ty::pointer(alloc, target, false))
}

// `void f(void)`.
fn code(alloc: Global, asked: &mut Asked) -> Option<TyForm> {
    let fun = FunctionTy {
        result_ty: plain(TyForm::Void),
        params: Params::Listed(cr_base::Items::new(alloc)),
        is_variadic: false,
    };
    Some(TyForm::Function(asked.had(Boxed::new(alloc, fun))?))
}

fn numbered(asked: &mut Asked, word: &str) -> TyForm {
    match word.strip_prefix('#') {
        Some(number) => TyForm::Record(asked.found(number.parse().ok(), 0)),
        None => TyForm::Basic(asked.found(under_name(&BASIC, word), Basic::Int)),
    }
}
