//! How a type of C is written: its words, as `const unsigned char`; `struct 0` and `enum 0` by their numbers, of a union too; `pointer to T`;
//! `array 3 of T`, or `array of T` where the length isn't known; and `function (T, T) giving T`, with `...` behind
//! the parameters where further arguments may follow, `void` where there are none, and nothing in the parentheses where there is
//! no list.

use crate::answer::Answer;
use cr_base::{Boxed, Items};
use cx_core::{Basic, FunctionTy, Params, Ty, TyForm};

/// Writes a type.
#[cycle(types)]
pub(crate) fn write_type(ty: &Ty, out: &mut Answer) {
    if ty.is_const {
        out.text("const ");
    }
    match &ty.form {
        TyForm::Void => out.text("void"),
        TyForm::Basic(which) => out.text(words(*which)),
        TyForm::Enum(number) => write_numbered("enum ", *number, out),
        TyForm::Record(number) => write_numbered("struct ", *number, out),
        TyForm::Pointer(to) => {
            out.text("pointer to ");
            write_type(to.get(), out);
        }
        TyForm::Array(element, length) => write_array(element, *length, out),
        TyForm::Function(function) => write_function(function, out),
    }
}

fn write_numbered(word: &str, number: u32, out: &mut Answer) {
    out.text(word);
    out.value(number);
}

fn words(which: Basic) -> &'static str {
    match which {
        Basic::Truth => "_Bool",
        Basic::Char => "char",
        Basic::SignedChar => "signed char",
        Basic::UnsignedChar => "unsigned char",
        Basic::Short => "short",
        Basic::UnsignedShort => "unsigned short",
        Basic::Int => "int",
        Basic::Unsigned => "unsigned",
        Basic::Long => "long",
        Basic::UnsignedLong => "unsigned long",
        Basic::LongLong => "long long",
        Basic::UnsignedLongLong => "unsigned long long",
    }
}

#[cycle(types)]
fn write_array(element: &Boxed<Ty>, length: Option<u64>, out: &mut Answer) {
    out.text("array ");
    if let Some(count) = length {
        out.value(count);
        out.text(" ");
    }
    out.text("of ");
    write_type(element.get(), out);
}

#[cycle(types)]
fn write_function(function: &Boxed<FunctionTy>, out: &mut Answer) {
    let FunctionTy {
        result_ty,
        params,
        is_variadic,
    } = function.get();
    out.text("function (");
    write_params(params, out);
    out.text(if *is_variadic {
        ", ...) giving "
    } else {
        ") giving "
    });
    write_type(result_ty, out);
}

#[cycle(types)]
fn write_params(params: &Params, out: &mut Answer) {
    if let Params::Listed(types) = params {
        write_listed(types, out);
    }
}

#[cycle(types)]
fn write_listed(types: &Items<Ty>, out: &mut Answer) {
    let Some((first, others)) = types.as_slice().split_first() else {
        return out.text("void");
    };
    write_type(first, out);
    for ty in others {
        out.text(", ");
        write_type(ty, out);
    }
}
