//! The types of rows.

use crate::asked::Asked;
use cr_base::{Boxed, Items, Memory, Name};
use cx_core::{Basic, FunctionTy, Member, Params, RecordTag, RecordTy, Ty, TyForm, Types};
use std::alloc::Global;

const PAIR: u32 = 0;

const EITHER: u32 = 1;

const FIELDS: u32 = 2;

const NESTED: u32 = 3;

const OPEN: u32 = 4;

pub(crate) fn basic(which: Basic, is_const: bool) -> Ty {
    Ty {
        form: TyForm::Basic(which),
        is_const,
    }
}

pub(crate) fn int() -> Ty {
    basic(Basic::Int, false)
}

fn record(number: u32) -> Ty {
    Ty {
        form: TyForm::Record(number),
        is_const: false,
    }
}

fn plain(form: TyForm) -> Ty {
    Ty {
        form,
        is_const: false,
    }
}

fn array(alloc: Global, element: Ty, length: Option<u64>) -> Result<Ty, Memory> {
    let element = Boxed::new(alloc, element)?;
    Ok(plain(TyForm::Array(element, length)))
}

fn pointer(alloc: Global, to: Ty) -> Result<Ty, Memory> {
    let to = Boxed::new(alloc, to)?;
    Ok(plain(TyForm::Pointer(to)))
}

/// The type that the next words ask for.
pub(crate) fn asked_type(alloc: Global, asked: &mut Asked) -> Result<Ty, Memory> {
    let words = asked.rest();
    let mut ty = last_type(alloc, words, asked)?;
    for word in words.split_ascii_whitespace().rev().skip(1) {
        ty = derived(alloc, word, ty)?;
    }
    Ok(ty)
}

// The type that the last word names.
fn last_type(alloc: Global, words: &str, asked: &mut Asked) -> Result<Ty, Memory> {
    let word = words.split_ascii_whitespace().last();
    match asked.found(word, "") {
        "int" => Ok(int()),
        "char" => Ok(basic(Basic::Char, false)),
        "const-char" => Ok(basic(Basic::Char, true)),
        "function" => function(alloc),
        "pair" => Ok(record(PAIR)),
        "either" => Ok(record(EITHER)),
        "fields" => Ok(record(FIELDS)),
        "nested" => Ok(record(NESTED)),
        "open" => Ok(record(OPEN)),
        _ => {
            asked.refuse();
            Ok(int())
        }
    }
}

fn derived(alloc: Global, word: &str, of: Ty) -> Result<Ty, Memory> {
    match word {
        "to" => pointer(alloc, of),
        "array" => Ok(of),
        "-" => array(alloc, of, None),
        _ => array(alloc, of, word.parse().ok()),
    }
}

// A function without parameters that gives an `int`.
fn function(alloc: Global) -> Result<Ty, Memory> {
    let signature = FunctionTy {
        result_ty: int(),
        params: Params::Listed(Items::new(alloc)),
        is_variadic: false,
    };
    let signature = Boxed::new(alloc, signature)?;
    Ok(plain(TyForm::Function(signature)))
}

/// The records of all rows.
pub(crate) fn all_types(alloc: Global) -> Result<Types, Memory> {
    let mut types = Types::new(alloc);
    add(&mut types, PAIR, false, Some(pair(alloc)?))?;
    add(&mut types, EITHER, true, Some(either(alloc)?))?;
    add(&mut types, FIELDS, false, Some(fields(alloc)?))?;
    add(&mut types, NESTED, false, Some(nested(alloc)?))?;
    add(&mut types, OPEN, false, None)?;
    Ok(types)
}

// One more record, completed where it has members.
fn add(
    types: &mut Types,
    number: u32,
    is_union: bool,
    members: Option<Items<Member>>,
) -> Result<(), Memory> {
    types.record_tags.push(RecordTag {
        tag: None,
        is_union,
    })?;
    types.record_units.push(0)?;
    types.records.push(members.map(|members| RecordTy {
        number,
        tag: None,
        is_union,
        members,
    }))
}

fn named(alloc: Global, name: &[u8], ty: Ty) -> Result<Member, Memory> {
    let name = Name::of(Vec::from_slice(alloc, name)?);
    Ok(Member {
        name: Some(name),
        ty,
        bits: None,
    })
}

fn bit_field(alloc: Global, name: &[u8], width: u32) -> Result<Member, Memory> {
    let mut member = named(alloc, name, int())?;
    member.bits = Some(width);
    Ok(member)
}

fn unnamed_bits(width: u32) -> Member {
    Member {
        name: None,
        ty: int(),
        bits: Some(width),
    }
}

fn pair(alloc: Global) -> Result<Items<Member>, Memory> {
    let mut members = Items::new(alloc);
    let two = array(alloc, int(), Some(2))?;
    members.push(named(alloc, b"x", two)?)?;
    members.push(named(alloc, b"y", int())?)?;
    Ok(members)
}

fn either(alloc: Global) -> Result<Items<Member>, Memory> {
    let mut members = Items::new(alloc);
    members.push(named(alloc, b"a", int())?)?;
    members.push(named(alloc, b"b", basic(Basic::Char, false))?)?;
    Ok(members)
}

fn fields(alloc: Global) -> Result<Items<Member>, Memory> {
    let mut members = Items::new(alloc);
    members.push(bit_field(alloc, b"a", 3)?)?;
    members.push(unnamed_bits(5))?;
    members.push(bit_field(alloc, b"b", 9)?)?;
    Ok(members)
}

fn nested(alloc: Global) -> Result<Items<Member>, Memory> {
    let mut members = Items::new(alloc);
    members.push(named(alloc, b"p", record(PAIR))?)?;
    let two = array(alloc, record(EITHER), Some(2))?;
    members.push(named(alloc, b"u", two)?)?;
    let text = pointer(alloc, basic(Basic::Char, false))?;
    members.push(named(alloc, b"s", text)?)?;
    Ok(members)
}
