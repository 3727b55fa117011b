//! `layout RECORD | RECORD ..`: how each of these records is laid out (ISO C99, 6.7.2.1); the first one has the
//! number 0. A record is `struct` or `union`, and then its members in order. A member is its type, or
//! `TYPE:WIDTH` for a bit-field, with `~` in front where this has no name. A type is one of `bool`, `char`,
//! `schar`, `uchar`, `short`, `ushort`, `int`, `unsigned`, `long`, `ulong`, `llong`, `ullong`, `enum` and
//! `pointer`, or `#NUMBER` for a record in front; the lengths of an array stand behind it as C writes them, as in
//! `int[3][4]`.
//!
//! The answer has for each record its size and alignment in bytes, and then where its members stand: `BYTE`,
//! or `BYTE.BIT.WIDTH` for a bit-field, or `-` where it has no name. For one of more than 16,777,216 bytes it is
//! `too large`.

ghost use Rattle.std.specs.Prelude.{map, All, IfSome, IsTrue};
ghost use Rattle.cx_core.specs.Views.{view_member};
ghost use Rattle.cx_layout.specs.Calls.{IsMemberComplete, HasFittingBits};

use cr_base::{Boxed, Items, Name, Spot};
use cx_core::{Basic, Member, RecordTy, Ty, TyForm};
use cx_layout::{LayoutFault, Layouts};
use row_words::{Answer, Asked, RowFault, Steps, answer_steps, under_name};
use std::alloc::Global;

pub(crate) fn answer(alloc: Global, asked: &mut Asked, out: &mut Answer) {
    let mut records = Records {
        layouts: Layouts::new(alloc),
        count: 0,
    };
    answer_steps(&mut records, alloc, asked, out);
}

// The records that are laid out, and how many were read.
#[derive(Drop)]
struct Records {
    layouts: Layouts,
    count: u32,
}

const KINDS: [(&str, bool); 2] = [("struct", false), ("union", true)];

const BASIC: [(&str, Basic); 12] = [
    ("bool", Basic::Truth),
    ("char", Basic::Char),
    ("schar", Basic::SignedChar),
    ("uchar", Basic::UnsignedChar),
    ("short", Basic::Short),
    ("ushort", Basic::UnsignedShort),
    ("int", Basic::Int),
    ("unsigned", Basic::Unsigned),
    ("long", Basic::Long),
    ("ulong", Basic::UnsignedLong),
    ("llong", Basic::LongLong),
    ("ullong", Basic::UnsignedLongLong),
];

impl Steps for Records {
    fn step(&mut self, alloc: Global, asked: &mut Asked<'_>, out: &mut Answer) {
        out.separate();
        let kind = asked.named(&KINDS);
        let record = RecordTy {
            number: self.count,
            tag: None,
            is_union: asked.found(kind, false),
            members: members(&self.layouts, alloc, asked),
        };
        self.add(&record, asked, out);
    }
}

impl Records {
    fn add(&mut self, one: &RecordTy, asked: &mut Asked, out: &mut Answer)
        requires complete { All (IsMemberComplete self.old.layouts) (map view_member one.now.members) }
        requires bits { All HasFittingBits (map view_member one.now.members) }
    {
        self.count = self.count.saturating_add(1);
        match self.layouts.add(one) {
            Ok(()) => write_layout(&self.layouts, one, out),
            Err(LayoutFault::TooLarge) => out.text("too large"),
            Err(LayoutFault::Memory) => asked.fail(RowFault::Memory),
        }
    }
}

fn write_layout(layouts: &Layouts, one: &RecordTy, out: &mut Answer) {
    write_whole(layouts, &plain(TyForm::Record(one.number)), out);
    let mut index = 0;
    for member in one.members.as_slice() {
        out.text(" ");
        write_spot(member, layouts.member(one.number, index), out);
        index = index.saturating_add(1);
    }
}

// The size and the alignment of a type that is laid out.
fn write_whole(layouts: &Layouts, t: &Ty, out: &mut Answer) {
    out.value(layouts.size(t).unwrap_or(0));
    out.text(" ");
    out.value(layouts.align(t).unwrap_or(0));
}

fn write_spot(member: &Member, spot: Option<Spot>, out: &mut Answer) {
    match spot {
        Some(spot) if member.name.is_some() => {
            out.value(spot.byte);
            if member.bits.is_some() {
                out.text(".");
                out.value(spot.bit);
                out.text(".");
                out.value(spot.width);
            }
        }
        _ => out.text("-"),
    }
}

// Whether a member can be laid out, but for its size.
fn is_fit(layouts: &Layouts, member: &Member) -> bool
    ensures { IsTrue result → IsMemberComplete layouts.now (view_member member.now) × HasFittingBits (view_member member.now) }
{
    layouts.is_complete(&member.ty) && has_fitting_bits(member)
}

fn has_fitting_bits(member: &Member) -> bool
    ensures { IsTrue result → HasFittingBits (view_member member.now) }
{
    match (member.bits, &member.ty.form) {
        (None, _) => true,
        (Some(width), TyForm::Basic(which)) => width <= which.width(),
        (Some(width), TyForm::Enum(_)) => width <= 32,
        _ => false,
    }
}

// The words that are left as members.
fn members(layouts: &Layouts, alloc: Global, asked: &mut Asked) -> Items<Member>
    ensures complete { All (IsMemberComplete layouts.now) (map view_member result) }
    ensures bits { All HasFittingBits (map view_member result) }
{
    let mut members = Items::new(alloc);
    for word in asked.rest().split_ascii_whitespace() {
        if let Some(member) = fit_member(layouts, alloc, asked, word) {
            asked.had(members.push(member));
        }
    }
    asked.begin("");
    members
}

// A member that can be laid out.
fn fit_member(layouts: &Layouts, alloc: Global, asked: &mut Asked, word: &str) -> Option<Member>
    ensures { IfSome result (λ member. IsMemberComplete layouts.now (view_member member) × HasFittingBits (view_member member)) }
{
    let member = member(alloc, asked, word)?;
    if !is_fit(layouts, &member) {
        asked.refuse();
        return None;
    }
    Some(member)
}

fn member(alloc: Global, asked: &mut Asked, word: &str) -> Option<Member> {
    let named = word.strip_prefix('~');
    let name = match named {
        Some(_) => None,
        None => Some(Name::of(Vec::new(alloc))),
    };
    let (of, width) = split_width(named.unwrap_or(word));
    let bits = bits(asked, width);
    let ty = ty(alloc, asked, of)?;
    Some(Member {
        name,
        ty: ty.into_inner(),
        bits,
    })
}

// What stands in front of a `:` and, where there is one, behind it.
fn split_width(word: &str) -> (&str, Option<&str>) {
    match word.split_once(':') {
        Some((of, width)) => (of, Some(width)),
        None => (word, None),
    }
}

fn bits(asked: &mut Asked, width: Option<&str>) -> Option<u32> {
    let width = width?.parse().ok();
    Some(asked.found(width, 0))
}

// A type with the lengths of an array behind it.
fn ty(alloc: Global, asked: &mut Asked, word: &str) -> Option<Boxed<Ty>> {
    match word.split_once('[') {
        Some((of, lengths)) => arrays(alloc, asked, of, lengths),
        None => element(alloc, asked, word),
    }
}

// An array of these lengths, the outermost first, with a `]` behind each and a `[` between them.
fn arrays(alloc: Global, asked: &mut Asked, of: &str, lengths: &str) -> Option<Boxed<Ty>> {
    let mut ty = element(alloc, asked, of);
    for length in lengths.rsplit('[') {
        let length = asked.found(array_length(length), 1);
        ty = array(alloc, asked, ty?, length);
    }
    ty
}

fn array(alloc: Global, asked: &mut Asked, element: Boxed<Ty>, length: u64) -> Option<Boxed<Ty>> {
    asked.had(Ty::array(alloc, element, Some(length)))
}

// The length in front of a `]`.
fn array_length(text: &str) -> Option<u64> {
    text.strip_suffix(']')?.parse().ok()
}

fn element(alloc: Global, asked: &mut Asked, word: &str) -> Option<Boxed<Ty>> {
    let form = match word {
        "pointer" => TyForm::Void,
        "enum" => TyForm::Enum(0),
        _ => numbered(asked, word),
    };
    let named = asked.had(Boxed::new(alloc, plain(form)))?;
    if word == "pointer" {
        return asked.had(Ty::pointer(alloc, named, false));
    }
    Some(named)
}

fn numbered(asked: &mut Asked, word: &str) -> TyForm {
    match word.strip_prefix('#') {
        Some(number) => TyForm::Record(asked.found(number.parse().ok(), 0)),
        None => TyForm::Basic(asked.found(under_name(&BASIC, word), Basic::Int)),
    }
}

fn plain(form: TyForm) -> Ty {
    Ty {
        form,
        is_const: false,
    }
}
