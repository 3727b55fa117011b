//! Initialisers of whole objects (ISO C99, 6.7.8p3, p11 to p16).

ghost use Rattle.std.specs.Prelude.{◌≡◌, [], ◌∷◌, map, option_map, IfOk};
ghost use Rattle.cx_core.specs.Views.{view_type};
ghost use Rattle.cx_init.specs.Views.{view_target};
ghost use Rattle.cx_kinds.specs.Known.{IsKnown, types_in};
ghost use Rattle.cx_operands.specs.Views.{view_operand};
ghost use Rattle.cx_parts.specs.Views.{view_at};
ghost use Rattle.cx_place.specs.Placing.{may_be_initialised, object_target, whole_placed, whole_text, whole_value, nothing_placed};
ghost use Rattle.cx_place.specs.Views.{entries_of, view_entry, view_given, view_placing, view_whole};
ghost use Rattle.cx_place.specs.Initialisers.{given_text, given_list};

use crate::given::{Entry, Given};
use crate::lists::{begin, entries_placed};
use crate::operands::{a_value, text_operand};
use crate::placing::Placing;
use crate::rules::{text_rule, value_rule};
use cr_base::{Items, Memory, Place, Rule};
use cx_core::Ty;
use cx_init::{Filling, StoredValues, Target, is_text_target, text_at, value_at, whole_at};
use cx_kinds::{Known, has_size, is_array, is_function};
use cx_operands::Operand;
use cx_parts::{At, whole_of};
use std::alloc::Global;

// What is stored in a whole object, and for each part in post-order the rule that it breaks, if it breaks one.
#[derive(Drop)]
pub(crate) struct Whole {
    pub(crate) stored: StoredValues,
    pub(crate) rules: Items<Option<Rule>>,
}

// Whether an initialiser may stand for an object of a type.
fn may_be_initialised(known: Known, t: &Ty) -> bool
    requires { IsKnown known }
    ensures { result ≡ may_be_initialised (types_in known.entry) (view_type t.now) }
{
    !is_function(t) && (has_size(known, t) || is_array(t))
}

/// What an initialiser is for that is given for an object of a type. Refused only for want of memory.
pub(crate) fn object_target(alloc: Global, known: Known, t: &Ty) -> Result<Target, Memory>
    requires { IsKnown known }
    ensures { IfOk result (λ made. view_target made ≡ object_target (types_in known.entry) (view_type t.now)) }
{
    let base = object_base(alloc, known, t)?;
    Ok(Target {
        is_static: false,
        base,
    })
}

fn object_base(alloc: Global, known: Known, t: &Ty) -> Result<Option<At>, Memory>
    requires { IsKnown known }
    ensures { IfOk result (λ made. option_map view_at made ≡ (object_target (types_in known.entry) (view_type t.now)).base) }
{
    if !may_be_initialised(known, t) {
        return Ok(None);
    }
    let ty = t.copy(alloc)?;
    Ok(Some(whole_of(alloc, ty)))
}

// One part, which breaks this rule, if it breaks one.
fn one_rule(alloc: Global, rule: Option<Rule>) -> Result<Items<Option<Rule>>, Memory>
    ensures { IfOk result (λ rules. rules ≡ rule ∷ []) }
{
    let mut rules = Items::new(alloc);
    rules.push(rule)?;
    Ok(rules)
}

fn whole_value(
    alloc: Global,
    known: Known,
    target: &Target,
    value: Operand,
) -> Result<Whole, Memory>
    requires { IsKnown known }
    ensures { IfOk result (λ made. view_whole made ≡ whole_value (types_in known.entry) (view_target target.now) (view_operand value)) }
{
    let at = whole_at(alloc, target)?;
    let rules = one_rule(alloc, value_rule(known.types, &value, at.as_ref()))?;
    let stored = value_at(alloc, known.types, target, value, at.as_ref())?;
    Ok(Whole { stored, rules })
}

fn filling_text(
    alloc: Global,
    known: Known,
    target: &Target,
    bytes: &[u8],
    place: Place,
) -> Result<Whole, Memory>
    requires { IsKnown known }
    ensures { IfOk result (λ made. view_whole made ≡ whole_text (types_in known.entry) (view_target target.now) bytes.now place) }
{
    let at = whole_at(alloc, target)?;
    let rules = one_rule(alloc, text_rule(bytes, at.as_ref()))?;
    let stored = text_at(alloc, known, target, place, bytes, at.as_ref())?;
    Ok(Whole { stored, rules })
}

// A string literal for a whole object: it fills an array of characters, or is a value like another.
fn whole_text(
    alloc: Global,
    known: Known,
    target: &Target,
    bytes: &[u8],
    number: u32,
    place: Place,
) -> Result<Whole, Memory>
    requires { IsKnown known }
    ensures { IfOk result (λ made. view_whole made ≡ whole_placed (types_in known.entry) (view_target target.now) (given_text bytes.now number place)) }
{
    if is_text_target(target) {
        return filling_text(alloc, known, target, bytes, place);
    }
    let value = text_operand(alloc, bytes, number, place)?;
    whole_value(alloc, known, target, value)
}

// Nothing has been placed yet.
fn nothing_placed(alloc: Global) -> Placing
    ensures { view_placing result ≡ nothing_placed }
{
    Placing {
        filling: Filling {
            stored: StoredValues::new(alloc),
            next: None,
        },
        rules: Items::new(alloc),
    }
}

// A list in braces for a whole object.
fn whole_list(
    alloc: Global,
    known: Known,
    target: &Target,
    entries: Items<Entry>,
) -> Result<Whole, Memory>
    requires { IsKnown known }
    ensures { IfOk result (λ made. view_whole made ≡ whole_placed (types_in known.entry) (view_target target.now) (given_list (entries_of (map view_entry entries)))) }
{
    let mut placing = nothing_placed(alloc);
    begin(alloc, known, target, entries.as_slice(), &mut placing)?;
    entries_placed(alloc, entries, known, target, &mut placing)?;
    placing.rules.push(None)?;
    Ok(whole_of_placing(placing))
}

fn whole_of_placing(placing: Placing) -> Whole
    ensures { view_whole result ≡ record { stored = (view_placing placing).filling.stored; rules = (view_placing placing).rules } }
{
    let Placing { filling, rules } = placing;
    let Filling { stored, next: _ } = filling;
    Whole { stored, rules }
}

/// What an initialiser stores in a whole object, and the rules of its parts. Refused only for want of memory.
pub(crate) fn whole_placed(
    alloc: Global,
    known: Known,
    target: &Target,
    given: Given,
) -> Result<Whole, Memory>
    requires { IsKnown known }
    ensures { IfOk result (λ made. view_whole made ≡ whole_placed (types_in known.entry) (view_target target.now) (view_given given)) }
{
    match given {
        Given::Value(value) => whole_value(alloc, known, target, a_value(value)),
        Given::Text {
            bytes,
            object,
            place,
        } => whole_text(alloc, known, target, bytes.bytes(), object, place),
        Given::List(entries) => whole_list(alloc, known, target, entries),
    }
}
