//! Values of structure and union types of one unit (ISO C99, 6.2.7p1).

ghost use Rattle.std.specs.Prelude.{◌≡◌, ◌&&◌, [], is_some};
ghost use Rattle.cx_core.specs.Compatible.{in_pairs, forms_agree};
ghost use Rattle.cx_core.specs.Trees.{form_of_type, is_const_type, record_type};
ghost use Rattle.cx_core.specs.Views.{view_types};
ghost use Rattle.cx_operands.specs.Views.{view_value_type};
ghost use Rattle.cx_pairs.specs.Records.{is_numbered};
ghost use Rattle.cx_rules.specs.Types.{compatible, record_of};

use cx_core::Types;
use cx_operands::ValueTy;

// Whether it is the structure or union with a number.
pub(crate) fn is_record(v: ValueTy<'_>, number: u32) -> bool
    ensures { result ≡ is_numbered number (record_of (view_value_type v.entry)) }
{
    match v.record() {
        None => false,
        Some(other) => number == other,
    }
}

// Whether both are the same structure or union, with the same qualifier.
#[tactic(auto, using(crate::proofs::Numbered::compatible_records))]
pub(crate) fn records_agree(_types: &Types, first: ValueTy<'_>, second: ValueTy<'_>) -> bool
    ensures { result ≡ (is_some (record_of (view_value_type first.entry)) && compatible (view_types _types.now) (view_value_type first.entry) (view_value_type second.entry)) }
{
    let Some(number) = first.record() else {
        return false;
    };
    is_const(first) == is_const(second) && is_record(second, number)
}

fn is_const(v: ValueTy<'_>) -> bool
    ensures { result ≡ is_const_type (view_value_type v.entry) }
{
    match v {
        ValueTy::Plain(t) => t.is_const,
        ValueTy::Unqualified(_) | ValueTy::PointerTo(_) | ValueTy::Void => false,
    }
}
