//! The words that stand for a variant each.

ghost use Rattle.std.specs.Prelude.{◌≡◌};
ghost use Rattle.rs_text.specs.Lines as text;
ghost use Rattle.rs_text.specs.Words.{integer_word, operator_mark, wrapping_word, truth_word, record_word};

use rs_text::{IntegerTy, Operator, Wrapping};

pub(crate) fn integer_word(ty: IntegerTy) -> &'static str
    ensures { result.now ≡ integer_word ty }
{
    match ty {
        IntegerTy::I8 => "i8",
        IntegerTy::I16 => "i16",
        IntegerTy::I32 => "i32",
        IntegerTy::I64 => "i64",
        IntegerTy::U8 => "u8",
        IntegerTy::U16 => "u16",
        IntegerTy::U32 => "u32",
        IntegerTy::U64 => "u64",
        IntegerTy::Isize => "isize",
        IntegerTy::Usize => "usize",
    }
}

pub(crate) fn operator_mark(operator: Operator) -> &'static str
    ensures { result.now ≡ operator_mark operator }
{
    match operator {
        Operator::Add => "+",
        Operator::Sub => "-",
        Operator::Mul => "*",
        Operator::Div => "/",
        Operator::Rem => "%",
        Operator::BitAnd => "&",
        Operator::BitOr => "|",
        Operator::BitXor => "^",
        Operator::Shl => "<<",
        Operator::Shr => ">>",
        Operator::Equal => "==",
        Operator::NotEqual => "!=",
        Operator::Less => "<",
        Operator::LessEqual => "<=",
        Operator::Greater => ">",
        Operator::GreaterEqual => ">=",
    }
}

pub(crate) fn wrapping_word(operation: Wrapping) -> &'static str
    ensures { result.now ≡ wrapping_word operation }
{
    match operation {
        Wrapping::WrappingAdd => "wrapping_add",
        Wrapping::WrappingSub => "wrapping_sub",
        Wrapping::WrappingMul => "wrapping_mul",
    }
}

pub(crate) fn truth_word(truth: bool) -> &'static str
    ensures { result.now ≡ truth_word truth }
{
    if truth { "true" } else { "false" }
}

pub(crate) fn record_word(is_union: bool) -> &'static str
    ensures { result.now ≡ record_word is_union }
{
    if is_union { "union" } else { "struct" }
}

#[tactic(auto, unfolding(rs_text::specs::Lines::address_of))]
pub(crate) fn address_of() -> &'static str
    ensures { result.now ≡ text.address_of }
{
    "core::ptr::addr_of_mut!("
}

#[tactic(auto, unfolding(rs_text::specs::Lines::null_of))]
pub(crate) fn null_of() -> &'static str
    ensures { result.now ≡ text.null_of }
{
    "core::ptr::null_mut::<"
}

#[tactic(auto, unfolding(rs_text::specs::Lines::transmute_of))]
pub(crate) fn transmute_of() -> &'static str
    ensures { result.now ≡ text.transmute_of }
{
    "core::mem::transmute::<"
}

#[tactic(auto, unfolding(rs_text::specs::Lines::function_of))]
pub(crate) fn function_of() -> &'static str
    ensures { result.now ≡ text.function_of }
{
    "pub unsafe extern \"C\" fn "
}

#[tactic(auto, unfolding(rs_text::specs::Lines::zeroed))]
pub(crate) fn zeroed() -> &'static str
    ensures { result.now ≡ text.zeroed }
{
    " = core::mem::zeroed();"
}

#[tactic(auto, unfolding(rs_text::specs::Lines::static_zeroed))]
pub(crate) fn static_zeroed() -> &'static str
    ensures { result.now ≡ text.static_zeroed }
{
    "unsafe { core::mem::zeroed() }"
}

#[tactic(auto, unfolding(rs_text::specs::Lines::exit_of))]
pub(crate) fn exit_of() -> &'static str
    ensures { result.now ≡ text.exit_of }
{
    "std::process::exit(crate::"
}

#[tactic(auto, unfolding(rs_text::specs::Lines::initialiser_of))]
pub(crate) fn initialiser_of() -> &'static str
    ensures { result.now ≡ text.initialiser_of }
{
    "::run_static_initializers();"
}
