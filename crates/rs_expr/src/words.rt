//! Words and marks that stand for a variant each.

ghost use Rattle.std.specs.Prelude.{◌≡◌, map};
ghost use Rattle.rs_expr.specs.Exprs as reader;
ghost use Rattle.rs_expr.specs.Numbers as numbers;
ghost use Rattle.rs_expr.specs.Signs.{entry_of};

use rs_tree::{IntegerTy, Operator};

/// The function of `core` that a call names.
#[derive(Clone, Copy, PartialEq, Eq)]
pub(crate) enum CoreWord {
    /// `addr_of_mut`
    AddressWord,
    /// `null_mut`
    NullWord,
    /// `transmute`
    TransmuteWord,
}

/// A method.
#[derive(Clone, Copy, PartialEq, Eq)]
pub(crate) enum Method {
    Unwrap,
    /// `wrapping_add`
    AddMethod,
    /// `wrapping_sub`
    SubMethod,
    /// `wrapping_mul`
    MulMethod,
    /// `wrapping_neg`
    NegMethod,
    OffsetMethod,
    OffsetFromMethod,
    IsNullMethod,
    IsNoneMethod,
}

const CORE_WORDS: [(&[u8], CoreWord); 3] = [
    (b"addr_of_mut", CoreWord::AddressWord),
    (b"null_mut", CoreWord::NullWord),
    (b"transmute", CoreWord::TransmuteWord),
];

const METHODS: [(&[u8], Method); 9] = [
    (b"unwrap", Method::Unwrap),
    (b"wrapping_add", Method::AddMethod),
    (b"wrapping_sub", Method::SubMethod),
    (b"wrapping_mul", Method::MulMethod),
    (b"wrapping_neg", Method::NegMethod),
    (b"offset", Method::OffsetMethod),
    (b"offset_from", Method::OffsetFromMethod),
    (b"is_null", Method::IsNullMethod),
    (b"is_none", Method::IsNoneMethod),
];

const OPERATORS: [(&[u8], Operator); 16] = [
    (b"+", Operator::Add),
    (b"-", Operator::Sub),
    (b"*", Operator::Mul),
    (b"/", Operator::Div),
    (b"%", Operator::Rem),
    (b"&", Operator::BitAnd),
    (b"|", Operator::BitOr),
    (b"^", Operator::BitXor),
    (b"<<", Operator::Shl),
    (b">>", Operator::Shr),
    (b"==", Operator::Equal),
    (b"!=", Operator::NotEqual),
    (b"<", Operator::Less),
    (b"<=", Operator::LessEqual),
    (b">", Operator::Greater),
    (b">=", Operator::GreaterEqual),
];

const INTEGER_WORDS: [(&[u8], IntegerTy); 10] = [
    (b"i8", IntegerTy::I8),
    (b"i16", IntegerTy::I16),
    (b"i32", IntegerTy::I32),
    (b"i64", IntegerTy::I64),
    (b"u8", IntegerTy::U8),
    (b"u16", IntegerTy::U16),
    (b"u32", IntegerTy::U32),
    (b"u64", IntegerTy::U64),
    (b"isize", IntegerTy::Isize),
    (b"usize", IntegerTy::Usize),
];

/// What a table has for a text.
pub(crate) fn entry_of<T: Copy>(table: &[(&[u8], T)], text: &[u8], other: T) -> T
    ensures { result ≡ entry_of (map (λ entry. (entry.0.now, entry.1)) table.now) text.now other }
{
    for entry in table {
        if entry.0 == text {
            return entry.1;
        }
    }
    other
}

#[tactic(auto, unfolding(crate::specs::Exprs::core_words))]
pub(crate) fn core_word(word: &[u8]) -> CoreWord
    ensures { result ≡ reader.core_word word.now }
{
    entry_of(&CORE_WORDS, word, CoreWord::TransmuteWord)
}

#[tactic(auto, unfolding(crate::specs::Exprs::methods))]
pub(crate) fn method_of(word: &[u8]) -> Method
    ensures { result ≡ reader.method_of word.now }
{
    entry_of(&METHODS, word, Method::IsNoneMethod)
}

#[tactic(auto, unfolding(crate::specs::Exprs::operators))]
pub(crate) fn operator_of(mark: &[u8]) -> Operator
    ensures { result ≡ reader.operator_of mark.now }
{
    entry_of(&OPERATORS, mark, Operator::Add)
}

#[tactic(auto, unfolding(crate::specs::Numbers::integer_words))]
pub(crate) fn integer_of(word: &[u8]) -> IntegerTy
    ensures { result ≡ numbers.integer_of word.now }
{
    entry_of(&INTEGER_WORDS, word, IntegerTy::I32)
}
