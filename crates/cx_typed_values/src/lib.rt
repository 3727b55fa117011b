//! Laws: what operators and conversions give of typed values is typed, or breaks a rule; they are never stuck (ISO C99, 6.3 and 6.5).
#![tactic(auto)]

ghost use Rattle.cx_typed_values.specs.Numbers.{ConversionsGiveNumbers, OperatorsGiveNumbers};
ghost use Rattle.cx_typed_values.specs.Values.{BinaryOperatorsGiveValues, ConversionsGiveValues, TruthsCome, UnaryOperatorsGiveValues};

/// Law: an operator over numbers of its type gives a number of the type of its result, or breaks a rule (ISO C99, 6.5.3.3, 6.5.5 to
/// 6.5.12).
pub fn operators_give_numbers()
    ensures { OperatorsGiveNumbers }
{}

/// Law: a number that is converted to an integer type is one of that type (ISO C99, 6.3.1.2, 6.3.1.3).
pub fn conversions_give_numbers()
    ensures { ConversionsGiveNumbers }
{}

/// Law: a scalar value can be compared with 0, but for pointers to dead objects (ISO C99, 6.5.3.3p5).
pub fn truths_come()
    ensures { TruthsCome }
{}

/// Law: an operator with one operand gives a value of its type, or breaks a rule (ISO C99, 6.5.3.3).
pub fn unary_operators_give_values()
    ensures { UnaryOperatorsGiveValues }
{}

/// Law: an operator with two operands gives a value of its type, or breaks a rule (ISO C99, 6.5.5 to 6.5.12).
pub fn binary_operators_give_values()
    ensures { BinaryOperatorsGiveValues }
{}

/// Law: a conversion gives a value of its type, or breaks a rule (ISO C99, 6.3).
pub fn conversions_give_values()
    ensures { ConversionsGiveValues }
{}
