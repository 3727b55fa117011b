//! Laws: sizes of the types of typed programs (ISO C99, 6.2.7, 6.5.3.4 and 6.5.6).
#![tactic(auto)]

ghost use Rattle.cx_typed_sizes.specs.Laws.{CompleteHasByte, SamePointers};

/// Law: a complete type has a byte. So a pointer that moves by elements moves by bytes, and a difference has a divisor.
pub fn complete_has_byte()
    ensures { CompleteHasByte }
{}

/// Law: pointers to compatible types move alike. So of two pointers of an operator either may be cast to the other's type.
pub fn same_pointers()
    ensures { SamePointers }
{}
