//! Laws of operations on pointers. The functions do nothing: their contracts are the laws.

ghost use Rattle.lift_stands_pointers.specs.LawsOperators.{OperatorsStand};
ghost use Rattle.lift_stands_pointers.specs.LawsPointers.{PointersStand};

/// Law: what C may do with pointers the crate may do with those that stand for them, and gets the same number or what stands for C's pointer.
pub fn pointers_stand()
    ensures { PointersStand }
{}

/// Law: so do C's operators and the operators and methods of Rust that are written for them.
pub fn operators_stand()
    ensures { OperatorsStand }
{}
