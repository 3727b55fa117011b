//! Laws of members, literals, arguments and operands. The functions do nothing: their contracts are the laws.

ghost use Rattle.lift_stands_values.specs.Laws.{ArgumentsStand, LiteralsStand, MembersStand, OperandsStay, RangesStand};

/// Law: where C finds a member of a place, the crate finds its field at what stands for C's place, with a base that is aligned; and a member of a value is held
/// where the value is.
pub fn members_stand()
    ensures { MembersStand }
{}

/// Law: where C clears the object of a compound literal, or of a declaration, zero bytes stand for it, and where no bit of it is set, so does what is there;
/// and where C stores a put in it, the crate stores in it, too.
pub fn literals_stand()
    ensures { LiteralsStand }
{}

/// Law: the outside sees the same arguments, and known functions get what stands for C's.
pub fn arguments_stand()
    ensures { ArgumentsStand }
{}

/// Law: what is loaded is in the range of its type, and so is what stands for it.
pub fn ranges_stand()
    ensures { RangesStand }
{}

/// Law: what the crate has for an operand it has under more images.
pub fn operands_stay()
    ensures { OperandsStay }
{}
