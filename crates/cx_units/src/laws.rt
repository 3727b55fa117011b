//! Laws of the first rule that units break. The functions do nothing: their contracts are the laws.

ghost use Rattle.cx_units.specs.Laws.{OneIsFirst, OneMeaning, UnbrokenBreaksNone};

/// Law: units that break no rule have no first broken rule.
pub fn unbroken_breaks_none()
    ensures { UnbrokenBreaksNone }
{}

/// Law: the causes of a refusal exclude each other.
pub fn one_is_first()
    ensures { OneIsFirst }
{}

/// Law: units that break no rule mean one list of typed units.
pub fn one_meaning()
    ensures { OneMeaning }
{}
