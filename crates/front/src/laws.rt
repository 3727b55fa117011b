//! Laws of the first rule that the units of a job break. The functions do nothing: their contracts are the laws.

ghost use Rattle.front.specs.Laws.{OneIsFirst, TranslatedBreakNone};

/// Law: units that have a program have no first broken rule.
pub fn translated_break_none()
    ensures { TranslatedBreakNone }
{}

/// Law: the causes of a refusal exclude each other.
pub fn one_is_first()
    ensures { OneIsFirst }
{}
