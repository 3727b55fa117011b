//! Laws of items. The functions do nothing: their contracts are the laws.

ghost use Rattle.whole_items.specs.Laws.{BodiesAreInside};

/// Law: what a function is to its callers doesn't depend on its body, so that bodies are written one by one.
pub fn bodies_are_inside()
    ensures { BodiesAreInside }
{}
