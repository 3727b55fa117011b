//! Laws of accesses. The functions do nothing: their contracts are the laws.

ghost use Rattle.lift_stands_accesses.specs.Laws.{ObjectsAreLoaded, ObjectsAreStored};

/// Law: where C loads an object, the crate loads what stands for its value, holds the cells of its structure where they stand, or has the bytes that its
/// bit-field touches.
pub fn objects_are_loaded()
    ensures { ObjectsAreLoaded }
{}

/// Law: where C stores in an object, the crate stores, copies, or stores bytes, and what both hold after it stands for each other.
pub fn objects_are_stored()
    ensures { ObjectsAreStored }
{}
