//! Laws of the relation. The functions do nothing: their contracts are the laws.

ghost use Rattle.lift_stands.specs.LawsImages.{ImagesGrow, KeepsSamePointers, StaysBelow};
ghost use Rattle.lift_stands.specs.LawsKeeps.{PiecesKeepOthers};
ghost use Rattle.lift_stands.specs.LawsLoads.{LoadsStand};
ghost use Rattle.lift_stands.specs.LawsStores.{StoresStand};

/// Law: images are kept while blocks of C get more of them, so that a translated statement's images serve those before it.
pub fn images_grow()
    ensures { ImagesGrow }
{}

/// Law: what a value or a cell stood for it stands for under more images, so that an operand that is held stays good over a call.
pub fn stays_below()
    ensures { StaysBelow }
{}

/// Law: equal pointers of C stand for equal pointers, so that the bytes of one pointer are read as one pointer.
pub fn same_pointers_stay()
    ensures { KeepsSamePointers }
{}

/// Law: a load that C may do the crate may do, and gets what stands for C's value.
pub fn loads_stand()
    ensures { LoadsStand }
{}

/// Law: a store that C may do the crate may do, and then the memories stand for each other again.
pub fn stores_stand()
    ensures { StoresStand }
{}

/// Law: pieces of a crate one after the other leave what none of them owns.
pub fn pieces_keep_others()
    ensures { PiecesKeepOthers }
{}
