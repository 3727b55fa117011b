//! Laws of lives. The functions do nothing: their contracts are the laws.

ghost use Rattle.lift_stands_lives.specs.LawsHeld.{HeldLivesStand, WorldsBegin};
ghost use Rattle.lift_stands_lives.specs.LawsLives.{LivesStand};
ghost use Rattle.lift_stands_lives.specs.LawsSteps.{StepsKeepOthers};
ghost use Rattle.lift_stands_lives.specs.LawsStored.{StoresLeave};
ghost use Rattle.lift_stands_lives.specs.LawsVacant.{VacantStays};

/// Law: memories stand for each other after an object has begun or died, on both sides or on one.
pub fn lives_stand()
    ensures { LivesStand }
{}

/// Law: what stood for no live object goes on doing so, so that a local of the crate is vacant when its object begins anew.
pub fn vacant_stays()
    ensures { VacantStays }
{}

/// Law: so do memories with the blocks that their allocations gave.
pub fn held_lives_stand()
    ensures { HeldLivesStand }
{}

/// Law: worlds stand for each other after an object has begun, in C, in the crate or in both.
pub fn worlds_begin<F, G>()
    ensures { WorldsBegin F G }
{}

/// Law: each step leaves what isn't its own.
pub fn steps_keep_others()
    ensures { StepsKeepOthers }
{}

/// Law: a store that C may do the crate may do, what is held after it stands for what C holds, and both leave what isn't the piece's own.
pub fn stores_leave()
    ensures { StoresLeave }
{}
