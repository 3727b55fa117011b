//! Laws: what a unit means stands in that unit (ISO C99, 5.1.1.1).
#![tactic(auto)]

ghost use Rattle.cx_placed.specs.Stands.{LinkedTreesStandInUnits, MeantTreesStandInTheirUnit};

/// Law: every place in what the tree of a unit means is of that unit.
pub fn meant_trees_stand_in_their_unit()
    ensures { MeantTreesStandInTheirUnit }
{}

/// Law: where each unit of a list stands in itself, every place in their program is of one of them.
pub fn linked_trees_stand_in_units()
    ensures { LinkedTreesStandInUnits }
{}
