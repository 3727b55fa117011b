//! Laws of linking. The functions do nothing: their contracts are the laws.

ghost use Rattle.cx_links.specs.Laws.{LinkedUnitsHaveMain, ObjectsStandUnitByUnit, UnitsAreBelowTheCount};

/// Law: units that break no rule together have a `main` with external linkage (ISO C99, 5.1.2.2.1).
pub fn linked_units_have_main()
    ensures { LinkedUnitsHaveMain }
{}

/// Law: the objects of a program stand unit by unit, each in its own (ISO C99, 6.2.2p2, 6.2.4).
pub fn objects_stand_unit_by_unit()
    ensures { ObjectsStandUnitByUnit }
{}

/// Law: the unit of each object, and of each function, is one of those that were linked.
pub fn units_are_below_the_count()
    ensures { UnitsAreBelowTheCount }
{}
