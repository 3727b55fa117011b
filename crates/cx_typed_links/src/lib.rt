//! Laws: what is typed in a unit is typed, renumbered, in the program of which the unit is a part (ISO C99, 5.1.1.1, 6.2.7).
#![tactic(auto)]

ghost use Rattle.cx_typed_links.specs.Laws.{ExpressionsStayTyped, NamesHoldInPrograms, ProgramThingsAreTyped, ProgramTypesAreAllowed, ProgramsAreNumbered, ThingsStayTyped, UnitTypesHold, UnitTypesStand, UnitsMakePrograms};
ghost use Rattle.cx_typed_links.specs.Links.{ExternalsAreTyped, LinkedUnitsMakePrograms, UsesHoldWhereLinked};
ghost use Rattle.cx_typed_links.specs.Ordered.{OrderedThingsStand, TypedUnitsStandInOrder};

/// Law: the types of a program of typed units are types that C allows (ISO C99, 6.7.2.1).
pub fn program_types_are_allowed()
    ensures { ProgramTypesAreAllowed }
{}

/// Law: the tables of types of each typed unit stand in those of the program.
pub fn unit_types_stand()
    ensures { UnitTypesStand }
{}

/// Law: what is known of a type of a unit is known of the renumbered type in the program.
pub fn unit_types_hold()
    ensures { UnitTypesHold }
{}

/// Law: a typed expression of a unit is typed in the program, where names mean there what they mean in the unit (ISO C99, 6.5).
pub fn expressions_stay_typed()
    ensures { ExpressionsStayTyped }
{}

/// Law: a typed object and a typed definition of a function of a unit are typed in the program, where names mean there what they mean in
/// the unit (ISO C99, 6.7.8, 6.9.1).
pub fn things_stay_typed()
    ensures { ThingsStayTyped }
{}

/// Law: what a name means in a typed unit it means in the program, where each use of a name is one in the program (ISO C99, 6.2.2p2).
pub fn names_hold_in_programs()
    ensures { NamesHoldInPrograms }
{}

/// Law: the objects and the functions of a program of typed units are typed, where each use of a name is one in the program.
pub fn program_things_are_typed()
    ensures { ProgramThingsAreTyped }
{}

/// Law: each number of a program of typed units stands for one thing (ISO C99, 6.2.2p2).
pub fn programs_are_numbered()
    ensures { ProgramsAreNumbered }
{}

/// Law: typed units that break no rule together make a typed and linked program, where each use of a name in a unit is one in the program, and what
/// no unit defines is an external function of the profile (ISO C99, 5.1.1.1, 6.2.2p2, 6.9p5).
pub fn units_make_programs()
    ensures { UnitsMakePrograms }
{}

/// Law: where typed units break no rule together, a use of a name in a unit is one in the program (ISO C99, 6.2.2p2, 6.2.7p2).
pub fn uses_hold_where_linked()
    ensures { UsesHoldWhereLinked }
{}

/// Law: and what no unit defines is an external function of the profile, with its type (ISO C99, 6.9p5).
pub fn externals_are_typed()
    ensures { ExternalsAreTyped }
{}

/// Law: so typed units that break no rule together make a typed and linked program (ISO C99, 5.1.1.1).
pub fn linked_units_make_programs()
    ensures { LinkedUnitsMakePrograms }
{}

/// Law: the objects of a program of typed units stand unit by unit, and the unit of each object and of each function is one of those that were
/// linked (ISO C99, 6.2.2p2, 6.2.4).
pub fn typed_units_stand_in_order()
    ensures { TypedUnitsStandInOrder }
{}

/// Law: what a typed unit orders by its first declarations is there in the program, under its number there, but for a static function that the unit
/// declares and doesn't define (ISO C99, 6.2.2).
pub fn ordered_things_stand()
    ensures { OrderedThingsStand }
{}
