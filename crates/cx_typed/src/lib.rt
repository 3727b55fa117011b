//! Laws: what the nodes of a unit mean is typed where they break no rule (ISO C99, 6.5).
#![tactic(auto)]

ghost use Rattle.std.specs.Prelude.{◌≡◌, ℕ, List, None};
ghost use Rattle.cx_rules.specs.Nodes.{CPlaced};
ghost use Rattle.cx_rules.specs.Rules.{rule_at};
ghost use Rattle.cx_typed.specs.Calls.{CallsAreTyped};
ghost use Rattle.cx_typed.specs.Completed.{MemberFormsGo};
ghost use Rattle.cx_typed.specs.Constants.{ConstantsAreTyped, SpelledConstantsFit};
ghost use Rattle.cx_typed.specs.Declarators.{DeclaratorFormsGo};
ghost use Rattle.cx_typed.specs.Derived.{DerivedTypesAreKnown};
ghost use Rattle.cx_typed.specs.Enumerated.{EnumeratorFormsGo};
ghost use Rattle.cx_typed.specs.Forms.{ExprFormsGo};
ghost use Rattle.cx_typed.specs.Growth.{GrowthKeepsTypes};
ghost use Rattle.cx_typed.specs.Initialised.{CompletedTypesAreKnown, InitialiserFormsGo, StoredValuesFill};
ghost use Rattle.cx_typed.specs.Names.{NamesAreTyped};
ghost use Rattle.cx_typed.specs.Nodes.{CStanding, OperatorsAreTyped};
ghost use Rattle.cx_typed.specs.Params.{ParamFormsGo};
ghost use Rattle.cx_typed.specs.Spelled.{SpelledTreesGo, UnitsBeginGood, ValidTreesAreSpelled};
ghost use Rattle.cx_typed.specs.Records.{RecordsStaySound};
ghost use Rattle.cx_typed.specs.Scopes.{ScopesServe};
ghost use Rattle.cx_typed.specs.Specified.{SpecifiedTypesAreKnown};
ghost use Rattle.cx_typed.specs.Specifiers.{SpecFormsGo};
ghost use Rattle.cx_typed.specs.Unbroken.{IsUnbroken};

/// Law: what is known of a type stays while the types of its unit grow (ISO C99, 6.2.5, 6.7.2.1, 6.7.2.2).
pub fn growth_keeps_types()
    ensures { GrowthKeepsTypes }
{}

/// Law: a node at which no rule is broken breaks none of them.
pub fn unbroken_nodes_break_none()
    ensures { (placed : CPlaced) → rule_at placed ≡ None → IsUnbroken placed.scope placed.scope.types placed.node }
{}

/// Law: what operators, assignments, casts, members and elements mean is typed, where they break no rule and their operands are typed (ISO
/// C99, 6.5.2.1, 6.5.2.3, 6.5.2.4, 6.5.3 to 6.5.17).
pub fn operators_are_typed()
    ensures { (standing : CStanding) → OperatorsAreTyped standing }
{}

/// Law: what calls mean is typed, where they break no rule, and what is called and the arguments are typed (ISO C99, 6.5.2.2).
pub fn calls_are_typed()
    ensures { (standing : CStanding) → CallsAreTyped standing }
{}

/// Law: constants, enumerators and sizes are typed (ISO C99, 6.4.4, 6.5.3.4, 6.7.2.2).
pub fn constants_are_typed()
    ensures { (standing : CStanding) → ConstantsAreTyped standing }
{}

/// Law: the constants of tokens fit their types (ISO C99, 6.4.4.1p5, 6.4.4.4p10).
pub fn spelled_constants_fit()
    ensures { SpelledConstantsFit }
{}

/// Law: names and literals are typed where a program holds what they name (ISO C99, 6.4.5, 6.5.1, 6.5.2.5).
pub fn names_are_typed()
    ensures { (standing : CStanding) → NamesAreTyped standing }
{}

/// Law: a program that serves a stretch of a unit serves each part of it, and what names and literals mean there (ISO C99, 6.2.2, 6.2.4).
pub fn scopes_serve()
    ensures { (opens : List ℕ) → ScopesServe opens }
{}

/// Law: the walk over an expression that finds no broken node gives a typed one, form by form (ISO C99, 6.5).
pub fn expression_forms_are_typed()
    ensures { ExprFormsGo }
{}

/// Law: the types of declarators that break no rule are known by the types of their unit (ISO C99, 6.7.5).
pub fn derived_types_are_known()
    ensures { DerivedTypesAreKnown }
{}

/// Law: completed structures and unions stay what C allows, and types stay sound where one is declared (ISO C99, 6.7.2.1, 6.7.2.3).
pub fn records_stay_sound()
    ensures { RecordsStaySound }
{}

/// Law: specifiers that break no rule name known types, form by form (ISO C99, 6.7.2, 6.7.7).
pub fn specifier_forms_are_known()
    ensures { SpecFormsGo }
{}

/// Law: the type that specifiers give is known where those that they name are (ISO C99, 6.7.2, 6.7.3).
pub fn specified_types_are_known()
    ensures { SpecifiedTypesAreKnown }
{}

/// Law: declarators and type names that break no rule give known types, form by form (ISO C99, 6.7.5, 6.7.6).
pub fn declarator_forms_are_known()
    ensures { DeclaratorFormsGo }
{}

/// Law: a unit begins with sound types, and with nothing that isn't known.
pub fn units_begin_good()
    ensures { UnitsBeginGood }
{}

/// Law: parameters and functions of declarators that break no rule give known types, form by form (ISO C99, 6.7.5.3).
pub fn parameter_forms_are_known()
    ensures { ParamFormsGo }
{}

/// Law: members that break no rule are what a structure or union may have, and it is completed with them, form by form (ISO C99, 6.7.2.1).
pub fn member_forms_are_known()
    ensures { MemberFormsGo }
{}

/// Law: enumerators that break no rule are known, and their type is settled once its list has ended, form by form (ISO C99, 6.7.2.2).
pub fn enumerator_forms_are_known()
    ensures { EnumeratorFormsGo }
{}

/// Law: what an initialiser stores in an object gives typed puts in the order of their places (ISO C99, 6.7.8).
pub fn stored_values_fill()
    ensures { StoredValuesFill }
{}

/// Law: an array without length gets one by its initialiser, and its type is known (ISO C99, 6.7.8p22).
pub fn completed_types_are_known()
    ensures { CompletedTypesAreKnown }
{}

/// Law: initialisers that break no rule store typed values in parts of their object, constants where it lives as long as the program, form by
/// form (ISO C99, 6.7.8).
pub fn initialiser_forms_are_typed()
    ensures { InitialiserFormsGo }
{}

/// Law: where a tree that tokens can spell breaks no rule, what it means is known and typed: expressions, specifiers, declarators, type names
/// and initialisers (ISO C99, 6.5, 6.7).
pub fn expressions_are_typed()
    ensures { SpelledTreesGo }
{}

/// Law: valid trees whose tokens have constants that fit their types are such as tokens can spell (ISO C99, 6.4.4, 6.7.2.1, 6.7.5, 6.7.8).
pub fn valid_trees_are_spelled()
    ensures { ValidTreesAreSpelled }
{}
