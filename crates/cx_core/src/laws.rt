ghost use Rattle.std.specs.Prelude.{◌≡◌, ℕ, true, Option, None};
ghost use Rattle.cx_core.specs.declared.ty.Basic.{Basic};
ghost use Rattle.cx_core.specs.Compatible.{AreCompatible};
ghost use Rattle.cx_core.specs.Conversions.{promoted_basic, common_basic, is_promoted_basic};
ghost use Rattle.cx_core.specs.Examples.{example};
ghost use Rattle.cx_core.specs.Linked.{IsLinked};
ghost use Rattle.cx_core.specs.Tables.{promotion_table, common_table};
ghost use Rattle.cx_core.specs.Trees.{CTy, CTypes};

/// Law: a type is compatible with itself (ISO C99, 6.2.7).
pub fn compatible_is_reflexive()
    ensures { (types : CTypes) (type : CTy) → AreCompatible types type type }
{}

/// Law: where a type is compatible with another, that one is with it (ISO C99, 6.2.7).
pub fn compatible_is_symmetric()
    ensures { (types : CTypes) (first second : CTy) → AreCompatible types first second → AreCompatible types second first }
{}

/// Law: a promoted value has a type that promotions leave as it is (ISO C99, 6.3.1.1p2).
pub fn promotion_gives_promoted()
    ensures { (which : Basic) (bits : Option ℕ) → is_promoted_basic (promoted_basic which bits) ≡ true }
{}

/// Law: the common type of two promoted types is one of them (ISO C99, 6.3.1.8).
pub fn common_is_promoted()
    ensures { (first second : Basic) → is_promoted_basic first ≡ true → is_promoted_basic second ≡ true
        → is_promoted_basic (common_basic first second) ≡ true }
{}

/// Law: the promotions of values that are no bit-fields, as a table (ISO C99, 6.3.1.1).
pub fn promotions_are_tabulated()
    ensures { (which : Basic) → promoted_basic which None ≡ promotion_table which }
{}

/// Law: the usual arithmetic conversions of all pairs of promoted types, as a table (ISO C99, 6.3.1.8).
pub fn conversions_are_tabulated()
    ensures { (first second : Basic) → is_promoted_basic first ≡ true → is_promoted_basic second ≡ true
        → common_basic first second ≡ common_table first second }
{}

/// Law: a program with records, bit-fields, pointers, a loop and calls is typed and linked.
pub fn example_is_linked()
    ensures { IsLinked example }
{}
