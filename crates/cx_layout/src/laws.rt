ghost use Rattle.std.specs.Prelude.{◌≡◌, ℕ, ◌*◌, ◌≤◌, ◌<◌, false, List};
ghost use Rattle.cr_base.specs.declared.layout.Piece.{Piece};
ghost use Rattle.cr_base.specs.declared.layout.Spot.{Spot};
ghost use Rattle.cx_core.specs.Layouts.{CLayouts, CRow};
ghost use Rattle.cx_core.specs.Trees.{CRecord, CTypes};
ghost use Rattle.cx_core.specs.ValidTypes.{AreTypes};
ghost use Rattle.cx_layout.specs.Calls.{AreGrounded, AreLayoutsOf, AreAllLaidOut, AddsRecord, Completes};
ghost use Rattle.cx_layout.specs.Places.{first_bit, end_bit, IsLaidOut, IsAt};

/// Law: a member lies inside its record (ISO C99, 6.7.2.1).
pub fn members_lie_inside()
    ensures { (layouts : CLayouts) (one : CRecord) (row : CRow) (pieces : List Piece) (index : ℕ) (piece : Piece) (place : Spot)
        → IsLaidOut layouts one row pieces → IsAt pieces row index piece place → end_bit place piece ≤ 8 * row.laid.size }
{}

/// Law: a member of a structure ends before the next ones begin (ISO C99, 6.7.2.1p13).
pub fn members_do_not_overlap()
    ensures { (layouts : CLayouts) (one : CRecord) (row : CRow) (pieces : List Piece) (index later : ℕ) (piece later_piece : Piece) (place later_place : Spot)
        → IsLaidOut layouts one row pieces → one.is_union ≡ false → index < later
        → IsAt pieces row index piece place → IsAt pieces row later later_piece later_place → end_bit place piece ≤ first_bit later_place }
{}

/// Law: layouts of a program to which a completed record is added are those of the program with this record;
/// no other record changes.
pub fn adding_is_completing()
    ensures { (types new_types : CTypes) (one : CRecord) (layouts new_layouts : CLayouts)
        → Completes types one new_types → AreLayoutsOf types layouts → AreAllLaidOut types layouts → AddsRecord layouts one new_layouts
        → AreLayoutsOf new_types new_layouts × AreAllLaidOut new_types new_layouts }
{}

/// Law: no record of a typed unit or program holds itself or an incomplete type by value.
pub fn types_are_grounded()
    ensures { (types : CTypes) → AreTypes types → AreGrounded types }
{}
