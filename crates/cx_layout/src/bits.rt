//! Widths of bit-fields (ISO C99, 6.7.2.1p3).

ghost use Rattle.std.specs.Prelude.{◌≡◌, true, All, map};
ghost use Rattle.std.specs.List.{list_all};
ghost use Rattle.cx_core.specs.Trees.{form_of_type};
ghost use Rattle.cx_core.specs.Views.{view_member, view_type};
ghost use Rattle.cx_layout.specs.Bits.{is_wide_enough, has_fitting_bits};
ghost use Rattle.cx_layout.specs.Calls.{HasFittingBits};

use cx_core::{Member, Ty, TyForm};

// The width of `int`, with which each enumerated type is represented.
const ENUM_WIDTH: u32 = 32;

/// Whether no bit-field among the members is wider than its declared type, which is an integer type. It takes no memory.
pub fn have_fitting_bits(members: &[Member]) -> bool
    ensures tested { result ≡ list_all has_fitting_bits (map view_member members.now) }
    ensures fitting { result ≡ true → All HasFittingBits (map view_member members.now) }
{
    for member in members {
        if !has_fitting_bits(member) {
            return false;
        }
    }
    true
}

fn has_fitting_bits(member: &Member) -> bool
    ensures { result ≡ has_fitting_bits (view_member member.now) }
{
    match member.bits {
        None => true,
        Some(width) => is_wide_enough(&member.ty, width),
    }
}

fn is_wide_enough(t: &Ty, width: u32) -> bool
    ensures { result ≡ is_wide_enough (form_of_type (view_type t.now)) width }
{
    match &t.form {
        TyForm::Basic(which) => width <= which.width(),
        TyForm::Enum(_) => width <= ENUM_WIDTH,
        TyForm::Void => false,
        TyForm::Pointer(_) => false,
        TyForm::Array(_, _) => false,
        TyForm::Record(_) => false,
        TyForm::Function(_) => false,
    }
}
