ghost use Rattle.std.specs.Prelude.{◌≡◌, option_map};
ghost use Rattle.cx_core.specs.Conversions.{basic_of};
ghost use Rattle.cx_core.specs.Trees.{form_of_type};
ghost use Rattle.cx_core.specs.Views.{view_type, view_types};
ghost use Rattle.cx_operands.specs.Views.{view_value_type};
ghost use Rattle.cx_rules.specs.Types.{is_void, is_integer, is_scalar, is_pointer, target_of, record_of};

use cx_core::{Basic, Ty, Types, basic_of};
use cx_kinds::{is_void, record_of, target_of};

/// The type of a value, without a type of its own.
#[derive(Clone, Copy)]
pub enum ValueTy<'a> {
    /// This type.
    Plain(&'a Ty),
    /// The unqualified version of this type.
    Unqualified(&'a Ty),
    /// A pointer to this type.
    PointerTo(&'a Ty),
    /// `void`.
    Void,
}

impl<'a> ValueTy<'a> {
    /// Whether it is `void`.
    pub fn is_void(self) -> bool
        ensures { result ≡ is_void (view_value_type self.entry) }
    {
        match self {
            ValueTy::Plain(t) | ValueTy::Unqualified(t) => is_void(t),
            ValueTy::PointerTo(_) => false,
            ValueTy::Void => true,
        }
    }

    /// The basic type that an integer type is, or with which it is compatible (ISO C99, 6.7.2.2p4).
    pub fn basic(self, types: &Types) -> Option<Basic>
        ensures { result ≡ basic_of (view_types types.now) (form_of_type (view_value_type self.entry)) }
    {
        match self {
            ValueTy::Plain(t) | ValueTy::Unqualified(t) => basic_of(t, types),
            ValueTy::PointerTo(_) => None,
            ValueTy::Void => None,
        }
    }

    /// What a pointer type points to.
    pub fn target(self) -> Option<&'a Ty>
        ensures { option_map (λ to. view_type to.now) result ≡ target_of (view_value_type self.entry) }
    {
        match self {
            ValueTy::Plain(t) | ValueTy::Unqualified(t) => target_of(t),
            ValueTy::PointerTo(to) => Some(to),
            ValueTy::Void => None,
        }
    }

    /// The number of a structure or union type.
    pub fn record(self) -> Option<u32>
        ensures { result ≡ record_of (view_value_type self.entry) }
    {
        match self {
            ValueTy::Plain(t) | ValueTy::Unqualified(t) => record_of(t),
            ValueTy::PointerTo(_) => None,
            ValueTy::Void => None,
        }
    }

    /// Whether it is an integer type (ISO C99, 6.2.5p17).
    pub fn is_integer(self, types: &Types) -> bool
        ensures { result ≡ is_integer (view_types types.now) (view_value_type self.entry) }
    {
        self.basic(types).is_some()
    }

    /// Whether it is a pointer type (ISO C99, 6.2.5p20).
    pub fn is_pointer(self) -> bool
        ensures { result ≡ is_pointer (view_value_type self.entry) }
    {
        self.target().is_some()
    }
}
