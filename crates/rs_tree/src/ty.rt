use cr_base::{Boxed, Items, Name};
use rs_text::IntegerTy;

/// A type (the Rust Reference, "Type system").
#[derive(Drop)]
pub enum RTy {
    /// An integer type.
    Integer(IntegerTy),
    /// `bool`.
    Boolean,
    /// `core::ffi::c_void`, the type of what a pointer of C without a known type points to. It stands
    /// as the target of a pointer alone.
    Void,
    /// `*mut T`, a raw pointer to a value of the type T ("Pointer types").
    Pointer(Boxed<RTy>),
    /// `[T; N]`, N values of the type T side by side ("Array types").
    Array(Boxed<RTy>, u64),
    /// `Option<unsafe extern "C" fn(T, T) -> T>`, a function pointer or none ("Function pointer types"):
    /// the types of its parameters, and that of its result, if it has one.
    Code(Items<RTy>, Option<Boxed<RTy>>),
    /// `crate::m::x`, the record x of the module m.
    Record(RPath),
}

/// `crate::m::x`, an item of a module (the Rust Reference, "Paths").
#[derive(Drop)]
pub struct RPath {
    /// The name of the module.
    pub home: Name,
    /// The name of the item in it.
    pub name: Name,
}
