use cx_core::Types;
use cx_layout::Layouts;

/// The types of a unit so far, and their layouts.
#[derive(Clone, Copy)]
pub struct Known<'a> {
    pub types: &'a Types,
    pub layouts: &'a Layouts,
}
