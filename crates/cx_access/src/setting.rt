use cx_core::Parts;
use cx_layout::Layouts;

/// What the steps of a program look up: its parts, and the layouts of its records.
#[derive(Clone, Copy)]
pub struct Setting<'a> {
    pub program: &'a Parts,
    pub layouts: &'a Layouts,
}
