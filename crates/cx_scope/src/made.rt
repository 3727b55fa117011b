use cr_base::Items;
use cx_core::{Put, Ty};

/// The object of a literal (ISO C99, 6.4.5p5, 6.5.2.5p6).
#[derive(Drop)]
pub struct Made {
    pub object: u32,
    pub ty: Ty,
    /// Whether the literal is a string literal.
    pub is_text: bool,
    /// What is stored in it before the program begins. None for a compound literal in a function.
    pub fixed: Option<Items<Put>>,
}
