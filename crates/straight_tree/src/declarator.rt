use cr_base::{Boxed, Items, Name};

/// A declaration's specifiers and qualifiers, in text order (ISO C99, 6.7).
#[derive(Drop)]
pub struct Specs {
    pub list: Items<Spec>,
    /// The line of each keyword.
    pub lines: Items<u32>,
}

/// A specifier or qualifier (6.7.1 to 6.7.4).
#[derive(Clone, Copy, Debug, PartialEq, Eq)]
pub enum Spec {
    /// `int` (6.7.2)
    Int,
    /// `void` (6.7.2)
    Void,
}

/// A declarator, or an abstract one (6.7.5, 6.7.6).
#[cycle(tree)]
#[derive(Drop)]
pub enum Declarator {
    /// No name: the bottom of an abstract declarator.
    Missing,
    /// The declared identifier.
    Identifier {
        name: Name,
        lines: Items<u32>,
    },
    /// A function with parameters (6.7.5.3); its own tokens are the parentheses and the commas.
    Function {
        of: Boxed<Declarator>,
        params: Items<Param>,
        lines: Items<u32>,
    },
}

/// A parameter declaration (6.7.5).
#[cycle(tree)]
#[derive(Drop)]
pub struct Param {
    pub specs: Specs,
    pub declarator: Declarator,
}
