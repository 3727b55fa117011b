//! Levels of expressions (ISO C99, 6.5): a production of a higher level binds tighter.

/// `expression` (6.5.17).
pub const EXPRESSION: u32 = 1;

/// `assignment-expression` (6.5.16).
pub const ASSIGNMENT: u32 = 2;

/// `conditional-expression`, and `constant-expression` (6.5.15, 6.6).
pub const CONDITIONAL: u32 = 3;

/// `cast-expression` (6.5.4).
pub const CAST: u32 = 14;

/// `unary-expression` (6.5.3).
pub const UNARY: u32 = 15;
