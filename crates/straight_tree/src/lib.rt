//! The syntax tree of a C unit (ISO C99, 6.5 to 6.9), its tokens and its depth.
#![tactic(auto)]

mod declaration;
mod declarator;
mod depths;
mod expr;
mod levels;
mod stmt;
mod tokens;
mod unit;

pub use declaration::{Decl, InitDeclarator, Initialiser};
pub use declarator::{Declarator, Param, Spec, Specs};
pub use depths::depth;
pub use expr::Expr;
pub use levels::{binary_level, is_assignment_operator, is_unary_operator, level};
pub use stmt::{BlockItem, Stmt};
pub use tokens::tokens_of;
pub use unit::{External, Unit};
