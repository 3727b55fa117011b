//! The typed program: what a list of C units means once each name is resolved, each type is known and
//! each conversion is a node of its own.
#![tactic(auto)]

mod expr;
mod laws;
mod program;
mod stmt;
mod ty;

pub use expr::{CoreExpr, Form, Op1, Op2};
pub use laws::example_is_linked;
pub use program::{CoreObject, Fun, Linkage, Outer, Parts, Program, Put};
pub use stmt::{CoreStmt, StmtForm};
pub use ty::{Member, RecordTy, Spot, Ty, TyForm, Types, function_type};
