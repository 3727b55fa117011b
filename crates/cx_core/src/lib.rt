//! The typed program: what a list of C units means once each name is resolved, each type is known and
//! each conversion is a node of its own.
#![tactic(auto)]

mod bit_fields;
mod compatibility;
mod conversions;
mod copies;
mod expr;
mod laws;
mod meets;
mod order;
mod program;
mod records;
mod stmt;
mod ty;
mod unit;

pub use bit_fields::has_bit_fields;
pub use compatibility::compatible;
pub use conversions::{basic_of, common_basic, promote, promoted_basic, scalar_of, usual};
pub use copies::copy_types;
pub use expr::{CoreExpr, Form, Op1, Op2, Put};
pub use laws::{
    common_is_promoted, compatible_is_reflexive, compatible_is_symmetric,
    conversions_are_tabulated, example_is_linked, promotion_gives_promoted,
    promotions_are_tabulated,
};
pub use meets::{are_kept_by_promotions, enums_agree, lengths_agree, meet_in_basic, same_basic};
pub use order::{DeclaredOrder, Key};
pub use program::{CoreObject, Fun, Linkage, Outer, Parts, Program};
pub use stmt::{CoreStmt, StmtForm};
pub use ty::{Basic, FunctionTy, Member, Params, RecordTag, RecordTy, Ty, TyForm, Types};
pub use unit::{CoreUnit, Does, Mention};
