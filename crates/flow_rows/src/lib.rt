//! Rows of tests of flows: the text of a function's body. `row_words` says how rows are read and answered.
//!
//! `body NODE | NODE ..`: the lines of the body that is written from a flow of these nodes, which is entered at the first, with ` | `
//! between them. Nodes count from 0 on. A node is some statements and a branch.
//!
//! Statements: `do NAME` calls a function of the module `m`, `set NAME N` stores a number in a local, and `add NAME N` and `sub NAME N` add
//! a number to one and take it away. Branches: `go NODE`; `if NAME OPERATOR N NODE NODE` compares a local with a number, where `OPERATOR`
//! is `==`, `!=`, `<`, `<=`, `>` or `>=`, and `unless` is the same turned round; `switch NAME NODE N NODE N NODE ..` goes by a local, to
//! the first node where no number is its value; `return`, and `give NAME`, which gives back a local.
#![tactic(auto)]

mod branches;
mod nodes;
mod stage;
mod text;

pub use stage::Stages;
