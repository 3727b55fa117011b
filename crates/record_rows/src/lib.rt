//! Rows of written records: how structures and unions of C stand in a module of a written crate (ISO C99, 6.7.2.1). `row_words` says how rows are
//! read and answered.
//!
//! `records MODULE | RECORD | RECORD ..`: the text of the module of this name in which these structures and unions stand, and then for each of them the
//! names of the fields of its members, with `-` for a bit-field. The first one has the number 0. A record is `struct` or `union`, its tag, and then its members in
//! order: `NAME=TYPE`, or `NAME=TYPE:WIDTH` for a bit-field, without `NAME` where it has none. A type is one of `bool`, `char`, `schar`, `uchar`, `short`,
//! `ushort`, `int`, `unsigned`, `long`, `ulong`, `llong`, `ullong`, `enum`, `pointer`, which is one to `void`, and `code`, which is one to a function without
//! parameters that gives nothing, or `#NUMBER` for a record in front; the lengths of an array stand behind it as C writes them, as in `int[3][4]`.
#![tactic(auto)]

mod laid;
mod members;
mod records;
mod stage;
mod types;

pub use stage::Stages;
