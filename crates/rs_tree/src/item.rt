use crate::stmt::RStmt;
use crate::ty::RTy;
use cr_base::{Boxed, Int, Items, Name};
use rs_text::Attribute;

/// A crate: its modules, in the order of their units, and the module that has `main_0`.
#[derive(Drop)]
pub struct Crate {
    pub modules: Items<Module>,
    /// The number of the module that has `main_0`, from 0.
    pub entry: u32,
}

/// A module: its name and its items, in the order of its text.
#[derive(Drop)]
pub struct Module {
    pub name: Name,
    pub items: Items<Item>,
}

/// An item of a module (the Rust Reference, "Items").
#[derive(Drop)]
pub enum Item {
    /// A struct or a union.
    Record(Record),
    /// A static object.
    Static(Static),
    /// The block of the external functions that the module calls.
    Extern(Items<Outer>),
    /// A function with a body.
    Function(Function),
}

/// `pub struct x { .. }` or `pub union x { .. }`, with the layout of C (the Rust Reference,
/// "The C representation").
#[derive(Drop)]
pub struct Record {
    /// The N of `#[repr(C, align(N))]`, if it stands.
    pub align: Option<u32>,
    pub is_union: bool,
    pub name: Name,
    pub fields: Items<Field>,
}

/// `pub f: T,`, a field of a record.
#[derive(Drop)]
pub struct Field {
    pub name: Name,
    pub ty: Boxed<RTy>,
}

/// `pub static mut x: T = ..;`, a static object (the Rust Reference, "Static items").
#[derive(Drop)]
pub struct Static {
    pub attribute: Attribute,
    pub name: Name,
    pub ty: Boxed<RTy>,
    /// The literals of a list `[72i8, -1i8]`; where there is none the object begins as zero bytes.
    pub values: Option<Items<Int>>,
}

/// `pub fn x(a0: T, a1: T, ...) -> T;` in an `extern` block, an external function (the Rust Reference,
/// "External blocks").
#[derive(Drop)]
pub struct Outer {
    /// The symbol of a line `#[link_name = "s"]`; the symbol is the name where there is none.
    pub link_name: Option<Name>,
    pub name: Name,
    /// The types of the parameters. The parameters are named `a0`, `a1` and so on.
    pub params: Items<RTy>,
    /// Whether `...` stands behind the parameters.
    pub variadic: bool,
    /// The type of the result, if there is one.
    pub result: Option<Boxed<RTy>>,
}

/// `pub unsafe extern "C" fn x(mut f: T) -> T`, a function with a body (the Rust Reference, "Functions").
#[derive(Drop)]
pub struct Function {
    pub attribute: Attribute,
    pub name: Name,
    pub params: Items<Local>,
    /// The type of the result, if there is one.
    pub result: Option<Boxed<RTy>>,
    /// The lines `let mut h: T = core::mem::zeroed();`, before the statements.
    pub locals: Items<Local>,
    pub body: Items<RStmt>,
}

/// A parameter of a function, or a local, which begins as zero bytes.
#[derive(Drop)]
pub struct Local {
    pub name: Name,
    pub ty: Boxed<RTy>,
}
