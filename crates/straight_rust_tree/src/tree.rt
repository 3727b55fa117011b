use cr_base::{Boxed, Int, Items, Name};

/// A crate: its modules, in the order of their units, and the module that has `main_0`.
#[derive(Debug, Drop)]
pub struct Crate {
    pub modules: Items<Module>,
    /// The number of the module that has `main_0`, from 0.
    pub entry: u32,
}

/// A module: its name and its items, in the order of its text.
#[derive(Debug, Drop)]
pub struct Module {
    pub name: Name,
    pub items: Items<Item>,
}

/// An item of a module (the Rust Reference, "Items").
#[derive(Debug, Drop)]
pub enum Item {
    /// A static object.
    Static(Static),
    /// The block of the external functions that the module calls.
    Extern(Items<Outer>),
    /// A function with a body.
    Function(Function),
}

/// The attribute that says by which symbol an item is known to the linker.
#[derive(Debug, Drop)]
pub enum Attribute {
    /// None: the item is known to its crate alone.
    Mangled,
    /// `#[no_mangle]`: the symbol is the item's name.
    NoMangle,
    /// `#[export_name = "s"]`: the symbol is s.
    ExportName(Name),
}

/// `pub static mut x: T = unsafe { core::mem::zeroed() };`, a static object that begins as zero bytes.
#[derive(Debug, Drop)]
pub struct Static {
    pub attribute: Attribute,
    pub name: Name,
    pub ty: RTy,
}

/// `pub fn x(a0: T, ...) -> T;` in an `extern` block, an external function.
#[derive(Debug, Drop)]
pub struct Outer {
    /// The symbol of a line `#[link_name = "s"]`; the symbol is the name where there is none.
    pub link_name: Option<Name>,
    pub name: Name,
    /// The types of the parameters. The parameters are named `a0`, `a1` and so on.
    pub params: Items<RTy>,
    /// Whether `...` stands behind the parameters.
    pub variadic: bool,
    /// The type of the result, if there is one.
    pub result: Option<RTy>,
}

/// `pub unsafe extern "C" fn x(mut f: T) -> T`, a function with a body.
#[derive(Debug, Drop)]
pub struct Function {
    pub attribute: Attribute,
    pub name: Name,
    pub params: Items<Local>,
    /// The type of the result, if there is one.
    pub result: Option<RTy>,
    /// The lines `let mut h: T = core::mem::zeroed();`, before the statements.
    pub locals: Items<Local>,
    pub body: Items<RStmt>,
}

/// A parameter of a function, or a local, which begins as zero bytes.
#[derive(Debug, Drop)]
pub struct Local {
    pub name: Name,
    pub ty: RTy,
}

/// A statement (the Rust Reference, "Statements").
#[derive(Debug, Drop)]
pub enum RStmt {
    /// `p = e;`, which stores the value of e in the place p.
    Assign(RPlace, RExpr),
    /// `e;` for a call, whose result is dropped.
    Eval(RExpr),
    /// `return e;`, or `return;`.
    Return(Option<RExpr>),
}

/// A place (the Rust Reference, "Place expressions and value expressions").
#[derive(Debug, Drop)]
pub enum RPlace {
    /// A parameter or a local.
    Name(Name),
    /// A static object of a module.
    Path(RPath),
}

/// `crate::m::x`, an item of a module.
#[derive(Debug, Drop)]
pub struct RPath {
    /// The name of the module.
    pub home: Name,
    /// The name of the item in it.
    pub name: Name,
}

/// An expression (the Rust Reference, "Expressions").
#[derive(Debug, Drop)]
pub enum RExpr {
    /// An integer literal with its type as suffix; a negative one has a sign before it.
    Literal(Int, RTy),
    /// A place that is read.
    Place(RPlace),
    /// `crate::m::x(e, e)`, a call of a function.
    Call(RPath, Items<RExpr>),
    /// `-o`.
    Neg(Boxed<RExpr>),
    /// `o op o`.
    Binary(Operator, Boxed<RExpr>, Boxed<RExpr>),
}

/// An operator between two operands (the Rust Reference, "Arithmetic and logical binary operators").
/// Where the result isn't a value of the type, its evaluation is wrong.
#[derive(Clone, Copy, Debug, PartialEq, Eq)]
pub enum Operator {
    Add,
    Sub,
    Mul,
}

/// A type (the Rust Reference, "Type system").
#[derive(Clone, Copy, Debug, PartialEq, Eq)]
pub enum RTy {
    I8,
    I16,
    I32,
    I64,
    U8,
    U16,
    U32,
    U64,
    Isize,
    Usize,
    Bool,
}
