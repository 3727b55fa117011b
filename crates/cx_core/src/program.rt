ghost use Rattle.std.specs.Prelude.{◌≡◌};
ghost use Rattle.cx_core.specs.Linked.{IsLinked};
ghost use Rattle.cx_core.specs.Views.{view_program};

use crate::expr::Put;
use crate::order::DeclaredOrder;
use crate::stmt::CoreStmt;
use crate::ty::{Ty, Types};
use cr_base::{Items, Name};
use std::marker::Model;

/// How a name goes from one scope or unit to another (ISO C99, 6.2.2).
#[derive(Clone, Copy, PartialEq, Eq)]
pub enum Linkage {
    External,
    Internal,
    /// None: each declaration of the name is a thing of its own.
    Nothing,
}

/// An object that is declared (ISO C99, 6.2.4), or that of a literal.
#[derive(Drop)]
pub struct CoreObject {
    /// Its number, by which expressions name it.
    pub object: u32,
    /// The number of the unit that defines it, or that of its first declaration where none does.
    pub unit: u32,
    /// None for the object of a literal.
    pub name: Option<Name>,
    /// Whether it is the object of a string literal.
    pub is_text: bool,
    pub ty: Ty,
    pub linkage: Linkage,
    /// What is stored in a static object before the program begins (6.2.4p3, 6.7.8p10), in the order
    /// of the places. None for an object that isn't static, or that is only declared.
    pub puts: Option<Items<Put>>,
}

/// A function that a unit defines (ISO C99, 6.9.1).
#[derive(Drop)]
pub struct Fun {
    /// Its number, by which calls name it.
    pub function: u32,
    pub name: Name,
    /// The number of its unit.
    pub unit: u32,
    pub linkage: Linkage,
    /// Its function type, as its definition declares it.
    pub ty: Ty,
    /// The numbers of the objects of its parameters, from the left.
    pub params: Items<u32>,
    /// Its body, a block.
    pub body: CoreStmt,
}

/// A function that is declared and not defined: in a unit by this unit, in a program by no unit.
#[derive(Drop)]
pub struct Outer {
    /// Its number, by which calls name it.
    pub function: u32,
    pub name: Name,
    /// External in a program; a unit may also declare a static function that it doesn't define.
    pub linkage: Linkage,
    /// Its function type.
    pub ty: Ty,
}

/// The parts of a program.
#[derive(Drop)]
pub struct Parts {
    pub types: Types,
    /// The objects in text order of their first declarations, unit by unit.
    pub objects: Items<CoreObject>,
    /// The functions that units define, in text order, unit by unit.
    pub functions: Items<Fun>,
    /// The functions that are declared and that no unit defines, in text order, unit by unit.
    pub externals: Items<Outer>,
    /// The order of declarations of each unit.
    pub orders: Items<DeclaredOrder>,
}

/// A typed and linked program: every name stands for one thing, every operand has the type that its
/// operator asks for, and there is a `main` (ISO C99, 5.1.2.2.1, 6.5, 6.8 and 6.9). Contracts see its
/// parts.
#[derive(Drop)]
pub struct Program {
    parts: Parts,
}

impl Model for Program {
    ghost use Rattle.cx_core.specs.declared.program.Parts.{Parts};
    ghost use Rattle.cx_core.specs.contracts.program.Parts as contents;

    ghost Value = { Parts };

    ghost coded = { contents.the_row.coded };

    ghost use Rattle.cx_core.specs.Linked.{IsLinked};
    ghost use Rattle.cx_core.specs.Views.{view_program};

    ghost view = { λ program. program.parts };

    ghost invariant = { λ program. IsLinked (view_program program.parts) };
}

impl Program {
    /// The program of these parts, which are typed and linked.
    pub fn new(
        types: Types,
        objects: Items<CoreObject>,
        functions: Items<Fun>,
        externals: Items<Outer>,
        orders: Items<DeclaredOrder>,
    ) -> Program
        requires { IsLinked (view_program (record {
          types = types;
          objects = objects;
          functions = functions;
          externals = externals;
          orders = orders;
        })) }
        ensures { result ≡ record {
          types = types;
          objects = objects;
          functions = functions;
          externals = externals;
          orders = orders;
        } }
    {
        Program {
            parts: Parts {
                types,
                objects,
                functions,
                externals,
                orders,
            },
        }
    }

    /// Its parts, to read. They are typed and linked.
    pub fn parts(&self) -> &Parts
        ensures value { result.now ≡ self.now }
        ensures linked { IsLinked (view_program self.now) }
    {
        &self.parts
    }
}
