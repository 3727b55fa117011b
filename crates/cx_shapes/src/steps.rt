ghost use Rattle.std.specs.Prelude.{◌≡◌, [], Some, IfOk};
ghost use Rattle.cx_rules.specs.Pieces.{has_word};
ghost use Rattle.cx_rules.specs.Shapes.{to_pointer, step_before, no_shape};
ghost use Rattle.cx_lex.specs.declared.token.Keyword.TheVariants as keyword;
ghost use Rattle.cx_shapes.specs.Views.{view_shape, view_step};

use crate::words::has_word;
use cr_base::{Items, Memory, Name};
use cx_lex::Keyword;
use cx_scope::{Declared, Param};
use std::alloc::Global;

/// One step from a type to a type that is derived from it (ISO C99, 6.2.5p20).
#[derive(Drop)]
pub enum Step {
    /// A pointer to it (6.7.5.1).
    Pointer {
        is_const: bool,
        is_restrict: bool,
    },
    /// An array of it (6.7.5.2), of so many elements, or None where their number isn't known.
    Array {
        length: Option<u64>,
    },
    /// A function that gives it (6.7.5.3).
    Function {
        /// None where there is no parameter list.
        params: Option<Items<Param>>,
        variadic: bool,
        /// What its parameters declare, the newest first.
        within: Items<Declared>,
    },
}

/// What a declarator says (ISO C99, 6.7.5).
#[derive(Drop)]
pub struct Shape {
    /// The identifier that it declares, or None for an abstract one (6.7.6).
    pub name: Option<Name>,
    /// The steps from the type of the specifiers to that of the identifier, the first one last.
    pub steps: Items<Step>,
}

/// The step to a pointer with these qualifiers (ISO C99, 6.7.5.1).
pub fn pointer_step(qualifiers: &[Keyword]) -> Step
    ensures { view_step result ≡ to_pointer (has_word keyword.Const qualifiers.now) (has_word keyword.Restrict qualifiers.now) }
{
    Step::Pointer {
        is_const: has_word(Keyword::Const, qualifiers),
        is_restrict: has_word(Keyword::Restrict, qualifiers),
    }
}

impl Shape {
    /// No declarator. It takes no memory.
    pub fn missing(alloc: Global) -> Shape
        ensures { view_shape result ≡ no_shape }
    {
        Shape {
            name: None,
            steps: Items::new(alloc),
        }
    }

    /// An identifier by itself. Refused only for want of memory.
    pub fn named(alloc: Global, name: &Name) -> Result<Shape, Memory>
        ensures { IfOk result (λ made. view_shape made ≡ record { name = Some name.now; steps = [] }) }
    {
        let name = name.copy()?;
        Ok(Shape {
            name: Some(name),
            steps: Items::new(alloc),
        })
    }

    /// The declarator that derives by a step in front of its own. Refused only for want of memory.
    pub fn behind(self, step: Step) -> Result<Shape, Memory>
        ensures { IfOk result (λ made. view_shape made ≡ step_before (view_step step) (view_shape self)) }
    {
        let Shape { name, mut steps } = self;
        steps.push(step)?;
        Ok(Shape { name, steps })
    }
}
