//! What is written for an expression (ISO C99, 6.5; the Rust Reference, "Statements"). Each maker is refused only for want of memory.

ghost use Rattle.std.specs.Prelude.{◌≡◌, ◌++◌, map, [], suc, IfOk};
ghost use Rattle.lift_forms_code.specs.Views.{given_view};
ghost use Rattle.lift_stores.specs.Views.{text_view};
ghost use Rattle.rs_tree.specs.Views.{stmt_view};

use cr_base::{Items, Memory};
use lift_forms_code::RGiven;
use rs_tree::RStmt;
use std::alloc::Global;

/// Statements, and what gives the value of an expression behind them.
#[derive(Drop)]
pub struct Written {
    pub body: Items<RStmt>,
    pub given: RGiven,
    /// The number of the next temporary.
    pub next: u32,
}

/// Something that takes no statement and no temporary.
pub fn gives(alloc: Global, given: RGiven, next: u32) -> Written
    ensures { text_view result ≡ record { body = []; given = given_view given; next = next } }
{
    Written {
        body: Items::new(alloc),
        given,
        next,
    }
}

/// What is made of an operand, behind its statements.
pub fn then_gives(one: Written, given: RGiven) -> Written
    ensures { text_view result ≡ record (text_view one) { given = given_view given } }
{
    Written {
        body: one.body,
        given,
        next: one.next,
    }
}

/// More statements behind.
pub fn then_does(one: Written, more: Items<RStmt>, given: RGiven) -> Result<Written, Memory>
    ensures { IfOk result (λ made. text_view made ≡
        record { body = (text_view one).body ++ map stmt_view more; given = given_view given; next = one.next }) }
{
    let mut body = one.body;
    body.append(more)?;
    Ok(Written {
        body,
        given,
        next: one.next,
    })
}

/// The statements of one part and of another behind it, and what they give together.
pub fn in_turn(first: Written, second: Written, given: RGiven) -> Result<Written, Memory>
    ensures { IfOk result (λ made. text_view made ≡
        record { body = (text_view first).body ++ (text_view second).body; given = given_view given; next = second.next }) }
{
    let mut body = first.body;
    body.append(second.body)?;
    Ok(Written {
        body,
        given,
        next: second.next,
    })
}

/// The number behind that of a temporary. Refused where it passes 32 bits: so many temporaries aren't kept for want of memory.
pub fn number_behind(next: u32) -> Result<u32, Memory>
    ensures { IfOk result (λ number. number ≡ suc next) }
{
    match next.checked_add(1) {
        Some(number) => Ok(number),
        None => Err(Memory),
    }
}

/// With a temporary more, which is taken last.
pub fn then_takes(one: Written, more: Items<RStmt>, given: RGiven) -> Result<Written, Memory>
    ensures { IfOk result (λ made. text_view made ≡
        record { body = (text_view one).body ++ map stmt_view more; given = given_view given; next = suc one.next }) }
{
    let next = number_behind(one.next)?;
    let mut body = one.body;
    body.append(more)?;
    Ok(Written { body, given, next })
}
