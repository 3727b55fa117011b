//! Objects of string literals (ISO C99, 6.4.5).
#![tactic(auto, unfolding(crate::specs::Views::view_scope))]

ghost use Rattle.std.specs.Prelude.{◌≡◌, map, pos, length, Some, true, false, IfOk, OnOk, OnErr};
ghost use Rattle.cr_base.specs.Scalar.{wrapped};
ghost use Rattle.cr_base.specs.declared.scalar.Scalar.TheVariants.{Whole};
ghost use Rattle.cx_core.specs.Trees.{expr, ty, array, whole};
ghost use Rattle.cx_core.specs.Views.{view_type, view_expr, view_put, view_puts};
ghost use Rattle.cx_rules.specs.Initial.{char_type, joined_bytes, text_puts, text_type};
ghost use Rattle.cx_rules.specs.Pieces.{made_text, with_text};
ghost use Rattle.cx_rules.specs.Texts.{byte_expr, byte_put, byte_puts};
ghost use Rattle.cx_scope.specs.Views.{view_scope, view_made};

use crate::made::Made;
use crate::scope::Scope;
use cr_base::{Boxed, Int, Items, Memory, Name, Place, Scalar, Spot, wrap};
use cx_core::{Basic, CoreExpr, Form, Put, Ty};
use std::alloc::Global;

impl Scope {
    /// The object of a string literal comes into being (ISO C99, 6.4.5p5). Its bytes have the zero byte at their end. Refused
    /// only for want of memory, and then nothing changed.
    pub fn add_text(&mut self, line: u32, bytes: &[u8]) -> Result<(), Memory>
        ensures added { OnOk result (view_scope self.new ≡ with_text line bytes.now (view_scope self.old)) }
        ensures refused { OnErr result (view_scope self.new ≡ view_scope self.old) }
    {
        let object = self.next_object;
        if object == u32::MAX {
            return Err(Memory);
        }
        let made = self.made_text(line, bytes)?;
        self.add_made(made)?;
        self.next_object = object + 1;
        Ok(())
    }

    // The object that a string literal gets.
    #[tactic(auto, using(cx_rules::proofs::TextPuts::text_puts_are), unfolding(crate::specs::Views::view_scope))]
    fn made_text(&self, line: u32, bytes: &[u8]) -> Result<Made, Memory>
        ensures { IfOk result (λ made. view_made made ≡ made_text (view_scope self.now) line bytes.now) }
    {
        let place = Place {
            unit: self.unit,
            line,
        };
        let ty = text_ty(self.alloc, bytes.len() as u64)?;
        let fixed = byte_puts(self.alloc, place, bytes)?;
        Ok(Made {
            object: self.next_object,
            ty: ty.into_inner(),
            is_text: true,
            fixed: Some(fixed),
        })
    }
}

/// The type of a string literal of so many bytes (ISO C99, 6.4.5p5). Refused only for want of memory.
pub fn text_ty(alloc: Global, count: u64) -> Result<Boxed<Ty>, Memory>
    ensures { IfOk result (λ made. view_type made ≡ ty (array char_type (Some count)) false) }
{
    let element = Boxed::new(alloc, Ty::basic(Basic::Char))?;
    Ty::array(alloc, element, Some(count))
}

/// The bytes of adjacent string literals with one zero byte (ISO C99, 6.4.5p5). Refused only for want of memory.
pub fn joined_bytes(alloc: Global, parts: &[Name]) -> Result<Name, Memory>
    ensures { IfOk result (λ joined. joined ≡ joined_bytes parts.now) }
{
    let mut joined = Vec::new(alloc);
    for part in parts {
        joined.extend_from_slice(part.bytes())?;
    }
    joined.push(0)?;
    Ok(Name::of(joined))
}

fn byte_puts(alloc: Global, place: Place, bytes: &[u8]) -> Result<Items<Put>, Memory>
    ensures { IfOk result (λ puts. map view_put puts ≡ byte_puts place 0 bytes.now) }
{
    let mut puts = Items::new(alloc);
    for index in 0..bytes.len() {
        puts.push(byte_put(alloc, place, index as u64, bytes[index])?)?;
    }
    Ok(puts)
}

fn byte_put(alloc: Global, place: Place, index: u64, byte: u8) -> Result<Put, Memory>
    ensures { IfOk result (λ made. view_put made ≡ byte_put place index byte) }
{
    let value = byte_expr(alloc, place, byte)?;
    Ok(Put {
        spot: Spot {
            byte: index,
            bit: 0,
            width: 0,
        },
        ty: Ty::basic(Basic::Char),
        value,
    })
}

fn byte_expr(alloc: Global, place: Place, byte: u8) -> Result<Boxed<CoreExpr>, Memory>
    ensures { IfOk result (λ made. view_expr made ≡ byte_expr place byte) }
{
    char_constant(alloc, place, char_value(byte))
}

// A byte as a value of `char`.
fn char_value(byte: u8) -> Int
    ensures { result ≡ wrapped (Whole 8 true) (pos byte) }
{
    wrap(
        Scalar::Whole {
            width: 8,
            signed: true,
        },
        Int::from(byte),
    )
}

fn char_constant(alloc: Global, place: Place, value: Int) -> Result<Boxed<CoreExpr>, Memory>
    ensures { IfOk result (λ made. view_expr made ≡ expr char_type place (whole value)) }
{
    Boxed::new(
        alloc,
        CoreExpr {
            ty: Ty::basic(Basic::Char),
            place,
            form: Form::Whole(value),
        },
    )
}
