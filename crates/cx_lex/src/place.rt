//! Where a place is in a file.

ghost use Rattle.std.specs.Prelude.{◌≡◌, ◌+◌, ◌^◌, ◌<◌, ◌==◌, ◌&&◌, ◌||◌, count_by, fold, length};
ghost use Rattle.cx_lex.specs.Bytes.{newline, is_margin};
ghost use Rattle.cx_lex.specs.Mirror.{stays_first};

use crate::bytes::is_margin;

/// The line of a place, and whether only blanks and tabs stand before it in that line.
#[derive(Clone, Copy, Debug)]
pub struct Place {
    pub line: u32,
    pub first: bool,
}

fn newlines(front: &[u8]) -> usize
    ensures { result ≡ count_by (λ b. b == newline) front.now }
{
    front.iter().filter(|b| **b == b'\n').count()
}

fn stays_first(first: bool, b: u8) -> bool
    ensures { result ≡ stays_first first b }
{
    b == b'\n' || (first && is_margin(b))
}

fn is_first(first: bool, front: &[u8]) -> bool
    ensures { result ≡ fold stays_first first front.now }
{
    front.iter().fold(first, |first, b| stays_first(first, *b))
}

impl Place {
    /// The place behind some bytes.
    pub fn behind(self, front: &[u8]) -> Place
        requires { self.line + length front.now < 2 ^ 32 }
        ensures line { result.line ≡ self.line + count_by (λ b. b == newline) front.now }
        ensures first { result.first ≡ fold stays_first self.first front.now }
    {
        Place {
            line: self.line + newlines(front) as u32,
            first: is_first(self.first, front),
        }
    }
}
