ghost use Rattle.std.specs.Prelude.{◌≡◌, [], IfOk, OnOk, option_map, vec_items};
ghost use Rattle.std_host.specs.Formats.{formatted};
ghost use Rattle.std_host.specs.Printing.{continued, Reads, Converts};

use crate::begun::Begun;
use crate::conversion::Conversion;
use crate::show::show;
use cr_base::{Items, Memory};
use ext_calls::Arg;
use std::alloc::Global;
use std::marker::Model;

// What `printf` has made of a front of its format. Contracts see the text, how much of a conversion has been read in front of what is
// left, and the arguments that are left.
#[derive(Drop)]
struct Printing<'a> {
    alloc: Global,
    text: Vec<u8>,
    begun: Begun,
    args: &'a [Arg],
}

impl<'a> Model for Printing<'a> {
    ghost use Rattle.std_host.specs.Printing.{PrintingView};

    ghost Value = { PrintingView };

    ghost view = { λ printing. record {
      text = printing.text.items;
      begun = printing.begun;
      args = printing.args.now;
    } };
}

// What a format writes with these arguments, whole, or None where they don't fit it. Refused only for want of memory.
pub(crate) fn formatted(
    alloc: Global,
    format: &[u8],
    args: &[Arg],
) -> Result<Option<Items<u8>>, Memory>
    ensures { IfOk result (λ text. text ≡ formatted format.now args.now) }
{
    let mut printing = Printing::new(alloc, args);
    for byte in format {
        if !printing.read(*byte)? {
            return Ok(None);
        }
    }
    Ok(printing.end())
}

impl<'a> Printing<'a> {
    // Nothing has been read yet.
    fn new(alloc: Global, args: &'a [Arg]) -> Printing<'a>
        ensures { result ≡ record { text = []; begun = Begun.Nothing; args = args.now } }
    {
        Printing {
            alloc,
            text: Vec::new(alloc),
            begun: Begun::Nothing,
            args,
        }
    }

    // Reads the next byte of the format; false where the arguments don't fit it.
    fn read(&mut self, byte: u8) -> Result<bool, Memory>
        ensures { IfOk result (λ fits. Reads fits byte self.old self.new) }
    {
        match self.begun {
            Begun::Nothing => self.read_plain(byte),
            Begun::Percent => self.read_letter(byte),
            Begun::Long => self.convert(Conversion::long(byte)),
        }
    }

    // Reads a byte outside of a conversion.
    fn read_plain(&mut self, byte: u8) -> Result<bool, Memory>
        requires { self.old.begun ≡ Begun.Nothing }
        ensures { IfOk result (λ fits. Reads fits byte self.old self.new) }
    {
        if byte == b'%' {
            self.begun = Begun::Percent;
        } else {
            self.text.push(byte)?;
        }
        Ok(true)
    }

    // Reads a byte behind `%`.
    fn read_letter(&mut self, letter: u8) -> Result<bool, Memory>
        requires { self.old.begun ≡ Begun.Percent }
        ensures { IfOk result (λ fits. Reads fits letter self.old self.new) }
    {
        match letter {
            b'%' => {
                self.text.push(b'%')?;
                self.begun = Begun::Nothing;
                Ok(true)
            }
            b'l' => {
                self.begun = Begun::Long;
                Ok(true)
            }
            _ => self.convert(Conversion::plain(letter)),
        }
    }

    // Ends a conversion with the next argument; false where there is none, or it is of another kind.
    fn convert(&mut self, conversion: Option<Conversion>) -> Result<bool, Memory>
        ensures { IfOk result (λ fits. Converts fits conversion self.old self.new) }
    {
        let Some(conversion) = conversion else {
            return Ok(false);
        };
        let Some((arg, args)) = self.args.split_first() else {
            return Ok(false);
        };
        self.args = args;
        self.begun = Begun::Nothing;
        show(self.alloc, conversion, arg, &mut self.text)
    }

    // The text, or None where a conversion isn't ended or an argument is left over.
    fn end(self) -> Option<Items<u8>>
        ensures { result ≡ continued self.entry [] }
    {
        match self.begun {
            Begun::Nothing if self.args.is_empty() => Some(Items::of(self.text)),
            _ => None,
        }
    }
}
