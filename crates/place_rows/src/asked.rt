ghost use Rattle.std.specs.Prelude.{◌≡◌, unwrap_or};

use crate::fault::RowFault;
use std::alloc::Global;

/// What a row asks, read from the left, in words that single blanks separate. The first fault is kept until the
/// end, as `DebugStruct` of std keeps an error, and until then another value stands for what isn't there.
#[derive(Clone, Copy)]
pub(crate) struct Asked<'a> {
    rest: &'a str,
    fault: Option<RowFault>,
}

impl<'a> Asked<'a> {
    /// All of a text.
    pub(crate) fn new(text: &'a str) -> Asked<'a> {
        Asked {
            rest: text,
            fault: None,
        }
    }

    /// What wasn't read yet, as it is.
    pub(crate) fn rest(&self) -> &'a str {
        self.rest
    }

    /// The first fault.
    pub(crate) fn fault(&self) -> Option<RowFault> {
        self.fault
    }

    /// Keeps a fault, if it is the first.
    pub(crate) fn fail(&mut self, fault: RowFault) {
        if self.fault.is_none() {
            self.fault = Some(fault);
        }
    }

    /// Says that what is asked hasn't the form that it should have.
    pub(crate) fn refuse(&mut self) {
        self.fail(RowFault::Form);
    }

    /// What was found, or what stands for it where nothing was, which is refused.
    pub(crate) fn found<T: Drop>(&mut self, found: Option<T>, other: T) -> T
        ensures { result ≡ unwrap_or found other }
    {
        match found {
            Some(found) => found,
            None => {
                self.refuse();
                other
            }
        }
    }

    /// What there was memory for.
    pub(crate) fn had<T: Drop, E: Drop>(&mut self, made: Result<T, E>) -> Option<T> {
        match made {
            Ok(made) => Some(made),
            Err(_) => {
                self.fail(RowFault::Memory);
                None
            }
        }
    }

    /// The bytes of a text of a row.
    pub(crate) fn bytes_of(&mut self, alloc: Global, text: &str) -> Vec<u8> {
        let (plain, _) = text.split_once('$').unwrap_or((text, ""));
        let mut bytes = Vec::new(alloc);
        self.push(&mut bytes, plain.as_bytes());
        for piece in text.split('$').skip(1) {
            self.push_escaped(&mut bytes, piece);
        }
        bytes
    }

    fn push(&mut self, bytes: &mut Vec<u8>, more: &[u8]) {
        self.had(bytes.extend_from_slice(more));
    }

    // Appends the bytes of what stands behind a `$`, up to the next one.
    fn push_escaped(&mut self, bytes: &mut Vec<u8>, piece: &str) {
        if let Some(rest) = piece.strip_prefix('n') {
            self.push(bytes, b"\n");
            self.push(bytes, rest.as_bytes());
        } else if let Some((digits, rest)) = piece.split_at_checked(2) {
            let byte = self.found(u8::from_str_radix(digits, 16).ok(), 0);
            self.push(bytes, &[byte]);
            self.push(bytes, rest.as_bytes());
        } else {
            self.refuse();
        }
    }
}
