ghost use Rattle.std.specs.Prelude.{◌≡◌, unwrap_or};

use crate::fault::RowFault;
use std::alloc::Global;
use std::str::FromStr;

/// What a row asks, read from the left, in words that single blanks separate. The first fault is kept until the
/// end, as `DebugStruct` of std keeps an error, and until then another value stands for what isn't there.
#[derive(Clone, Copy)]
pub struct Asked<'a> {
    rest: &'a str,
    fault: Option<RowFault>,
}

impl<'a> Asked<'a> {
    /// All of a text.
    pub fn new(text: &'a str) -> Asked<'a> {
        Asked {
            rest: text,
            fault: None,
        }
    }

    /// Goes on with another text.
    pub fn begin(&mut self, text: &'a str) {
        self.rest = text;
    }

    /// What wasn't read yet, as it is.
    pub fn rest(&self) -> &'a str {
        self.rest
    }

    /// The first fault.
    pub fn fault(&self) -> Option<RowFault> {
        self.fault
    }

    /// Keeps a fault, if it is the first.
    pub fn fail(&mut self, fault: RowFault) {
        if self.fault.is_none() {
            self.fault = Some(fault);
        }
    }

    /// Says that what is asked hasn't the form that it should have.
    pub fn refuse(&mut self) {
        self.fail(RowFault::Form);
    }

    /// Refuses what is left, if anything is.
    pub fn end(&mut self) {
        if !self.rest.is_empty() {
            self.refuse();
        }
    }

    /// What was found, or what stands for it where nothing was, which is refused.
    pub fn found<T: Drop>(&mut self, found: Option<T>, other: T) -> T
        ensures { result ≡ unwrap_or found other }
    {
        match found {
            Some(found) => found,
            None => {
                self.refuse();
                other
            }
        }
    }

    /// What there was memory for.
    pub fn had<T: Drop, E: Drop>(&mut self, made: Result<T, E>) -> Option<T> {
        match made {
            Ok(made) => Some(made),
            Err(_) => {
                self.fail(RowFault::Memory);
                None
            }
        }
    }

    /// The next word.
    pub fn word(&mut self) -> &'a str {
        let (word, rest) = self.rest.split_once(' ').unwrap_or((self.rest, ""));
        self.rest = rest;
        if word.is_empty() {
            self.refuse();
        }
        word
    }

    /// The next word as a number.
    pub fn number<N: FromStr + Default + Drop>(&mut self) -> N
    where
        N::Err: Drop,
    {
        let number = self.word().parse().ok();
        self.found(number, N::default())
    }

    /// The words that are left, as numbers.
    pub fn numbers<N: FromStr + Default + Drop>(&mut self, alloc: Global) -> Vec<N>
    where
        N::Err: Drop,
    {
        let mut numbers = Vec::new(alloc);
        for word in self.rest.split_ascii_whitespace() {
            self.rest = word;
            let number = self.number();
            self.had(numbers.push(number));
        }
        numbers
    }

    /// The next word as what stands under this name in a table.
    pub fn named<T: Copy>(&mut self, table: &[(&str, T)]) -> Option<T> {
        let name = self.word();
        let named = under_name(table, name);
        if named.is_none() {
            self.refuse();
        }
        named
    }

    /// The bytes of what is left, as a text of a row.
    pub fn bytes(&mut self, alloc: Global) -> Vec<u8> {
        let (plain, _) = self.rest.split_once('$').unwrap_or((self.rest, ""));
        let mut bytes = Vec::new(alloc);
        self.push(&mut bytes, plain.as_bytes());
        for piece in self.rest.split('$').skip(1) {
            self.push_escaped(&mut bytes, piece);
        }
        self.rest = "";
        bytes
    }

    /// A copy of a word.
    pub fn string(&mut self, alloc: Global, word: &str) -> String {
        let mut string = String::new(alloc);
        self.had(string.push_str(word));
        string
    }

    fn push(&mut self, bytes: &mut Vec<u8>, more: &[u8]) {
        self.had(bytes.extend_from_slice(more));
    }

    // Appends the bytes of what stands behind a `$`, up to the next one.
    fn push_escaped(&mut self, bytes: &mut Vec<u8>, piece: &str) {
        if let Some(rest) = piece.strip_prefix('n') {
            self.push(bytes, b"\n");
            self.push(bytes, rest.as_bytes());
        } else if let Some((digits, rest)) = piece.split_at_checked(2) {
            let byte = self.found(u8::from_str_radix(digits, 16).ok(), 0);
            self.push(bytes, &[byte]);
            self.push(bytes, rest.as_bytes());
        } else {
            self.refuse();
        }
    }
}

/// What stands under a name in a table.
pub fn under_name<T: Copy>(table: &[(&str, T)], name: &str) -> Option<T> {
    for (word, named) in table {
        if *word == name {
            return Some(*named);
        }
    }
    None
}
