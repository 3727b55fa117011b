use std::alloc::{AllocError, Global};
use std::fmt::{Debug, Display};

/// The text of an answer, as it is written. Want of memory is kept until the end.
#[derive(Drop)]
pub struct Answer {
    text: String,
    lacks_memory: bool,
}

impl Answer {
    /// Nothing yet.
    pub fn new(alloc: Global) -> Answer {
        Answer {
            text: String::new(alloc),
            lacks_memory: false,
        }
    }

    /// Appends a text.
    pub fn text(&mut self, text: &str) {
        if self.text.push_str(text).is_err() {
            self.lacks_memory = true;
        }
    }

    /// Appends a number or a truth value.
    pub fn value<T: Display + Drop>(&mut self, value: T) {
        if write!(self.text, "{value}").is_err() {
            self.lacks_memory = true;
        }
    }

    /// Appends the name of a variant.
    pub fn variant<T: Debug + Drop>(&mut self, variant: T) {
        if write!(self.text, "{variant:?}").is_err() {
            self.lacks_memory = true;
        }
    }

    /// Appends bytes as the text of a row.
    pub fn bytes(&mut self, bytes: &[u8]) {
        for byte in bytes {
            self.byte(*byte);
        }
    }

    /// Appends bytes as the text of a row, between quotes.
    pub fn quoted(&mut self, bytes: &[u8]) {
        self.text("\"");
        self.bytes(bytes);
        self.text("\"");
    }

    fn byte(&mut self, byte: u8) {
        match byte {
            b'\n' => self.text("$n"),
            b' '..=b'#' | b'%'..=b'~' => self.value(char::from(byte)),
            _ => self.escape(byte),
        }
    }

    fn escape(&mut self, byte: u8) {
        if write!(self.text, "${byte:02x}").is_err() {
            self.lacks_memory = true;
        }
    }

    /// Appends a blank, where something was written.
    pub fn separate_words(&mut self) {
        if !self.text.is_empty() {
            self.text(" ");
        }
    }

    /// Appends what separates two steps of an answer, where a step was written.
    pub fn separate(&mut self) {
        if !self.text.is_empty() {
            self.text(" | ");
        }
    }

    /// Writes a text in the place of what was written.
    pub fn replace(&mut self, text: &str) {
        self.text.clear();
        self.text(text);
    }

    /// The whole text.
    pub fn finish(self) -> Result<String, AllocError> {
        let Answer { text, lacks_memory } = self;
        if lacks_memory {
            Err(AllocError)
        } else {
            Ok(text)
        }
    }
}
