use std::alloc::{AllocError, Global};
use std::fmt::Display;

/// The text of an answer, as it is written. Want of memory is kept until the end.
#[derive(Drop)]
pub(crate) struct Answer {
    text: String,
    lacks_memory: bool,
}

impl Answer {
    /// Nothing yet.
    pub(crate) fn new(alloc: Global) -> Answer {
        Answer {
            text: String::new(alloc),
            lacks_memory: false,
        }
    }

    /// Appends a text.
    pub(crate) fn text(&mut self, text: &str) {
        if self.text.push_str(text).is_err() {
            self.lacks_memory = true;
        }
    }

    /// Appends a number or a truth value.
    pub(crate) fn value<T: Display + Drop>(&mut self, value: T) {
        if write!(self.text, "{value}").is_err() {
            self.lacks_memory = true;
        }
    }

    /// Writes a text in the place of what was written.
    pub(crate) fn replace(&mut self, text: &str) {
        self.text.clear();
        self.text(text);
    }

    /// The whole text.
    pub(crate) fn finish(self) -> Result<String, AllocError> {
        let Answer { text, lacks_memory } = self;
        if lacks_memory {
            Err(AllocError)
        } else {
            Ok(text)
        }
    }
}
