//! Initialisers in rows.

use crate::asked::Asked;
use crate::types::int;
use cr_base::{Boxed, Int, Items, Name, Place};
use cx_core::{CoreExpr, Form};
use cx_place::{Entry, Given, To};
use std::alloc::Global;
use std::mem;

// The number of a string literal's object.
const OBJECT: u32 = 7;

const HERE: Place = Place { unit: 0, line: 1 };

// A list that is open: its entries so far, and the designators in front of it.
#[derive(Drop)]
struct Open {
    entries: Items<Entry>,
    at: Items<To>,
}

// What was read of an initialiser: the lists that are open, the designators in front of what comes next, and the whole, once it has
// ended.
#[derive(Drop)]
struct Reader {
    alloc: Global,
    lists: Vec<Open>,
    at: Items<To>,
    whole: Option<Given>,
}

/// The initialiser of a text, or None where there is none.
pub(crate) fn given(alloc: Global, text: &str, asked: &mut Asked) -> Option<Given> {
    let mut reader = Reader {
        alloc,
        lists: Vec::new(alloc),
        at: Items::new(alloc),
        whole: None,
    };
    for word in text.split_ascii_whitespace() {
        reader.word(word, asked);
    }
    reader.whole
}

impl Reader {
    fn word(&mut self, word: &str, asked: &mut Asked) {
        match word {
            "(" => self.open(asked),
            ")" => self.close(asked),
            _ => self.part(word, asked),
        }
    }

    fn open(&mut self, asked: &mut Asked) {
        let at = mem::replace(&mut self.at, Items::new(self.alloc));
        let entries = Items::new(self.alloc);
        asked.had(self.lists.push(Open { entries, at }));
    }

    fn close(&mut self, asked: &mut Asked) {
        let Some(list) = self.lists.pop() else {
            asked.refuse();
            return;
        };
        let Open { entries, at } = list;
        self.at = at;
        self.give(Given::List(entries), asked);
    }

    // A designator, or a value.
    fn part(&mut self, word: &str, asked: &mut Asked) {
        if let Some(index) = word.strip_prefix("[") {
            let index = index.strip_suffix("]").unwrap_or("");
            let number: i64 = asked.found(index.parse().ok(), 0);
            asked.had(self.at.push(To::Index(Int::from(number))));
        } else if let Some(name) = word.strip_prefix(".") {
            let name = self.name(name.as_bytes(), asked);
            asked.had(self.at.push(To::Field(name)));
        } else {
            self.value(word, asked);
        }
    }

    fn name(&self, bytes: &[u8], asked: &mut Asked) -> Name {
        let bytes = asked.had(Vec::from_slice(self.alloc, bytes));
        Name::of(bytes.unwrap_or(Vec::new(self.alloc)))
    }

    fn value(&mut self, word: &str, asked: &mut Asked) {
        if let Some(text) = word.strip_prefix("'") {
            let bytes = self.text(text, asked);
            self.give(
                Given::Text {
                    bytes,
                    object: OBJECT,
                    place: HERE,
                },
                asked,
            );
        } else {
            self.number(word, asked);
        }
    }

    // The bytes of a text, with a zero byte at their end.
    fn text(&self, text: &str, asked: &mut Asked) -> Name {
        let mut bytes = asked.bytes_of(self.alloc, text);
        asked.had(bytes.push(0));
        Name::of(bytes)
    }

    fn number(&mut self, word: &str, asked: &mut Asked) {
        let number: i64 = asked.found(word.parse().ok(), 0);
        let core = CoreExpr {
            ty: int(),
            place: HERE,
            form: Form::Whole(Int::from(number)),
        };
        if let Some(core) = asked.had(Boxed::new(self.alloc, core)) {
            self.give(Given::Value(core), asked);
        }
    }

    // What is given goes into the innermost open list, or is the whole.
    fn give(&mut self, given: Given, asked: &mut Asked) {
        let at = mem::replace(&mut self.at, Items::new(self.alloc));
        match self.lists.last_mut() {
            Some(list) => {
                asked.had(list.entries.push(Entry { at, given }));
            }
            None => self.whole = Some(given),
        }
    }
}
