ghost use Rattle.std.specs.Prelude.{◌≡◌, drop};
ghost use Rattle.ext_calls.specs.Host.{first_answer};

use std::marker::Model;

/// Answers to come, in order. Contracts see the list of those that are left.
#[derive(Debug, Drop)]
pub struct Answers {
    list: Vec<i64>,
    next: usize,
}

impl Model for Answers {
    ghost use Rattle.std.specs.Prelude.{List, ℤ, ◌≤◌, drop, vec_len};

    ghost Value = { List ℤ };

    ghost view = { λ answers. drop answers.next answers.list.items };

    ghost invariant = { λ answers. answers.next ≤ vec_len answers.list };
}

impl Answers {
    /// All these answers, which stay where they are.
    pub fn of(list: Vec<i64>) -> Answers
        ensures { result ≡ list.items }
    {
        Answers { list, next: 0 }
    }

    /// The answers that are left, to read.
    pub fn as_slice(&self) -> &[i64]
        ensures { result.now ≡ self.now }
    {
        &self.list[self.next..]
    }

    /// The first answer that is left, or 0 where none is.
    pub fn first(&self) -> i64
        ensures { result ≡ first_answer self.now }
    {
        match self.as_slice() {
            [] => 0,
            [first, ..] => *first,
        }
    }

    /// Leaves the first answer out, if there is one.
    pub fn skip_first(&mut self)
        ensures { self.new ≡ drop 1 self.old }
    {
        if self.next < self.list.len() {
            self.next += 1;
        }
    }
}
