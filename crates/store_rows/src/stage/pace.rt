//! `pace STORE WORK LIVE ROUNDS`: a number of rounds of work in a store with so many live blocks of 8 bytes, to be
//! timed. The store is `list` or `region`; the work is `access`, a `put` and a `load` in a random block, `churn`, a
//! `kill` of a random block and an `alloc` of another, or `mixed`, both. The answer is how many rounds had no fault.

use crate::stage::memory::has_room;
use cr_base::{Int, Scalar};
use mem_bytes::{ListStore, Ptr, Store, Value};
use row_words::{Answer, Asked, Random, region};
use std::alloc::Global;

const SIZE: u64 = 8;

const WORD: Scalar = Scalar::Whole {
    width: 64,
    signed: false,
};

#[derive(Clone, Copy)]
enum Kind {
    List,
    Region,
}

const KINDS: [(&str, Kind); 2] = [("list", Kind::List), ("region", Kind::Region)];

#[derive(Clone, Copy)]
enum Work {
    Access,
    Churn,
    Mixed,
}

const WORKS: [(&str, Work); 3] = [
    ("access", Work::Access),
    ("churn", Work::Churn),
    ("mixed", Work::Mixed),
];

pub(crate) fn answer(alloc: Global, asked: &mut Asked, out: &mut Answer) {
    let Some(kind) = asked.named(&KINDS) else {
        return;
    };
    let Some(work) = asked.named(&WORKS) else {
        return;
    };
    let live: u64 = asked.number();
    let rounds: u64 = asked.number();
    match kind {
        Kind::List => run(alloc, ListStore::new(alloc), work, live, rounds, asked, out),
        Kind::Region => {
            let bytes = live.saturating_mul(SIZE);
            if let Some(store) = region(alloc, bytes, live, asked) {
                run(alloc, store, work, live, rounds, asked, out);
            }
        }
    }
}

fn run<S: Store + Drop>(
    alloc: Global,
    store: S,
    work: Work,
    live: u64,
    rounds: u64,
    asked: &mut Asked,
    out: &mut Answer,
) {
    let mut pacing = Pacing {
        store,
        blocks: Vec::new(alloc),
        random: Random::new(1),
    };
    for _block in 0..live {
        let block = pacing.made();
        asked.had(pacing.blocks.push(block));
    }
    let mut done = 0u32;
    for _round in 0..rounds {
        if pacing.round(work) {
            done = done.saturating_add(1);
        }
    }
    out.value(done);
}

// A store, and the numbers of its live blocks.
#[derive(Drop)]
struct Pacing<S> {
    store: S,
    blocks: Vec<u64>,
    random: Random,
}

impl<S: Store> Pacing<S> {
    // The number of a new block, or 0 where there is no room.
    fn made(&mut self) -> u64 {
        if !has_room(&self.store) {
            return 0;
        }
        self.store.alloc(SIZE, SIZE).unwrap_or(0)
    }

    // The place of a random block among the live ones.
    fn index(&mut self) -> usize {
        let high = self.random.below(32_768);
        let low = self.random.below(32_768);
        (high * 32_768 + low) as usize
    }

    fn round(&mut self, work: Work) -> bool {
        let index = self.index();
        let count = self.blocks.len();
        if count == 0 {
            return false;
        }
        match work {
            Work::Access => self.access(index % count),
            Work::Churn => self.churn(index % count),
            Work::Mixed => self.churn(index % count) && self.access(index % count),
        }
    }

    fn access(&mut self, index: usize) -> bool {
        let Some(block) = self.blocks.get(index) else {
            return false;
        };
        let at = Ptr {
            block: *block,
            offset: 0,
        };
        let value = Value::Whole(Int::from(at.block));
        self.store.put(at, WORD, value).is_ok() && self.store.load(at, WORD) == Ok(value)
    }

    fn churn(&mut self, index: usize) -> bool {
        let Some(block) = self.blocks.get(index) else {
            return false;
        };
        if self.store.kill(*block).is_err() {
            return false;
        }
        let made = self.made();
        if let Some(place) = self.blocks.get_mut(index) {
            *place = made;
        }
        true
    }
}
