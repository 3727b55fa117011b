//! `turns LISTS CALLS SEED BYTES BLOCKS`: so many lists of so many calls each, random ones, asked of a store in a
//! region with this limit and of a list store; where the region has no room for a block, the list store isn't asked
//! for it. The answer is `same`, where both answered alike each time and in the end hold the same cells, or `differ`,
//! and then how many blocks were refused and how many faults were answered. A block is refused where the list store's
//! live blocks, which are counted, leave no room under the limit.

ghost use Rattle.mem_bytes.specs.Calls.{IsAlignment, IsCell, IsFieldPlace};
ghost use Rattle.mem_bytes.specs.Coding.{IsScalar, IsValueOf};

use crate::stage::memory::{FieldPlace, has_room};
use cr_base::{Int, Scalar, wrap};
use mem_bytes::{Cell, Fault, ListStore, Ptr, Store, StoreFault, Value};
use mem_region::RegionStore;
use row_words::{Answer, Asked, Random, region};
use std::alloc::Global;

// Sizes of blocks are below it, in bytes, and so are offsets.
const SIZES: u64 = 48;

pub(crate) fn answer(alloc: Global, asked: &mut Asked, out: &mut Answer) {
    let lists: u64 = asked.number();
    let calls: u64 = asked.number();
    let mut random = Random::new(asked.number());
    let limit = Limit {
        bytes: asked.number(),
        blocks: asked.number(),
    };
    let mut tally = Tally::NONE;
    for _list in 0..lists {
        one_list(alloc, limit, calls, asked, &mut random, &mut tally);
    }
    tally.write(out);
}

// How much the region holds.
#[derive(Clone, Copy)]
struct Limit {
    bytes: u64,
    blocks: u64,
}

// What came of the calls.
#[derive(Clone, Copy)]
struct Tally {
    differ: bool,
    refused: u32,
    faults: u32,
}

impl Tally {
    const NONE: Tally = Tally {
        differ: false,
        refused: 0,
        faults: 0,
    };

    fn compare(&mut self, same: bool) {
        if !same {
            self.differ = true;
        }
    }

    // Compares what two calls answered that give no value.
    fn compare_done(&mut self, one: Result<(), Fault>, other: Result<(), Fault>) {
        self.compare_faults(one.err(), other.err());
    }

    fn compare_faults(&mut self, one: Option<Fault>, other: Option<Fault>) {
        self.compare(one == other);
        if one.is_some() {
            self.faults = self.faults.saturating_add(1);
        }
    }

    fn write(&self, out: &mut Answer) {
        out.text(if self.differ { "differ, " } else { "same, " });
        out.value(self.refused);
        out.text(" refused, ");
        out.value(self.faults);
        out.text(" faults");
    }
}

fn one_list(
    alloc: Global,
    limit: Limit,
    calls: u64,
    asked: &mut Asked,
    random: &mut Random,
    tally: &mut Tally,
) {
    let Some(region) = region(alloc, limit.bytes, limit.blocks, asked) else {
        return;
    };
    let mut pair = Pair {
        region,
        list: ListStore::new(alloc),
        limit,
        made: 0,
    };
    for _call in 0..calls {
        pair.turn(random, tally);
    }
    pair.compare_all(tally);
}

// The two stores, and how many blocks were made in each.
#[derive(Drop)]
struct Pair {
    region: RegionStore,
    list: ListStore,
    limit: Limit,
    made: u32,
}

impl Pair {
    fn turn(&mut self, random: &mut Random, tally: &mut Tally) {
        match random.below(14) {
            0..=2 => self.alloc(random, tally),
            3 | 4 => self.kill(random, tally),
            5 | 6 => self.put(random, tally),
            7 | 8 => self.load(random, tally),
            9 => self.fill(random, tally),
            10 => self.copy(random, tally),
            11 => self.put_bits(random, tally),
            12 => self.load_bits(random, tally),
            _ => self.put_cell(random, tally),
        }
    }

    // One of the last blocks that were made, or the next number.
    fn block(&self, random: &mut Random) -> u64 {
        u64::from(self.made).saturating_sub(random.below(12))
    }

    // A place in such a block, which is often one where any scalar may stand.
    fn place(&self, random: &mut Random) -> Ptr {
        let block = self.block(random);
        let offset = random.below(SIZES);
        let anywhere = random.below(4) == 0;
        Ptr {
            block,
            offset: if anywhere { offset } else { offset / 8 * 8 },
        }
    }

    // Whether the live blocks of the list store leave no room for one of this size, and the bytes that they leave.
    fn counted(&self, size: u64) -> (bool, u64) {
        let mut bytes = 0u64;
        let mut blocks = 0u64;
        for block in 0..u64::from(self.made) {
            if let Some(state) = self.list.state(block) {
                bytes = bytes.saturating_add(state.size);
                blocks = blocks.saturating_add(u64::from(state.live));
            }
        }
        let left = self.limit.bytes.saturating_sub(bytes);
        (left < size || blocks == self.limit.blocks, left)
    }

    fn alloc(&mut self, random: &mut Random, tally: &mut Tally) {
        let size = random.below(SIZES);
        let align = alignment(random);
        let (refused, counted) = self.counted(size);
        if !has_room(&self.region) || !has_room(&self.list) {
            return;
        }
        match self.region.alloc(size, align) {
            Ok(number) => {
                tally.compare(!refused && self.list.alloc(size, align) == Ok(number));
                self.made = self.made.saturating_add(1);
            }
            Err(StoreFault::Full { need, left }) => {
                tally.compare(refused && need == size && left == counted);
                tally.refused = tally.refused.saturating_add(1);
            }
            Err(StoreFault::Memory) => tally.compare(false),
        }
    }

    fn kill(&mut self, random: &mut Random, tally: &mut Tally) {
        let block = self.block(random);
        tally.compare_done(self.region.kill(block), self.list.kill(block));
    }

    fn put(&mut self, random: &mut Random, tally: &mut Tally) {
        let at = self.place(random);
        let scalar = scalar(random);
        let value = value(random, scalar);
        tally.compare_done(
            self.region.put(at, scalar, value),
            self.list.put(at, scalar, value),
        );
    }

    fn load(&self, random: &mut Random, tally: &mut Tally) {
        let at = self.place(random);
        let scalar = scalar(random);
        let one = self.region.load(at, scalar);
        let other = self.list.load(at, scalar);
        tally.compare(one.ok() == other.ok());
        tally.compare_faults(one.err(), other.err());
    }

    fn fill(&mut self, random: &mut Random, tally: &mut Tally) {
        let at = self.place(random);
        let byte = random.below(256) as u8;
        let count = random.below(24);
        tally.compare_done(
            self.region.fill(at, byte, count),
            self.list.fill(at, byte, count),
        );
    }

    fn copy(&mut self, random: &mut Random, tally: &mut Tally) {
        let from = self.place(random);
        let to = self.place(random);
        let count = random.below(24);
        tally.compare_done(
            self.region.copy(from, to, count),
            self.list.copy(from, to, count),
        );
    }

    fn put_bits(&mut self, random: &mut Random, tally: &mut Tally) {
        let at = self.place(random);
        let field = field_place(random);
        let number = random.below(32_768) % (1 << field.width);
        tally.compare_done(
            self.region.put_bits(at, field.bit, field.width, number),
            self.list.put_bits(at, field.bit, field.width, number),
        );
    }

    fn load_bits(&self, random: &mut Random, tally: &mut Tally) {
        let at = self.place(random);
        let field = field_place(random);
        let one = self.region.load_bits(at, field.bit, field.width);
        let other = self.list.load_bits(at, field.bit, field.width);
        tally.compare(one.ok() == other.ok());
        tally.compare_faults(one.err(), other.err());
    }

    fn put_cell(&mut self, random: &mut Random, tally: &mut Tally) {
        let at = self.place(random);
        let cell = cell(random);
        tally.compare_done(self.region.put_cell(at, cell), self.list.put_cell(at, cell));
    }

    // Compares what is told of all blocks, and their cells.
    fn compare_all(&self, tally: &mut Tally) {
        for block in 0..u64::from(self.made) + 1 {
            tally.compare(self.region.state(block) == self.list.state(block));
            self.compare_cells(block, tally);
        }
    }

    fn compare_cells(&self, block: u64, tally: &mut Tally) {
        for offset in 0..SIZES {
            let at = Ptr { block, offset };
            let one = self.region.cell(at);
            let other = self.list.cell(at);
            tally.compare(one.ok() == other.ok() && one.err() == other.err());
        }
    }
}

fn alignment(random: &mut Random) -> u64
    ensures { IsAlignment result }
{
    match random.below(5) {
        0 => 1,
        1 => 2,
        2 => 4,
        3 => 8,
        _ => 16,
    }
}

fn scalar(random: &mut Random) -> Scalar
    ensures { IsScalar result }
{
    let signed = random.below(2) == 1;
    match random.below(7) {
        0 => Scalar::Truth,
        1 => Scalar::Whole { width: 8, signed },
        2 => Scalar::Whole { width: 16, signed },
        3 => Scalar::Whole { width: 32, signed },
        4 => Scalar::Whole { width: 64, signed },
        5 => Scalar::Object,
        _ => Scalar::Code,
    }
}

fn value(random: &mut Random, scalar: Scalar) -> Value
    requires { IsScalar scalar }
    ensures { IsValueOf scalar result }
{
    let number = random.below(32_768);
    match scalar {
        Scalar::Truth => Value::Whole(Int::from(number % 2)),
        Scalar::Whole { .. } => Value::Whole(wrap(scalar, Int::from(number) - 16_384)),
        Scalar::Object => object(number),
        Scalar::Code => code(number),
    }
}

fn object(number: u64) -> Value
    ensures { IsValueOf Scalar.Object result }
{
    if number < 4096 {
        return Value::Null;
    }
    Value::Object(Ptr {
        block: number % 16,
        offset: number / 16,
    })
}

fn code(number: u64) -> Value
    ensures { IsValueOf Scalar.Code result }
{
    if number < 4096 {
        return Value::Null;
    }
    Value::Code((number % 64) as u32)
}

fn field_place(random: &mut Random) -> FieldPlace
    ensures { IsFieldPlace result.bit result.width }
{
    FieldPlace {
        bit: random.below(8) as u32,
        width: random.below(32) as u32 + 1,
    }
}

// A cell of bits, some of which may be unset, or a byte of a pointer.
fn cell(random: &mut Random) -> Cell
    ensures { IsCell result }
{
    let first = random.below(256);
    let second = random.below(256);
    if second < 32 {
        return Cell::PtrByte {
            of: Value::Code(first as u32),
            index: (second % 8) as u8,
        };
    }
    Cell::Bits {
        value: first as u8,
        set: second as u8,
    }
}
