//! What the operands of an expression have read and written (ISO C99, 6.5p2).

ghost use Rattle.std.specs.Prelude.{◌≡◌, ◌++◌, OnOk};
ghost use Rattle.std.specs.List.{list_any};
ghost use Rattle.cx_mean.specs.Marks.{any_overlap, at_sequence_point, both, conflict, no_marks, overlap, with_read, with_write};

use cr_base::{Items, Memory};
use std::alloc::Global;
use std::marker::Model;

/// Bits of a block: those from one number on and below another, counted from the lowest bit of the block's
/// first byte.
#[derive(Clone, Copy)]
pub struct Range {
    /// The number of the block.
    pub block: u64,
    pub from: u64,
    pub to: u64,
}

impl Model for Range {
    ghost use Rattle.cx_mean.specs.Marks as meaning;

    ghost Value = { meaning.Range };

    ghost view = { λ one. record { block = one.block; from = one.from; to = one.to } };

    ghost inverse = { λ one. record { block = one.block; from = one.from; to = one.to } };
}

/// The accesses of a finished operand.
#[derive(Drop)]
pub struct Marks {
    /// What it read.
    pub reads: Items<Range>,
    /// What it wrote.
    pub writes: Items<Range>,
    /// What it wrote since its last sequence point inside.
    pub still: Items<Range>,
}

impl Model for Marks {
    ghost use Rattle.cx_mean.specs.Marks as meaning;

    ghost Value = { meaning.Marks };

    ghost view = { λ one. record { reads = one.reads; writes = one.writes; still = one.still } };
}

impl Range {
    /// Whether two ranges have a bit in common.
    fn overlaps(self, other: Range) -> bool
        ensures { result ≡ overlap self other }
    {
        self.block == other.block && self.from < other.to && other.from < self.to
    }
}

// Whether a range has a bit in common with one of a list.
fn meets_one(range: Range, others: &[Range]) -> bool
    ensures { result ≡ list_any (overlap range) others.now }
{
    for other in others {
        if range.overlaps(*other) {
            return true;
        }
    }
    false
}

/// Whether a range of one list has a bit in common with one of another.
pub fn any_overlap(ones: &[Range], others: &[Range]) -> bool
    ensures { result ≡ any_overlap ones.now others.now }
{
    if others.is_empty() {
        return false;
    }
    for one in ones {
        if meets_one(*one, others) {
            return true;
        }
    }
    false
}

/// Whether two operands' accesses conflict: one writes what the other reads or writes (ISO C99, 6.5p2).
pub fn conflict(one: &Marks, other: &Marks) -> bool
    ensures { result ≡ conflict one.now other.now }
{
    if any_overlap(one.writes.as_slice(), other.writes.as_slice()) {
        return true;
    }
    if any_overlap(one.writes.as_slice(), other.reads.as_slice()) {
        return true;
    }
    any_overlap(one.reads.as_slice(), other.writes.as_slice())
}

// Adds ranges behind others. Where there are none in front, they stay where they are.
fn add_behind(ranges: &mut Items<Range>, more: Items<Range>) -> Result<(), Memory>
    ensures { OnOk result (ranges.new ≡ ranges.old ++ more) }
{
    if ranges.is_empty() {
        *ranges = more;
        return Ok(());
    }
    ranges.append(more)
}

impl Marks {
    /// No accesses; they take no memory until one is added.
    pub fn new(alloc: Global) -> Marks
        ensures { result ≡ no_marks }
    {
        Marks {
            reads: Items::new(alloc),
            writes: Items::new(alloc),
            still: Items::new(alloc),
        }
    }

    /// Adds the accesses of another operand. Refused only for want of memory.
    pub fn join(&mut self, other: Marks) -> Result<(), Memory>
        ensures { OnOk result (self.new ≡ both self.old other) }
    {
        let Marks {
            reads,
            writes,
            still,
        } = other;
        add_behind(&mut self.reads, reads)?;
        add_behind(&mut self.writes, writes)?;
        add_behind(&mut self.still, still)
    }

    /// Adds what is read. Refused only for want of memory.
    pub fn read(&mut self, range: Range) -> Result<(), Memory>
        ensures { OnOk result (self.new ≡ with_read range self.old) }
    {
        self.reads.push(range)
    }

    /// Adds what is written. Refused only for want of memory.
    pub fn write(&mut self, range: Range) -> Result<(), Memory>
        ensures { OnOk result (self.new ≡ with_write range self.old) }
    {
        self.writes.push(range)?;
        self.still.push(range)
    }

    /// There is a sequence point behind all accesses (5.1.2.3p2).
    pub fn end_sequence(&mut self, alloc: Global)
        ensures { self.new ≡ at_sequence_point self.old }
    {
        self.still = Items::new(alloc);
    }
}
