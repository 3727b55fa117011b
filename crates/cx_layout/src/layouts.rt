ghost use Rattle.std.specs.Prelude.{◌≡◌, ◌≤◌, ℕ, true, false, ◌<◌, [], ◌∷◌, map, length, All, IsSome, IfSome, IfOk, IfErr, IfNone, OnOk, OnErr, Some, None, is_some, slice_get, slice_set, option_map};
ghost use Rattle.std.specs.Option.{option_copied, option_flatten};
ghost use Rattle.cr_base.specs.Layout.{IsPiece, most_bytes, laid_record};
ghost use Rattle.cx_core.specs.Layouts.{extent, whole_extent, row_at, row_of, piece_of, pieces_of};
ghost use Rattle.cx_core.specs.Views.{view_type, view_member, view_record};
ghost use Rattle.cx_layout.specs.Building.{are_complete};
ghost use Rattle.cx_layout.specs.Calls.{HaveSameRows, spot_at, IsMemberComplete, HasFittingBits, IsTooLarge, AddsRecord, record_extent};
ghost use Rattle.cx_layout.specs.Extents.{told};
ghost use Rattle.cx_layout.specs.Rows.{IsFine, IsFineExtent, IsLargePiece, HasLarge};

use crate::extent::Extent;
use crate::put::{fit, put};
use crate::row::{Row, spots_of};
use cr_base::{Items, Laid, Memory, Piece, Spot, laid_record};
use cx_core::{Member, RecordTy, Ty, TyForm};
use std::alloc::Global;
use std::marker::Model;

/// Why a record isn't laid out.
#[derive(Clone, Copy, PartialEq, Eq)]
pub enum LayoutFault {
    /// It has more than 16,777,216 bytes.
    TooLarge,
    /// Want of memory.
    Memory,
}

impl From<Memory> for LayoutFault {
    ghost use Rattle.std.specs.Prelude.{◌≡◌};
    ghost use Rattle.cx_layout.specs.declared.layouts.LayoutFault.TheVariants.{Memory};

    ghost from_gives = { λ _ fault. fault ≡ Memory };

    fn from(_memory: Memory) -> LayoutFault {
        LayoutFault::Memory
    }
}

/// The records that are laid out, by their numbers. Contracts see them as that table.
#[derive(Drop)]
pub struct Layouts {
    rows: Vec<Option<Row>>,
}

impl Model for Layouts {
    ghost use Rattle.cx_core.specs.Layouts.{CLayouts};

    ghost Value = { CLayouts };

    ghost view = { λ layouts. layouts.rows.items };

    ghost use Rattle.cx_layout.specs.Rows.{AreFine};

    ghost invariant = { λ layouts. AreFine layouts.rows.items };
}

impl Layouts {
    /// No record is laid out. It takes no memory until one is added.
    pub fn new(alloc: Global) -> Layouts
        ensures { result ≡ [] }
    {
        Layouts {
            rows: Vec::new(alloc),
        }
    }

    /// The size of a type in bytes (ISO C99, 6.5.3.4p2), or None where it is incomplete, a function, or has
    /// more than 16,777,216 bytes.
    pub fn size(&self, t: &Ty) -> Option<u64>
        ensures { result ≡ option_map (λ laid. laid.size) (extent self.now (view_type t.now)) }
    {
        match self.extent(t) {
            Extent::Known(laid) => Some(laid.size),
            _ => None,
        }
    }

    /// The alignment of a type in bytes (ISO C99, 3.2), or None where it has no size.
    pub fn align(&self, t: &Ty) -> Option<u64>
        ensures { result ≡ option_map (λ laid. laid.align) (extent self.now (view_type t.now)) }
    {
        match self.extent(t) {
            Extent::Known(laid) => Some(laid.align),
            _ => None,
        }
    }

    /// Whether a type is complete by now (ISO C99, 6.2.5p1). Its size may be more than 16,777,216 bytes.
    pub fn is_complete(&self, t: &Ty) -> bool
        ensures { result ≡ is_some (whole_extent self.now (view_type t.now)) }
    {
        match self.extent(t) {
            Extent::Unknown => false,
            _ => true,
        }
    }

    /// Where a member stands, by its number from 0 in text order and the number of its record, or None where
    /// there is no such member (ISO C99, 6.7.2.1p10 to p14).
    pub fn member(&self, r: u32, k: u32) -> Option<Spot>
        ensures { result ≡ spot_at self.now r k }
    {
        self.spot(r, k as usize)
    }

    /// Where the member with an index in the list of a record's members stands, or None where there is none
    /// (ISO C99, 6.7.2.1p10 to p14).
    pub fn spot(&self, number: u32, index: usize) -> Option<Spot>
        ensures { result ≡ spot_at self.now number index }
    {
        let row = self.row(number)?;
        row.spots().get(index).copied()
    }

    /// Adds a record whose members are complete. Refused where it has more than 16,777,216 bytes, and for
    /// want of memory; then nothing changed.
    pub fn add(&mut self, r: &RecordTy) -> Result<(), LayoutFault>
        requires complete { All (IsMemberComplete self.old) (map view_member r.now.members) }
        requires bits { All HasFittingBits (map view_member r.now.members) }
        ensures added { OnOk result (AddsRecord self.old (view_record r.now) self.new) }
        ensures refused { OnErr result (HaveSameRows self.old self.new) }
        ensures too_large { IfErr result (λ fault. fault ≡ LayoutFault.TooLarge → IsTooLarge self.old (view_record r.now)) }
    {
        let row = match self.row_of(r) {
            Ok(row) => row,
            Err(fault) => return Err(fault),
        };
        put(&mut self.rows, r.number, row)?;
        Ok(())
    }

    /// Whether a record can be laid out: its members are complete, and it has no more than 16,777,216 bytes. Its number and its
    /// tag don't matter. Refused only for want of memory.
    #[tactic(auto, using(crate::proofs::Asked::incomplete_row, crate::proofs::Asked::too_large_row))]
    pub fn has_row(&self, r: &RecordTy) -> Result<bool, Memory>
        requires { All HasFittingBits (map view_member r.now.members) }
        ensures has { IfOk result (λ found. found ≡ is_some (row_of self.now (view_record r.now))) }
        ensures complete { IfOk result (λ found. found ≡ true → All (IsMemberComplete self.now) (map view_member r.now.members)) }
    {
        if !self.is_ready(r.members.as_slice()) {
            return Ok(false);
        }
        match self.row_of(r) {
            Ok(_row) => {}
            Err(fault) => return no_row(fault),
        }
        Ok(true)
    }

    // How a record is laid out.
    fn row_of(&self, r: &RecordTy) -> Result<Row, LayoutFault>
        requires complete { All (IsMemberComplete self.now) (map view_member r.now.members) }
        requires bits { All HasFittingBits (map view_member r.now.members) }
        ensures row { IfOk result (λ row. row_of self.now (view_record r.now) ≡ Some row) }
        ensures fine { IfOk result (λ row. IsFine row.laid) }
        ensures too_large { IfErr result (λ fault. fault ≡ LayoutFault.TooLarge → IsTooLarge self.now (view_record r.now)) }
    {
        let alloc = *self.rows.allocator();
        let pieces = match self.pieces(r.members.as_slice()) {
            Ok(pieces) => pieces,
            Err(fault) => return Err(fault),
        };
        let Some(laid) = laid_record(r.is_union, pieces.as_slice()) else {
            return Err(LayoutFault::TooLarge);
        };
        let spots = spots_of(alloc, r.is_union, pieces.as_slice())?;
        Ok(Row::new(laid, spots))
    }

    // The members of a record, as its layout sees them.
    fn pieces(&self, members: &[Member]) -> Result<Items<Piece>, LayoutFault>
        requires complete { All (IsMemberComplete self.now) (map view_member members.now) }
        requires bits { All HasFittingBits (map view_member members.now) }
        ensures pieces { IfOk result (λ pieces. pieces_of self.now (map view_member members.now) ≡ Some pieces) }
        ensures fine { IfOk result (λ pieces. All IsPiece pieces) }
        ensures too_large { IfErr result (λ fault. fault ≡ LayoutFault.TooLarge → HasLarge (pieces_of self.now (map view_member members.now))) }
    {
        let mut pieces = Items::new(*self.rows.allocator());
        for member in members {
            let Some(piece) = self.piece(member) else {
                return Err(LayoutFault::TooLarge);
            };
            pieces.push(piece)?;
        }
        Ok(pieces)
    }

    // A member of complete type, as the layout of its record sees it, or None where it is too large.
    fn piece(&self, member: &Member) -> Option<Piece>
        requires complete { IsMemberComplete self.now (view_member member.now) }
        requires bits { HasFittingBits (view_member member.now) }
        ensures piece { IfSome result (λ piece. (piece_of self.now (view_member member.now) ≡ Some piece) × IsPiece piece) }
        ensures too_large { IfNone result (IsLargePiece (piece_of self.now (view_member member.now))) }
    {
        let Extent::Known(laid) = self.extent(&member.ty) else {
            return None;
        };
        match member.bits {
            Some(width) => Some(Piece::Bits {
                size: laid.size,
                width,
                is_named: member.name.is_some(),
            }),
            None => Some(Piece::Plain {
                size: laid.size,
                align: laid.align,
            }),
        }
    }

    // The size and the alignment of a type.
    fn extent(&self, t: &Ty) -> Extent
        ensures told { result ≡ told (whole_extent self.now (view_type t.now)) }
        ensures fine { IsFineExtent result }
    {
        match &t.form {
            TyForm::Basic(which) => Extent::of_bytes(u64::from(which.width() / 8)),
            TyForm::Enum(_) => Extent::of_bytes(4),
            TyForm::Pointer(_) => Extent::of_bytes(8),
            TyForm::Array(element, length) => self.extent(element.get()).times(*length),
            TyForm::Record(number) => self.record_extent(*number),
            TyForm::Void => Extent::Unknown,
            TyForm::Function(_) => Extent::Unknown,
        }
    }

    fn record_extent(&self, number: u32) -> Extent
        ensures told { result ≡ told (option_map (λ row. row.laid) (row_at self.now number)) }
        ensures fine { IsFineExtent result }
    {
        match self.row(number) {
            Some(row) => Extent::Known(row.laid()),
            None => Extent::Unknown,
        }
    }

    fn row(&self, number: u32) -> Option<&Row>
        ensures row { option_copied result ≡ row_at self.now number }
        ensures fine { IfSome result (λ row. IsFine row.now.laid) }
    {
        match self.rows.get(number as usize) {
            Some(found) => found.as_ref(),
            None => None,
        }
    }

    // Makes the table one of so many records.
    pub(crate) fn fit(&mut self, count: usize) -> Result<(), Memory>
        ensures long { OnOk result (length self.new ≡ count) }
        ensures same { OnOk result ((number : ℕ) → number < count → row_at self.new number ≡ row_at self.old number) }
    {
        fit(&mut self.rows, count)
    }

    // Whether the record with a number is laid out.
    pub(crate) fn is_laid(&self, number: u32) -> bool
        ensures { result ≡ is_some (row_at self.now number) }
    {
        self.row(number).is_some()
    }

    // Whether all members are complete by now.
    pub(crate) fn is_ready(&self, members: &[Member]) -> bool
        ensures { result ≡ are_complete self.now (map view_member members.now) }
    {
        for member in members {
            if !self.is_complete(&member.ty) {
                return false;
            }
        }
        true
    }
}

// A record that isn't laid out for this cause has no row, unless memory was wanting.
fn no_row(fault: LayoutFault) -> Result<bool, Memory>
    ensures { IfOk result (λ found. (found ≡ false) × (fault ≡ LayoutFault.TooLarge)) }
{
    match fault {
        LayoutFault::TooLarge => Ok(false),
        LayoutFault::Memory => Err(Memory),
    }
}
