ghost use Rattle.std.specs.Prelude.{◌≡◌, All, IfOk, IsSome, option_map};
ghost use Rattle.cr_base.specs.Layout.{IsPiece, laid_record, spots_of};

use cr_base::{Front, Items, Laid, Memory, Piece, Spot};
use std::alloc::Global;
use std::marker::Model;

/// A record that is laid out. Contracts see its extent and the places of its members.
#[derive(Drop)]
pub(crate) struct Row {
    laid: Laid,
    spots: Items<Spot>,
}

impl Model for Row {
    ghost use Rattle.cx_core.specs.Layouts.{CRow};

    ghost Value = { CRow };

    ghost view = { λ row. record { laid = row.laid; spots = row.spots } };
}

impl Row {
    pub(crate) fn new(laid: Laid, spots: Items<Spot>) -> Row
        ensures { result ≡ record { laid = laid; spots = spots } }
    {
        Row { laid, spots }
    }

    pub(crate) fn laid(&self) -> Laid
        ensures { result ≡ self.now.laid }
    {
        self.laid
    }

    pub(crate) fn spots(&self) -> &[Spot]
        ensures { result.now ≡ self.now.spots }
    {
        self.spots.as_slice()
    }
}

// Where the members of a record stand, in their order. The record isn't too large.
pub(crate) fn spots_of(
    alloc: Global,
    is_union: bool,
    pieces: &[Piece],
) -> Result<Items<Spot>, Memory>
    requires { All IsPiece pieces.now × IsSome (laid_record is_union pieces.now) }
    ensures { IfOk result (λ spots. spots ≡ spots_of is_union pieces.now) }
{
    let mut front = Front::new(is_union);
    let mut spots = Items::new(alloc);
    for &piece in pieces {
        spots.push(front.spot(piece))?;
        front = front.after(piece);
    }
    Ok(spots)
}
