//! How a structure or union is laid out.

ghost use Rattle.std.specs.Prelude.{◌≡◌, false, Some, map, option_map, All, IfOk, IfSome};
ghost use Rattle.cx_core.specs.Layouts.{CRow, extent, row_at};
ghost use Rattle.cx_core.specs.Trees.{ty, record_type};
ghost use Rattle.cx_core.specs.Views.{view_member, view_record, view_type};
ghost use Rattle.cx_layout.specs.Calls.{IsMemberComplete, HasFittingBits};
ghost use Rattle.rs_items.specs.Laid.{IsLaidOut};

use cr_base::{Items, Memory, Spot};
use cx_core::{RecordTy, Ty, TyForm};
use cx_layout::{LayoutFault, Layouts};
use std::alloc::Global;

/// The size and the alignment of a structure or union, and where its members stand.
#[derive(Drop)]
pub(crate) struct LaidOut {
    pub(crate) spots: Items<Spot>,
    pub(crate) size: u64,
    pub(crate) align: u64,
}

/// Lays out one more structure or union. None where it is too large.
pub(crate) fn lay_out(
    alloc: Global,
    layouts: &mut Layouts,
    one: &RecordTy,
) -> Result<Option<LaidOut>, Memory>
    requires complete { All (IsMemberComplete layouts.old) (map view_member one.now.members) }
    requires bits { All HasFittingBits (map view_member one.now.members) }
    ensures { IfOk result (λ found. IfSome found (λ laid. IsLaidOut (view_record one.now) laid.spots laid.size laid.align)) }
{
    match layouts.add(one) {
        Ok(()) => laid_out(alloc, layouts, one.number),
        Err(LayoutFault::TooLarge) => Ok(None),
        Err(LayoutFault::Memory) => Err(Memory),
    }
}

// How the structure or union of a number is laid out.
fn laid_out(alloc: Global, layouts: &Layouts, number: u32) -> Result<Option<LaidOut>, Memory>
    ensures { IfOk result (λ found. IfSome found (λ laid. (row : CRow) → row_at layouts.now number ≡ Some row
        → row ≡ record { laid = record { size = laid.size; align = laid.align }; spots = laid.spots })) }
{
    let spots = spots_of(alloc, layouts, number)?;
    let Some(size) = size_of(layouts, number) else {
        return Ok(None);
    };
    let Some(align) = align_of(layouts, number) else {
        return Ok(None);
    };
    Ok(Some(LaidOut { spots, size, align }))
}

fn size_of(layouts: &Layouts, number: u32) -> Option<u64>
    ensures { result ≡ option_map (λ laid. laid.size) (extent layouts.now (ty (record_type number) false)) }
{
    layouts.size(&whole(number))
}

fn align_of(layouts: &Layouts, number: u32) -> Option<u64>
    ensures { result ≡ option_map (λ laid. laid.align) (extent layouts.now (ty (record_type number) false)) }
{
    layouts.align(&whole(number))
}

// The type of a structure or union.
fn whole(number: u32) -> Ty
    ensures { view_type result ≡ ty (record_type number) false }
{
    Ty {
        form: TyForm::Record(number),
        is_const: false,
    }
}

// Where its members stand.
fn spots_of(alloc: Global, layouts: &Layouts, number: u32) -> Result<Items<Spot>, Memory>
    ensures { IfOk result (λ spots. (row : CRow) → row_at layouts.now number ≡ Some row → row.spots ≡ spots) }
{
    let mut spots = Items::new(alloc);
    for index in 0..usize::MAX {
        let Some(spot) = layouts.spot(number, index) else {
            return Ok(spots);
        };
        spots.push(spot)?;
    }
    Err(Memory)
}
