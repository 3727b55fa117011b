//! How a structure or union is laid out.

ghost use Rattle.std.specs.Prelude.{◌≡◌, Some, false, is_some, option_map, IfOk};
ghost use Rattle.cx_core.specs.Layouts.{CRow, extent, row_at};
ghost use Rattle.cx_core.specs.Trees.{ty, record_type};
ghost use Rattle.cx_core.specs.Views.{view_type};
ghost use Rattle.whole_records.specs.Laid.{view_laid};

use cr_base::{Items, Memory, Spot};
use cx_core::{Ty, TyForm};
use cx_layout::Layouts;
use std::alloc::Global;

/// Where the members of a structure or union stand, and its size and alignment.
#[derive(Drop)]
pub struct LaidOut {
    pub spots: Items<Spot>,
    pub size: u64,
    pub align: u64,
}

// The type of a structure or union.
fn record_ty(number: u32) -> Ty
    ensures { view_type result ≡ ty (record_type number) false }
{
    Ty {
        form: TyForm::Record(number),
        is_const: false,
    }
}

fn is_laid_out(layouts: &Layouts, number: u32) -> bool
    ensures { result ≡ is_some (option_map (λ row. row.laid) (row_at layouts.now number)) }
{
    layouts.is_complete(&record_ty(number))
}

fn size_of(layouts: &Layouts, number: u32) -> Option<u64>
    ensures { result ≡ option_map (λ laid. laid.size) (extent layouts.now (ty (record_type number) false)) }
{
    layouts.size(&record_ty(number))
}

fn align_of(layouts: &Layouts, number: u32) -> Option<u64>
    ensures { result ≡ option_map (λ laid. laid.align) (extent layouts.now (ty (record_type number) false)) }
{
    layouts.align(&record_ty(number))
}

// Where its members stand.
fn spots_of(alloc: Global, layouts: &Layouts, number: u32) -> Result<Items<Spot>, Memory>
    ensures { IfOk result (λ spots. (row : CRow) → row_at layouts.now number ≡ Some row → row.spots ≡ spots) }
{
    let mut spots = Items::new(alloc);
    for index in 0..usize::MAX {
        let Some(spot) = layouts.spot(number, index) else {
            return Ok(spots);
        };
        spots.push(spot)?;
    }
    Err(Memory)
}

/// How the structure or union of a number is laid out, if it is. Refused only for want of memory.
pub fn laid_out(alloc: Global, layouts: &Layouts, number: u32) -> Result<Option<LaidOut>, Memory>
    ensures { IfOk result (λ found. option_map view_laid found ≡ row_at layouts.now number) }
{
    if !is_laid_out(layouts, number) {
        return Ok(None);
    }
    let spots = spots_of(alloc, layouts, number)?;
    let Some(size) = size_of(layouts, number) else {
        return Err(Memory);
    };
    let Some(align) = align_of(layouts, number) else {
        return Err(Memory);
    };
    Ok(Some(LaidOut { spots, size, align }))
}
