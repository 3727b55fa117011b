ghost use Rattle.std.specs.Prelude.{◌≡◌, ◌+◌, ◌<◌, ℕ, Some, OnOk, OnErr, IfErr, length};
ghost use Rattle.cx_core.specs.Layouts.{row_at};
ghost use Rattle.cx_layout.specs.Calls.{HaveSameRows};
ghost use Rattle.cx_layout.specs.Rows.{IsFine, AreFine, PutsRow};

use crate::layouts::LayoutFault;
use crate::row::Row;
use cr_base::Memory;

// Lays out the record with a number so.
pub(crate) fn put(rows: &mut Vec<Option<Row>>, number: u32, row: Row) -> Result<(), Memory>
    requires { IsFine row.laid }
    ensures put { OnOk result (PutsRow rows.old.items number row rows.new.items) }
    ensures same { OnErr result (HaveSameRows rows.old.items rows.new.items) }
    ensures fine { AreFine rows.old.items → AreFine rows.new.items }
{
    reach(rows, number)?;
    rows[number as usize] = Some(row);
    Ok(())
}

// Makes room for the record with a number.
fn reach(rows: &mut Vec<Option<Row>>, number: u32) -> Result<(), Memory>
    ensures same { HaveSameRows rows.old.items rows.new.items }
    ensures fine { AreFine rows.old.items → AreFine rows.new.items }
    ensures reached { OnOk result (number < length rows.new.items) }
{
    for _number in rows.len()..number as usize + 1 {
        rows.push(None)?;
    }
    Ok(())
}

// Makes the table one of so many records: those that are missing aren't laid out.
pub(crate) fn fit(rows: &mut Vec<Option<Row>>, count: usize) -> Result<(), Memory>
    ensures long { OnOk result (length rows.new.items ≡ count) }
    ensures same { OnOk result ((number : ℕ) → number < count → row_at rows.new.items number ≡ row_at rows.old.items number) }
    ensures fine { AreFine rows.old.items → AreFine rows.new.items }
{
    rows.truncate(count);
    let short = rows.len();
    for _number in short..count {
        rows.push(None)?;
    }
    Ok(())
}
