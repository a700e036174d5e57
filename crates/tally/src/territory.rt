// A territory beside a list: it is tested, the territory is filled, and the rows of its cells are counted again.
ghost use Rattle.std.specs.Prelude.{◌≡◌, length};
ghost use Rattle.sheet.specs.Reply.{told, count_answer};
ghost use Rattle.fill.specs.Fill.{FillsAs, Spares};
ghost use Rattle.tally.specs.Tally.{recounted, beside, plain};

use crate::list::{check, count_rows};
use sheet::{Cell, Refusal, Shape};

/// Fills the territory of a cell.
pub fn fill(
    sheet: &mut [u8],
    shape: Shape,
    rows: &mut [u32],
    start: Cell,
    boundary: u8,
    territory: u8,
    work: &mut [u32],
) -> Result<usize, Refusal>
    ensures fills_as { FillsAs (beside plain sheet.old rows.old) shape start boundary territory
        (length work.old) sheet.old (told count_answer result) sheet.new }
    ensures spares { Spares (told count_answer result) work.old work.new }
    ensures rows_after { rows.new ≡ recounted shape (told count_answer result) sheet.new rows.old }
{
    check(sheet, shape, rows)?;
    let filled = fill::fill_rows(sheet, shape, start, boundary, territory, work)?;
    count_rows(sheet, shape, rows, filled.top, filled.bottom);
    Ok(filled.cells)
}
