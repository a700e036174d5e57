// Inking the cells of a row.
ghost use Rattle.std.specs.Prelude.{◌≡◌, ◌+◌, ◌≤◌, ◌<◌};
ghost use Rattle.sheet.specs.Sheet.{paint};
ghost use Rattle.sheet.specs.Inner.{Sheet};
ghost use Rattle.ring.specs.Inner.{Placed, cells, run, part, band};

use crate::Ring;
use sheet::Shape;

// Inks the columns of a row from one to before another. By a loop, since runs are short: by `fill` a ring that leaves the sheet takes 1.2
// to 1.5 times as long, and one of 512 by 512 cells 1.1 times.
fn ink_run(sheet: &mut [u8], shape: Shape, ink: u8, row: usize, from: usize, past: usize)
    requires { Sheet shape sheet.old × (row < shape.height) × (from ≤ past) × (past ≤ shape.width) }
    ensures { sheet.new ≡ paint shape ink (cells (run row from past)) sheet.old }
{
    let pitch = shape.pitch;
    let start = row * pitch as usize;
    for at in from..past {
        sheet[start + at] = ink;
    }
}

// Inks those from the first to the last, with one branch for one and for two.
#[tactic(auto, using(crate::proofs::Tested::run_filled, crate::proofs::Tested::ends_alone))]
fn ink_some(sheet: &mut [u8], shape: Shape, ink: u8, row: usize, first: usize, last: usize)
    requires { Sheet shape sheet.old × (row < shape.height) × (first ≤ last) × (last < shape.width) }
    ensures { sheet.new ≡ paint shape ink (cells (run row first (last + 1))) sheet.old }
{
    let start = row * shape.pitch as usize;
    sheet[start + first] = ink;
    sheet[start + last] = ink;
    if first + 1 < last {
        ink_run(sheet, shape, ink, row, first + 1, last);
    }
}

// Inks those of a row of the moved plane that are on the sheet.
#[tactic(auto, using(crate::proofs::Tested::part_run, crate::proofs::Tested::part_none))]
fn ink_part(sheet: &mut [u8], shape: Shape, ink: u8, row: usize, first: usize, last: usize)
    requires { Sheet shape sheet.old × (row < shape.height) × (last ≤ 131072) }
    ensures { sheet.new ≡ paint shape ink (cells (part row first last)) sheet.old }
{
    let from = first.saturating_sub(65536);
    let past = (last + 1).saturating_sub(65536).min(shape.width as usize);
    if from < past {
        ink_some(sheet, shape, ink, row, from, past - 1);
    }
}

// Inks the cells of a row that are low to high columns from a column, all of which are on the sheet, with one branch for one and for two.
fn ink_both(
    sheet: &mut [u8],
    shape: Shape,
    ink: u8,
    row: usize,
    column: usize,
    low: usize,
    high: usize,
)
    requires { Sheet shape sheet.old × (row < shape.height) × (low ≤ high) × (high ≤ column) × (column + high < shape.width) }
    ensures { sheet.new ≡ paint shape ink (cells (band row (column + 65536) low high)) sheet.old }
{
    if low + 1 < high {
        ink_run(sheet, shape, ink, row, column - high, column - low + 1);
        ink_run(sheet, shape, ink, row, column + low, column + high + 1);
        return;
    }
    let start = row * shape.pitch as usize;
    sheet[start + (column - high)] = ink;
    sheet[start + (column - low)] = ink;
    sheet[start + (column + low)] = ink;
    sheet[start + (column + high)] = ink;
}

// Inks the cells of a row that are low to high columns from the ring's middle: without a test, where the ring is no wider than the sheet.
#[tactic(auto, using(crate::proofs::Tested::two_parts))]
pub(crate) fn ink_row(
    sheet: &mut [u8],
    shape: Shape,
    ink: u8,
    ring: Ring,
    row: usize,
    low: usize,
    high: usize,
)
    requires { Sheet shape sheet.old × Placed shape ring × (row < shape.height) × (low ≤ high) × (high ≤ ring.a) }
    ensures { sheet.new ≡ paint shape ink (cells (band row ring.x low high)) sheet.old }
{
    let x = ring.x;
    if ring.whole {
        ink_both(sheet, shape, ink, row, x - 65536, low, high);
        return;
    }
    ink_part(sheet, shape, ink, row, x - high, x - low);
    ink_part(sheet, shape, ink, row, x + low, x + high);
}
