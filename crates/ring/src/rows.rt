// The rows of a ring, from the top down. Between two rows the ring has a front, and the cells of a row are those between the two fronts
// above and below it: in the upper half the fronts go out from row to row, and in the lower half they come in.
ghost use Rattle.std.specs.Prelude.{◌≡◌, true, ◌+◌, ◌-◌, ◌*◌, ◌≤◌, ◌<◌};
ghost use Rattle.sheet.specs.Sheet.{paint};
ghost use Rattle.sheet.specs.Repaint.{box_of};
ghost use Rattle.sheet.specs.Inner.{Sheet};
ghost use Rattle.ring.specs.Inner.{Placed, cells, in_rows, Columned, FrontOf};

use crate::Ring;
use crate::front::{fallen, halved, is_outside, risen, row_end};
use crate::ink::ink_row;
use sheet::{Rectangle, Shape};

// The front at the height v / 2: at either end of the columns on the sheet, or found by halving.
pub(crate) fn front_at(ring: Ring, v: usize) -> usize
    requires { Columned ring × (v ≤ 32767) }
    ensures { FrontOf ring v result }
{
    let a = ring.a;
    let b = ring.b;
    let least = ring.least;
    let past = ring.past;
    if is_outside(a, b, 2 * least, v) {
        return least;
    }
    if !is_outside(a, b, 2 * (past - 1), v) {
        return past;
    }
    halved(a, b, v, least, past)
}

// Inks rows above the middle, from the front above the first; answers the front below the last.
pub(crate) fn upper_rows(
    sheet: &mut [u8],
    shape: Shape,
    ink: u8,
    ring: Ring,
    from: usize,
    to: usize,
    front: usize,
) -> usize
    requires sheet { Sheet shape sheet.old × Placed shape ring × (from ≤ to) × (to ≤ shape.height) }
    requires to_bound { (to + 65536 ≤ ring.y) × (ring.y ≤ from + 65536 + ring.b) }
    requires front_of { FrontOf ring (2 * (ring.y - 65536 - from) + 1) front }
    ensures sheet_after { sheet.new ≡ paint shape ink (cells (in_rows ring from to)) sheet.old }
    ensures front_of_2 { FrontOf ring (2 * (ring.y - 65536 - to) + 1) result }
{
    let a = ring.a;
    let b = ring.b;
    let past = ring.past;
    let middle = ring.y - 65536;
    let mut outer = front;
    for row in from..to {
        let y = middle - row;
        let inner = risen(a, b, 2 * y - 1, outer, past);
        ink_row(
            sheet,
            shape,
            ink,
            ring,
            row,
            row_end(a, b, y, outer),
            row_end(a, b, y, inner),
        );
        outer = inner;
    }
    outer
}

// Inks rows from the middle down, from the front above the first, which above the middle is past all columns; answers that below the last.
pub(crate) fn lower_rows(
    sheet: &mut [u8],
    shape: Shape,
    ink: u8,
    ring: Ring,
    from: usize,
    to: usize,
    front: usize,
) -> usize
    requires sheet { Sheet shape sheet.old × Placed shape ring × (from ≤ to) × (to ≤ shape.height) }
    requires y_bound { (ring.y ≤ from + 65536) × (to + 65536 ≤ ring.y + ring.b + 1) }
    requires front_of { FrontOf ring (2 * (from + 65536 - ring.y) - 1) front }
    ensures sheet_after { sheet.new ≡ paint shape ink (cells (in_rows ring from to)) sheet.old }
    ensures front_of_2 { FrontOf ring (2 * (to + 65536 - ring.y) - 1) result }
{
    let a = ring.a;
    let b = ring.b;
    let least = ring.least;
    let middle = ring.y;
    let mut inner = front;
    for row in from..to {
        let y = row + 65536 - middle;
        let outer = fallen(a, b, 2 * y + 1, least, inner);
        ink_row(
            sheet,
            shape,
            ink,
            ring,
            row,
            row_end(a, b, y, outer),
            row_end(a, b, y, inner),
        );
        inner = outer;
    }
    inner
}

// Inks the rows of a ring that has all its columns, and its middle row, on the sheet. Answers the rectangle of them.
pub(crate) fn rows_round(
    sheet: &mut [u8],
    shape: Shape,
    ink: u8,
    ring: Ring,
    from: usize,
    to: usize,
) -> Rectangle
    requires sheet { Sheet shape sheet.old × Placed shape ring × (ring.whole ≡ true) × (to ≤ shape.height) }
    requires from_bound { (from + 65536 ≤ ring.y) × (ring.y < to + 65536) }
    requires y_bound { (ring.y ≤ from + 65536 + ring.b) × (to + 65536 ≤ ring.y + ring.b + 1) }
    ensures sheet_after { sheet.new ≡ paint shape ink (cells (in_rows ring from to)) sheet.old }
    ensures value { result ≡ box_of shape (cells (in_rows ring from to)) }
{
    let a = ring.a;
    let column = ring.x - 65536;
    let middle = ring.y - 65536;
    let first = front_at(ring, 2 * (middle - from) + 1);
    upper_rows(sheet, shape, ink, ring, from, middle, first);
    lower_rows(sheet, shape, ink, ring, middle, to, ring.past);
    Rectangle {
        left: (column - a) as u32,
        top: from as u32,
        right: (column + a + 1) as u32,
        bottom: to as u32,
    }
}
