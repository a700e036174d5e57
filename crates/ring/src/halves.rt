// The upper and the lower half of a ring that leaves the sheet: of each only the rows that have a cell on it are walked. They follow on
// each other, and the first and the last of them tell the rectangle.
ghost use Rattle.std.specs.Prelude.{◌≡◌, ◌+◌, ◌-◌, ◌≤◌, ◌<◌, min, max};
ghost use Rattle.sheet.specs.Sheet.{paint};
ghost use Rattle.sheet.specs.Repaint.{box_of};
ghost use Rattle.sheet.specs.Inner.{Sheet};
ghost use Rattle.ring.specs.Inner.{Placed, cells, in_rows, Columned, NearRow, FarRow, spread};

use crate::Ring;
use crate::front::{end_after, halved, row_end};
use crate::rows::{front_at, lower_rows, upper_rows};
use sheet::{Rectangle, Shape};

// Of rows, by how far they are from the middle: the first in which the ring has come to its columns on the sheet.
fn nearest_row(ring: Ring, from: usize, to: usize) -> usize
    requires { Columned ring × (from ≤ to) × (to ≤ ring.b + 1) }
    ensures { NearRow ring from to result }
{
    let a = ring.a;
    let b = ring.b;
    let past = ring.past;
    if a < past {
        return from;
    }
    let front = halved(b, a, 2 * past - 1, from, to);
    from.max(row_end(b, a, past - 1, front))
}

// The same: the first in which it has left them. The one is bounded below and the other above, by other columns.
fn past_furthest(ring: Ring, from: usize, to: usize) -> usize
    requires { Columned ring × (from ≤ to) × (to ≤ ring.b + 1) }
    ensures { FarRow ring from to result }
{
    let a = ring.a;
    let b = ring.b;
    let least = ring.least;
    if least == 0 {
        return to;
    }
    let front = halved(b, a, 2 * least - 1, from, to);
    to.min(row_end(b, a, least, front) + 1)
}

// The rectangle of some rows in which the ring's columns on the sheet are low to high off its middle.
fn spread(shape: Shape, ring: Ring, top: usize, bottom: usize, low: usize, high: usize) -> Rectangle
    requires width_bound { (shape.width ≤ 4096) × (ring.x ≤ 131072) × (ring.least ≤ 16384) × (1 ≤ ring.past) }
    requires top_bound { (top ≤ 4096) × (bottom ≤ 4096) × (low ≤ 16384) × (high ≤ 16384) }
    ensures { result ≡ spread shape.width ring.x (max low ring.least) (min high (ring.past - 1)) top bottom }
{
    let x = ring.x;
    let last = 65535 + shape.width as usize;
    let n = low.max(ring.least);
    let m = high.min(ring.past - 1);
    let left = if 65536 + n <= x {
        x.saturating_sub(65536 + m)
    } else {
        (x + n).saturating_sub(65536)
    };
    let right = if x + n <= last {
        (x + m).min(last).saturating_sub(65535)
    } else {
        x.saturating_sub(n + 65535)
    };
    Rectangle {
        left: left as u32,
        top: top as u32,
        right: right as u32,
        bottom: bottom as u32,
    }
}

// Inks rows above the middle. Answers the rectangle of them.
pub(crate) fn upper_half(
    sheet: &mut [u8],
    shape: Shape,
    ink: u8,
    ring: Ring,
    from: usize,
    to: usize,
) -> Rectangle
    requires sheet { Sheet shape sheet.old × Placed shape ring × (from ≤ to) × (to ≤ shape.height) }
    requires to_bound { from < to → (to + 65536 ≤ ring.y) × (ring.y ≤ from + 65536 + ring.b) }
    ensures sheet_after { sheet.new ≡ paint shape ink (cells (in_rows ring from to)) sheet.old }
    ensures value { result ≡ box_of shape (cells (in_rows ring from to)) }
{
    if to <= from {
        return Rectangle::none();
    }
    let a = ring.a;
    let b = ring.b;
    let end = ring.y - 65535;
    let near = nearest_row(ring, end - to, end - from);
    let past = past_furthest(ring, near, end - from);
    if past <= near {
        return Rectangle::none();
    }
    let top = end - past;
    let bottom = end - near;
    let first = front_at(ring, 2 * past - 1);
    let last = upper_rows(sheet, shape, ink, ring, top, bottom, first);
    let low = row_end(a, b, past - 1, first);
    let high = end_after(a, b, near, last);
    spread(shape, ring, top, bottom, low, high)
}

// Inks rows from the middle down. Answers the rectangle of them. Rows come from the top down in both halves, so that here the fronts come
// in and above they go out: one loop for both would have to run one of them from below.
pub(crate) fn lower_half(
    sheet: &mut [u8],
    shape: Shape,
    ink: u8,
    ring: Ring,
    from: usize,
    to: usize,
) -> Rectangle
    requires sheet { Sheet shape sheet.old × Placed shape ring × (from ≤ to) × (to ≤ shape.height) }
    requires y_bound { from < to → (ring.y ≤ from + 65536) × (to + 65536 ≤ ring.y + ring.b + 1) }
    ensures sheet_after { sheet.new ≡ paint shape ink (cells (in_rows ring from to)) sheet.old }
    ensures value { result ≡ box_of shape (cells (in_rows ring from to)) }
{
    if to <= from {
        return Rectangle::none();
    }
    let a = ring.a;
    let b = ring.b;
    let middle = ring.y;
    let end = to + 65536 - middle;
    let near = nearest_row(ring, from + 65536 - middle, end);
    let past = past_furthest(ring, near, end);
    if past <= near {
        return Rectangle::none();
    }
    let top = middle + near - 65536;
    let bottom = middle + past - 65536;
    let first = front_at(ring, (2 * near).saturating_sub(1));
    let last = lower_rows(sheet, shape, ink, ring, top, bottom, first);
    let low = end_after(a, b, past - 1, last);
    let high = row_end(a, b, near, first);
    spread(shape, ring, top, bottom, low, high)
}
