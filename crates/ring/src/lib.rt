// Ellipses; a circle is one of equal axes.
#![tactic(auto)]

ghost use Rattle.std.specs.Prelude.{◌≡◌, true, ◌≤◌};
ghost use Rattle.sheet.specs.Sheet.{paint, axes};
ghost use Rattle.sheet.specs.Repaint.{box_of};
ghost use Rattle.sheet.specs.Reply.{told, drawn_answer};
ghost use Rattle.sheet.specs.Drawing.{Draws};
ghost use Rattle.sheet.specs.Inner.{unmoved_cell, Sheet};
ghost use Rattle.ring.specs.Ring.{around, ellipse_rule};
ghost use Rattle.ring.specs.Draw.{ellipse_drawing};
ghost use Rattle.ring.specs.Inner.{Centred, Axis, Placing};

mod front;
mod halves;
mod ink;
mod rows;

use halves::{lower_half, upper_half};
use rows::rows_round;
use sheet::{Cell, Drawn, Rectangle, Refusal, Shape, Spot};

// A ring as it lies on a sheet: the middle, on the moved plane, and the semi-axes; how far from the middle its columns on the sheet are,
// from the least to before past; and whether all its columns are on it. Shape and ink go beside it: in one struct with them, whose ghost
// field held that it lies so, rings take 1.2 to 1.5 times as long.
#[derive(Clone, Copy, Debug, PartialEq, Eq, Hash)]
struct Ring {
    x: usize,
    y: usize,
    a: usize,
    b: usize,
    least: usize,
    past: usize,
    whole: bool,
}

// How the ring lies on the sheet.
fn placed(shape: Shape, centre: Spot, a: usize, b: usize) -> Ring
    requires { Centred centre × (1 ≤ shape.width) × (shape.width ≤ 4096) × Axis a × Axis b }
    ensures { Placing shape centre a b result }
{
    let x = centre.x as usize;
    let y = centre.y as usize;
    let width = shape.width as usize;
    let last = 65535 + width;
    if (65536 + a <= x) & (x + a <= last) {
        return Ring {
            x,
            y,
            a,
            b,
            least: 0,
            past: a + 1,
            whole: true,
        };
    }
    Ring {
        x,
        y,
        a,
        b,
        least: 65536usize.saturating_sub(x).max(x.saturating_sub(last)),
        past: a.min(x.saturating_sub(65536).max(last.saturating_sub(x))) + 1,
        whole: false,
    }
}

// Inks the ellipse about the centre: its rows on the sheet. Answers the rectangle of them.
fn ellipse_on(
    sheet: &mut [u8],
    shape: Shape,
    ink: u8,
    centre: Spot,
    a: usize,
    b: usize,
) -> Rectangle
    requires { Sheet shape sheet.old × Centred centre × Axis a × Axis b }
    ensures sheet_after { sheet.new ≡ paint shape ink (around (unmoved_cell centre) (ellipse_rule a b)) sheet.old }
    ensures value { result ≡ box_of shape (around (unmoved_cell centre) (ellipse_rule a b)) }
{
    let ring = placed(shape, centre, a, b);
    let y = ring.y;
    let height = shape.height as usize;
    let from = (y - b).saturating_sub(65536);
    let to = (y + b + 1).saturating_sub(65536).min(height);
    if a < ring.least {
        return Rectangle::none();
    }
    if to <= from {
        return Rectangle::none();
    }
    if ring.whole & ((65536 <= y) & (y < 65536 + to)) {
        return rows_round(sheet, shape, ink, ring, from, to);
    }
    let middle = y.saturating_sub(65536).min(to);
    let above = upper_half(sheet, shape, ink, ring, from, middle);
    above.join(lower_half(sheet, shape, ink, ring, middle, to))
}

// Inks the ring about the centre: its centre alone, where both axes are 0. Answers its rectangle.
fn ring_on(sheet: &mut [u8], shape: Shape, ink: u8, centre: Spot, a: usize, b: usize) -> Rectangle
    requires { Sheet shape sheet.old × Centred centre × (axes a b ≡ true) }
    ensures sheet_after { sheet.new ≡ paint shape ink (around (unmoved_cell centre) (ellipse_rule a b)) sheet.old }
    ensures value { result ≡ box_of shape (around (unmoved_cell centre) (ellipse_rule a b)) }
{
    if a == 0 {
        sheet::ink_at(sheet, shape, ink, centre);
        return sheet::join_at(shape, centre, Rectangle::none());
    }
    ellipse_on(sheet, shape, ink, centre, a, b)
}

/// Draws the ellipse of semi-axes a and b about the centre; of equal axes it is the circle of that radius.
///
/// It is refused, and the sheet left as it was, for a slice that is no sheet of the shape (`Size`, `Slice`), for a centre outside the limits
/// (`Coordinate`), and for a semi-axis above 16,383 or one of 0 beside one that is not (`Radius`), in this order.
pub fn draw_ellipse(
    sheet: &mut [u8],
    shape: Shape,
    ink: u8,
    centre: Cell,
    a: u32,
    b: u32,
) -> Result<Drawn, Refusal>
    ensures { Draws (ellipse_drawing shape ink centre a b) sheet.old (told drawn_answer result) sheet.new }
{
    shape.check(sheet.len())?;
    if !sheet::in_limits(centre) {
        return Err(Refusal::Coordinate);
    }
    if !sheet::are_axes(a, b) {
        return Err(Refusal::Radius);
    }
    let middle = sheet::lift_cell(centre);
    Ok(Drawn {
        count: None,
        rectangle: ring_on(sheet, shape, ink, middle, a as usize, b as usize),
    })
}
