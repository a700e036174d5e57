// Figures in cells.
ghost use Rattle.std.specs.Prelude.{[], ◌∷◌};
ghost use Rattle.sheet.specs.Sheet.{cell};
ghost use Rattle.line.specs.Draw.{line_drawing};
ghost use Rattle.line.specs.Listing.{ListsInto};
ghost use Rattle.ring.specs.Draw.{ellipse_drawing};
ghost use Rattle.curve.specs.Draw.{curve_drawing};
ghost use Rattle.pistonwool.specs.Told.{shape_of, numbered, counted, Keeps, DrawsInto};

use crate::{tell, tell_cells, tell_counted};
use sheet::{Cell, Shape};

/// Draws a line; its number of cells on the sheet goes to cells, unless it is refused.
#[unsafe(no_mangle)]
pub extern "C" fn pw_line(
    sheet: &mut [u8],
    width: u32,
    height: u32,
    pitch: u32,
    ink: u8,
    x0: i32,
    y0: i32,
    x1: i32,
    y1: i32,
    cells: &mut u32,
    told: &mut [u32; 4],
) -> u32
    ensures draws_into { DrawsInto (line_drawing (shape_of width height pitch) ink (cell x0 y0) (cell x1 y1))
        sheet.old (counted result cells.new) sheet.new told.old told.new }
    ensures keeps { Keeps result cells.old cells.new }
{
    let shape = Shape {
        width,
        height,
        pitch,
    };
    let from = Cell { x: x0, y: y0 };
    let to = Cell { x: x1, y: y1 };
    let drawn = line::draw_line(sheet, shape, ink, from, to);
    tell_counted(drawn, cells, told)
}

/// Draws an ellipse; a circle of radius r is that of semi-axes r and r.
#[unsafe(no_mangle)]
pub extern "C" fn pw_ellipse(
    sheet: &mut [u8],
    width: u32,
    height: u32,
    pitch: u32,
    ink: u8,
    x: i32,
    y: i32,
    a: u32,
    b: u32,
    told: &mut [u32; 4],
) -> u32
    ensures { DrawsInto (ellipse_drawing (shape_of width height pitch) ink (cell x y) a b)
        sheet.old (numbered result) sheet.new told.old told.new }
{
    let shape = Shape {
        width,
        height,
        pitch,
    };
    let centre = Cell { x, y };
    let drawn = ring::draw_ellipse(sheet, shape, ink, centre, a, b);
    tell(drawn, told)
}

/// Draws a quadratic curve in 2^s pieces.
#[unsafe(no_mangle)]
pub extern "C" fn pw_curve(
    sheet: &mut [u8],
    width: u32,
    height: u32,
    pitch: u32,
    ink: u8,
    x0: i32,
    y0: i32,
    x1: i32,
    y1: i32,
    x2: i32,
    y2: i32,
    s: u32,
    told: &mut [u32; 4],
) -> u32
    ensures { DrawsInto (curve_drawing (shape_of width height pitch) ink (cell x0 y0 ∷ cell x1 y1 ∷ cell x2 y2 ∷ []) s)
        sheet.old (numbered result) sheet.new told.old told.new }
{
    let shape = Shape {
        width,
        height,
        pitch,
    };
    let p0 = Cell { x: x0, y: y0 };
    let p1 = Cell { x: x1, y: y1 };
    let p2 = Cell { x: x2, y: y2 };
    let drawn = curve::draw_curve(sheet, shape, ink, p0, p1, p2, s);
    tell(drawn, told)
}

/// Draws a cubic curve in 2^s pieces.
#[unsafe(no_mangle)]
pub extern "C" fn pw_cubic(
    sheet: &mut [u8],
    width: u32,
    height: u32,
    pitch: u32,
    ink: u8,
    x0: i32,
    y0: i32,
    x1: i32,
    y1: i32,
    x2: i32,
    y2: i32,
    x3: i32,
    y3: i32,
    s: u32,
    told: &mut [u32; 4],
) -> u32
    ensures { DrawsInto (curve_drawing (shape_of width height pitch) ink (cell x0 y0 ∷ cell x1 y1 ∷ cell x2 y2 ∷ cell x3 y3 ∷ []) s)
        sheet.old (numbered result) sheet.new told.old told.new }
{
    let shape = Shape {
        width,
        height,
        pitch,
    };
    let p0 = Cell { x: x0, y: y0 };
    let p1 = Cell { x: x1, y: y1 };
    let p2 = Cell { x: x2, y: y2 };
    let p3 = Cell { x: x3, y: y3 };
    let drawn = curve::draw_cubic(sheet, shape, ink, p0, p1, p2, p3, s);
    tell(drawn, told)
}

/// Lists the cells of a line from its first end; their number goes to cells, unless it is refused.
#[unsafe(no_mangle)]
pub extern "C" fn pw_list(
    xs: &mut [i32],
    ys: &mut [i32],
    x0: i32,
    y0: i32,
    x1: i32,
    y1: i32,
    cells: &mut u32,
) -> u32
    ensures lists_into { ListsInto (cell x0 y0) (cell x1 y1) xs.old ys.old
        (counted result cells.new) xs.new ys.new }
    ensures keeps { Keeps result cells.old cells.new }
{
    let from = Cell { x: x0, y: y0 };
    let to = Cell { x: x1, y: y1 };
    let listed = line::list_line(xs, ys, from, to);
    tell_cells(listed, cells)
}
