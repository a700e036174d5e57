// Writing a record file: each call appends one record to a lent buffer.
ghost use Rattle.sheet.specs.Sheet.{cell};
ghost use Rattle.sheet.specs.declared.Figure.TheVariants.{Line, Circle, Ellipse, Curve, Cubic};
ghost use Rattle.record.specs.Writing.{Writes};
ghost use Rattle.pistonwool.specs.Told.{counted, Keeps};

use crate::tell_bytes;
use sheet::Cell;

/// Appends a line.
#[unsafe(no_mangle)]
pub extern "C" fn pw_write_line(
    buffer: &mut [u8],
    filled: &mut u64,
    ink: u8,
    x0: i32,
    y0: i32,
    x1: i32,
    y1: i32,
) -> u32
    ensures writes { Writes filled.old ink (Line (cell x0 y0) (cell x1 y1))
        buffer.old (counted result filled.new) buffer.new }
    ensures keeps { Keeps result filled.old filled.new }
{
    let from = Cell { x: x0, y: y0 };
    let to = Cell { x: x1, y: y1 };
    let written = record::write_line(buffer, *filled as usize, ink, from, to);
    tell_bytes(written, filled)
}

/// Appends a circle.
#[unsafe(no_mangle)]
pub extern "C" fn pw_write_circle(
    buffer: &mut [u8],
    filled: &mut u64,
    ink: u8,
    x: i32,
    y: i32,
    r: u32,
) -> u32
    ensures writes { Writes filled.old ink (Circle (cell x y) r)
        buffer.old (counted result filled.new) buffer.new }
    ensures keeps { Keeps result filled.old filled.new }
{
    let centre = Cell { x, y };
    let written = record::write_circle(buffer, *filled as usize, ink, centre, r);
    tell_bytes(written, filled)
}

/// Appends an ellipse.
#[unsafe(no_mangle)]
pub extern "C" fn pw_write_ellipse(
    buffer: &mut [u8],
    filled: &mut u64,
    ink: u8,
    x: i32,
    y: i32,
    a: u32,
    b: u32,
) -> u32
    ensures writes { Writes filled.old ink (Ellipse (cell x y) a b)
        buffer.old (counted result filled.new) buffer.new }
    ensures keeps { Keeps result filled.old filled.new }
{
    let centre = Cell { x, y };
    let written = record::write_ellipse(buffer, *filled as usize, ink, centre, a, b);
    tell_bytes(written, filled)
}

/// Appends a quadratic curve in 2^s pieces.
#[unsafe(no_mangle)]
pub extern "C" fn pw_write_curve(
    buffer: &mut [u8],
    filled: &mut u64,
    ink: u8,
    x0: i32,
    y0: i32,
    x1: i32,
    y1: i32,
    x2: i32,
    y2: i32,
    s: u32,
) -> u32
    ensures writes { Writes filled.old ink (Curve (cell x0 y0) (cell x1 y1) (cell x2 y2) s)
        buffer.old (counted result filled.new) buffer.new }
    ensures keeps { Keeps result filled.old filled.new }
{
    let p0 = Cell { x: x0, y: y0 };
    let p1 = Cell { x: x1, y: y1 };
    let p2 = Cell { x: x2, y: y2 };
    let written = record::write_curve(buffer, *filled as usize, ink, p0, p1, p2, s);
    tell_bytes(written, filled)
}

/// Appends a cubic curve in 2^s pieces.
#[unsafe(no_mangle)]
pub extern "C" fn pw_write_cubic(
    buffer: &mut [u8],
    filled: &mut u64,
    ink: u8,
    x0: i32,
    y0: i32,
    x1: i32,
    y1: i32,
    x2: i32,
    y2: i32,
    x3: i32,
    y3: i32,
    s: u32,
) -> u32
    ensures writes { Writes filled.old ink (Cubic (cell x0 y0) (cell x1 y1) (cell x2 y2) (cell x3 y3) s)
        buffer.old (counted result filled.new) buffer.new }
    ensures keeps { Keeps result filled.old filled.new }
{
    let p0 = Cell { x: x0, y: y0 };
    let p1 = Cell { x: x1, y: y1 };
    let p2 = Cell { x: x2, y: y2 };
    let p3 = Cell { x: x3, y: y3 };
    let written = record::write_cubic(buffer, *filled as usize, ink, p0, p1, p2, p3, s);
    tell_bytes(written, filled)
}
