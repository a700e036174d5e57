// Writing a record: an ink and a figure, appended to a lent buffer of which as many bytes are filled as a count says. Each answers the new
// count, or why nothing was written.
ghost use Rattle.std.specs.Prelude.{◌≡◌, true, ◌++◌, ◌+◌, ◌<◌, length, OnOk};
ghost use Rattle.std.proofs.lemmas.List.Edits.{sets};
ghost use Rattle.sheet.specs.Reply.{told, count_answer};
ghost use Rattle.sheet.specs.Sheet.{within_limits};
ghost use Rattle.sheet.specs.declared.Figure.TheVariants.{Line, Circle, Ellipse, Curve, Cubic};
ghost use Rattle.record.specs.Layout.{bytes_of};
ghost use Rattle.record.specs.Writing.{record_size, write_answer, Writes};
ghost use Rattle.record.specs.Inner.{tested, figure_tested, Writable, head_bytes, cell_bytes};

use sheet::{Cell, Figure, Refusal};

/// The refusal where a test failed.
#[inline(always)]
fn test(is_within: bool, refusal: Refusal) -> Result<(), Refusal>
    ensures { result ≡ tested is_within refusal }
{
    if is_within { Ok(()) } else { Err(refusal) }
}

/// Tests a figure's fields, as each drawing does.
#[inline(always)]
fn check_fields(figure: Figure) -> Result<(), Refusal>
    ensures { result ≡ figure_tested figure }
{
    match figure {
        Figure::Line(from, to) => test(
            sheet::in_limits(from) & sheet::in_limits(to),
            Refusal::Coordinate,
        ),
        Figure::Circle(centre, r) => {
            test(sheet::in_limits(centre), Refusal::Coordinate)?;
            test(sheet::are_axes(r, r), Refusal::Radius)
        }
        Figure::Ellipse(centre, a, b) => {
            test(sheet::in_limits(centre), Refusal::Coordinate)?;
            test(sheet::are_axes(a, b), Refusal::Radius)
        }
        Figure::Curve(p0, p1, p2, s) => {
            test(
                sheet::in_limits(p0) & sheet::in_limits(p1) & sheet::in_limits(p2),
                Refusal::Coordinate,
            )?;
            test(sheet::is_split(s), Refusal::Pieces)
        }
        Figure::Cubic(p0, p1, p2, p3, s) => {
            test(
                sheet::in_limits(p0)
                    & sheet::in_limits(p1)
                    & sheet::in_limits(p2)
                    & sheet::in_limits(p3),
                Refusal::Coordinate,
            )?;
            test(sheet::is_split(s), Refusal::Pieces)
        }
    }
}

/// How many bytes the record of a figure takes.
#[tactic(auto, unfolding(crate::specs::Writing::record_length, crate::specs::Layout::table, crate::specs::Layout::line_row, crate::specs::Layout::circle_row, crate::specs::Layout::ellipse_row, crate::specs::Layout::curve_row, crate::specs::Layout::cubic_row))]
#[inline(always)]
fn size_of(figure: Figure) -> usize
    ensures { result ≡ record_size figure }
{
    match figure {
        Figure::Line(_, _) => 13,
        Figure::Circle(_, _) => 11,
        Figure::Ellipse(_, _, _) => 13,
        Figure::Curve(_, _, _, _) => 18,
        Figure::Cubic(_, _, _, _, _) => 22,
    }
}

/// The count once the record of a figure is appended to a buffer of so many bytes, or why it cannot be. A count above the buffer's length
/// leaves no byte free. Inlined, since each writer knows the kind: by a call that looks at it writing takes 2.3 to 2.6 times as long.
#[inline(always)]
fn count_after(figure: Figure, bytes: usize, filled: usize) -> Result<usize, Refusal>
    ensures tells { told count_answer result ≡ write_answer filled figure bytes }
    ensures writable { OnOk result (Writable figure filled bytes) }
{
    check_fields(figure)?;
    let size = size_of(figure);
    let free = bytes.saturating_sub(filled);
    if free < size {
        return Err(Refusal::Full);
    }
    Ok(filled + size)
}

/// The two lowest bytes of a number, put at a place, the lower first. Its remainder shows at each use that the cast loses nothing.
fn put_word(buffer: &mut [u8], at: usize, n: u32)
    requires { at + 1 < length buffer.old }
    ensures { buffer.new ≡ sets buffer.old at (bytes_of 2 n) }
{
    buffer[at..at + 2].copy_from_slice(&((n % 65536) as u16).to_le_bytes());
}

/// The lowest byte of a number, put at a place.
fn put_byte(buffer: &mut [u8], at: usize, n: u32)
    requires { at < length buffer.old }
    ensures { buffer.new ≡ sets buffer.old at (bytes_of 1 n) }
{
    buffer[at] = (n % 256) as u8;
}

/// What each record begins with: its length, its kind and its ink.
fn put_head(buffer: &mut [u8], at: usize, counts: u32, kind: u32, ink: u8)
    requires { at + 4 < length buffer.old }
    ensures { buffer.new ≡ sets buffer.old at (head_bytes counts kind ink) }
{
    put_word(buffer, at, counts);
    put_word(buffer, at + 2, kind);
    put_byte(buffer, at + 4, u32::from(ink));
}

/// A cell within the limits: x, then y. A coordinate that is lifted is 65,536 greater, so its two lowest bytes are its own.
fn put_cell(buffer: &mut [u8], at: usize, cell: Cell)
    requires { (at + 3 < length buffer.old) × (within_limits cell ≡ true) }
    ensures { buffer.new ≡ sets buffer.old at (cell_bytes cell) }
{
    let spot = sheet::lift_cell(cell);
    put_word(buffer, at, spot.x);
    put_word(buffer, at + 2, spot.y);
}

/// The first three control points.
fn put_three(buffer: &mut [u8], at: usize, p0: Cell, p1: Cell, p2: Cell)
    requires { (at + 11 < length buffer.old) × (within_limits p0 ≡ true) × (within_limits p1 ≡ true) × (within_limits p2 ≡ true) }
    ensures { buffer.new ≡ sets buffer.old at (cell_bytes p0 ++ cell_bytes p1 ++ cell_bytes p2) }
{
    put_cell(buffer, at, p0);
    put_cell(buffer, at + 4, p1);
    put_cell(buffer, at + 8, p2);
}

/// Appends a line: kind 1, length 11, ink, x0, y0, x1, y1.
pub fn write_line(
    buffer: &mut [u8],
    filled: usize,
    ink: u8,
    from: Cell,
    to: Cell,
) -> Result<usize, Refusal>
    ensures { Writes filled ink (Line from to) buffer.old (told count_answer result) buffer.new }
{
    let after = count_after(Figure::Line(from, to), buffer.len(), filled)?;
    put_head(buffer, filled, 11, 1, ink);
    put_cell(buffer, filled + 5, from);
    put_cell(buffer, filled + 9, to);
    Ok(after)
}

/// Appends a circle: kind 2, length 9, ink, centre x, centre y, r.
pub fn write_circle(
    buffer: &mut [u8],
    filled: usize,
    ink: u8,
    centre: Cell,
    r: u32,
) -> Result<usize, Refusal>
    ensures { Writes filled ink (Circle centre r) buffer.old (told count_answer result) buffer.new }
{
    let after = count_after(Figure::Circle(centre, r), buffer.len(), filled)?;
    put_head(buffer, filled, 9, 2, ink);
    put_cell(buffer, filled + 5, centre);
    put_word(buffer, filled + 9, r);
    Ok(after)
}

/// Appends an ellipse: kind 3, length 11, ink, centre x, centre y, a, b.
pub fn write_ellipse(
    buffer: &mut [u8],
    filled: usize,
    ink: u8,
    centre: Cell,
    a: u32,
    b: u32,
) -> Result<usize, Refusal>
    ensures { Writes filled ink (Ellipse centre a b) buffer.old (told count_answer result) buffer.new }
{
    let after = count_after(Figure::Ellipse(centre, a, b), buffer.len(), filled)?;
    put_head(buffer, filled, 11, 3, ink);
    put_cell(buffer, filled + 5, centre);
    put_word(buffer, filled + 9, a);
    put_word(buffer, filled + 11, b);
    Ok(after)
}

/// Appends a quadratic curve: kind 4, length 16, ink, P0, P1, P2, s.
pub fn write_curve(
    buffer: &mut [u8],
    filled: usize,
    ink: u8,
    p0: Cell,
    p1: Cell,
    p2: Cell,
    s: u32,
) -> Result<usize, Refusal>
    ensures { Writes filled ink (Curve p0 p1 p2 s) buffer.old (told count_answer result) buffer.new }
{
    let after = count_after(Figure::Curve(p0, p1, p2, s), buffer.len(), filled)?;
    put_head(buffer, filled, 16, 4, ink);
    put_three(buffer, filled + 5, p0, p1, p2);
    put_byte(buffer, filled + 17, s);
    Ok(after)
}

/// Appends a cubic curve: kind 5, length 20, ink, P0, P1, P2, P3, s.
pub fn write_cubic(
    buffer: &mut [u8],
    filled: usize,
    ink: u8,
    p0: Cell,
    p1: Cell,
    p2: Cell,
    p3: Cell,
    s: u32,
) -> Result<usize, Refusal>
    ensures { Writes filled ink (Cubic p0 p1 p2 p3 s) buffer.old (told count_answer result) buffer.new }
{
    let after = count_after(Figure::Cubic(p0, p1, p2, p3, s), buffer.len(), filled)?;
    put_head(buffer, filled, 20, 5, ink);
    put_three(buffer, filled + 5, p0, p1, p2);
    put_cell(buffer, filled + 17, p3);
    put_byte(buffer, filled + 21, s);
    Ok(after)
}

/// Appends a figure of any kind.
pub fn write(buffer: &mut [u8], filled: usize, ink: u8, figure: Figure) -> Result<usize, Refusal>
    ensures { Writes filled ink figure buffer.old (told count_answer result) buffer.new }
{
    match figure {
        Figure::Line(from, to) => write_line(buffer, filled, ink, from, to),
        Figure::Circle(centre, r) => write_circle(buffer, filled, ink, centre, r),
        Figure::Ellipse(centre, a, b) => write_ellipse(buffer, filled, ink, centre, a, b),
        Figure::Curve(p0, p1, p2, s) => write_curve(buffer, filled, ink, p0, p1, p2, s),
        Figure::Cubic(p0, p1, p2, p3, s) => write_cubic(buffer, filled, ink, p0, p1, p2, p3, s),
    }
}
