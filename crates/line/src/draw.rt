// Drawing a line: the range of its cells that are on the sheet is worked out once, and walked with no test for each cell.
ghost use Rattle.std.specs.Prelude.{◌≡◌, ◌+◌, ◌-◌, ◌/◌, ◌%◌, ◌<◌, ◌≤◌, cond, ◌&&◌, length, if◌then◌else◌};
ghost use Rattle.sheet.specs.Sheet.{on_sheet, within_limits, paint};
ghost use Rattle.sheet.specs.Reply.{told, drawn_answer};
ghost use Rattle.sheet.specs.Drawing.{Draws};
ghost use Rattle.sheet.specs.Inner.{unmoved_cell};
ghost use Rattle.sheet.specs.Lent.{Inks};
ghost use Rattle.line.specs.Rule.{rise, on_line};
ghost use Rattle.line.specs.Draw.{line_drawing, short_on};
ghost use Rattle.line.specs.Inner.Course.{spot_at, first_cells};
ghost use Rattle.line.specs.Inner.Fixed.{gone, Climbs};
ghost use Rattle.line.specs.Inner.Span.{On, Spans, byte_of, alone_by, both_by, spanning, told_cells};

use crate::range::{first_n, past_n};
use crate::{Course, course_of, gradient_of, spot_of};
use sheet::{Cell, Drawn, Rectangle, Refusal, Shape, Sheet, Spot};

// What n steps of f come to in parts of 2^32, with a half and a little more: the whole part is the nth cell's steps along the shorter extent.
fn tally_at(l: u32, f: u32, n: u32) -> u64
    requires { (n ≤ l) × (l ≤ 32767) }
    ensures { (result ≡ gone l f n) × (result < 281474976710656) }
{
    n as u64 * f as u64 + (2147483648 + 2 * l as u64)
}

fn whole(t: u64) -> u32
    requires { t < 281474976710656 }
    ensures { result ≡ t / 4294967296 }
{
    (t / 4294967296) as u32
}

fn part(t: u64) -> u32
    ensures { result ≡ t % 4294967296 }
{
    (t % 4294967296) as u32
}

// Whether two spots are on the sheet.
fn are_on(shape: Shape, a: Spot, b: Spot) -> bool
    requires { (shape.width ≤ 4096) × (shape.height ≤ 4096) }
    ensures { result ≡ (on_sheet shape (unmoved_cell a) && on_sheet shape (unmoved_cell b)) }
{
    let right = 65536 + shape.width;
    let bottom = 65536 + shape.height;
    let across = (65536 <= a.x.min(b.x)) & (a.x.max(b.x) < right);
    let down = (65536 <= a.y.min(b.y)) & (a.y.max(b.y) < bottom);
    across & down
}

// The byte of the nth cell, which is on the sheet.
fn byte_at(sheet: &Sheet<'_>, course: Course, n: u32, q: u32) -> usize
    requires { (n ≤ course.path.long) × (q ≡ rise course.path.long course.path.short n) × On sheet.now.shape (spot_at course.path n) }
    ensures { result ≡ byte_of sheet.now.shape (spot_at course.path n) }
{
    let pitch = sheet.shape.pitch;
    let spot = spot_of(course, n, q);
    (spot.y - 65536) as usize * pitch as usize + (spot.x - 65536) as usize
}

// What a step along the longer extent alone adds to a byte's place, and what a step along both adds, modulo 2^64.
fn alone(right: bool, steep: bool, pitch: u32) -> usize
    ensures { result ≡ alone_by right steep pitch }
{
    if steep {
        return pitch as usize;
    }
    if right { 1 } else { 18446744073709551615 }
}

fn both(right: bool, pitch: u32) -> usize
    requires { 1 ≤ pitch }
    ensures { result ≡ both_by right pitch }
{
    if right {
        pitch as usize + 1
    } else {
        pitch as usize - 1
    }
}

// The byte's place after a turn: a step along both extents, or along the longer alone.
fn hop(shape: Shape, course: Course, at: usize, across: bool) -> usize
    requires { 1 ≤ shape.pitch }
    ensures { result ≡ (at + cond across (both_by course.path.right shape.pitch)
        (alone_by course.path.right course.path.steep shape.pitch)) % 18446744073709551616 }
{
    let two = both(course.path.right, shape.pitch);
    let one = alone(course.path.right, course.path.steep, shape.pitch);
    at.wrapping_add(if across { two } else { one })
}

// What a walk has in hand, in parts of 2^32, and what each turn adds; where the sum wraps, the step is along both extents.
#[derive(Clone, Copy, Debug, PartialEq, Eq, Hash)]
struct Slope {
    start: u32,
    by: u32,
}

// The slope of a line from its first cell.
fn slope_of(l: u32, s: u32) -> Slope
    requires { (s ≤ l) × (l ≤ 32767) }
    ensures { Climbs l s 0 result.start result.by }
{
    Slope {
        start: 2147483648 + 2 * l,
        by: gradient_of(l, s),
    }
}

// The same for a short line: parts of 2^16 are fine enough, and take a division of 32 bits.
fn short_slope(l: u32, s: u32) -> Slope
    requires { (0 < l) × (l < 128) × (s ≤ l) }
    ensures { Climbs l s 0 result.start result.by }
{
    Slope {
        start: 65536 * (32768 + 2 * l),
        by: 65536 * (s * 65535 / l),
    }
}

// Inks the cells first, .., past - 1 of a line, which are those on the sheet, by its slope and from the byte of the first.
fn walk(
    sheet: &mut Sheet<'_>,
    ink: u8,
    course: Course,
    first: u32,
    past: u32,
    slope: Slope,
    place: usize,
)
    requires first_lt_past { (first < past) × Spans sheet.old.shape course.path first past
        × Climbs course.path.long course.path.short first slope.start slope.by × (place ≡ byte_of sheet.old.shape (spot_at course.path first)) }
    ensures { Inks ink (first_cells course.path (course.path.long + 1)) sheet.old sheet.new }
{
    let shape = sheet.shape;
    let cells = &mut *sheet.cells;
    let f = slope.by;
    let mut p = slope.start;
    let mut at = place;
    for _n in first..past {
        cells[at] = ink;
        let next = p.wrapping_add(f);
        at = hop(shape, course, at, next < p);
        p = next;
    }
}

// Inks the cells first, .., past - 1 of a line that leaves the sheet; the rectangle from the first to the last.
fn part_line(sheet: &mut Sheet<'_>, ink: u8, course: Course, first: u32, past: u32) -> Rectangle
    requires first_lt_past { (first < past) × Spans sheet.old.shape course.path first past }
    ensures sheet_after { Inks ink (first_cells course.path (course.path.long + 1)) sheet.old sheet.new }
    ensures value { result ≡ spanning (spot_at course.path first) (spot_at course.path (past - 1)) }
{
    let by = gradient_of(course.path.long, course.path.short);
    let t = tally_at(course.path.long, by, first);
    let q = whole(t);
    let at = byte_at(sheet, course, first, q);
    let slope = Slope { start: part(t), by };
    walk(sheet, ink, course, first, past, slope, at);
    let last = past - 1;
    let end = spot_of(course, last, whole(tally_at(course.path.long, by, last)));
    between(spot_of(course, first, q), end)
}

// Inks a line of one cell or two: they are its ends.
fn ends(sheet: &mut Sheet<'_>, ink: u8, course: Course)
    requires { course.path.long ≤ 1 }
    ensures { Inks ink (first_cells course.path (course.path.long + 1)) sheet.old sheet.new }
{
    let first = spot_of(course, 0, 0);
    let last = spot_of(course, course.path.long, course.path.short);
    sheet::ink_at(sheet.cells, sheet.shape, ink, first);
    sheet::ink_at(sheet.cells, sheet.shape, ink, last);
}

// Inks a line that is wholly on the sheet. The first byte does not wait for the slope.
fn whole_line(sheet: &mut Sheet<'_>, ink: u8, course: Course)
    requires { Spans sheet.old.shape course.path 0 (course.path.long + 1) }
    ensures { Inks ink (first_cells course.path (course.path.long + 1)) sheet.old sheet.new }
{
    let long = course.path.long;
    let short = course.path.short;
    if long < 2 {
        ends(sheet, ink, course);
        return;
    }
    let past = long + 1;
    let at = byte_at(sheet, course, 0, 0);
    if long < 128 {
        let slope = short_slope(long, short);
        walk(sheet, ink, course, 0, past, slope, at);
        return;
    }
    let slope = slope_of(long, short);
    walk(sheet, ink, course, 0, past, slope, at);
}

// Inks the cells of a line that are on the sheet; how many they are, and their rectangle.
fn run(sheet: &mut Sheet<'_>, ink: u8, course: Course) -> Drawn
    ensures sheet_after { Inks ink (first_cells course.path (course.path.long + 1)) sheet.old sheet.new }
    ensures result_value { drawn_answer result ≡ told_cells sheet.old.shape (first_cells course.path (course.path.long + 1)) }
{
    let first = first_n(sheet, course);
    let past = past_n(sheet, course);
    if past <= first {
        return Drawn {
            count: Some(0),
            rectangle: Rectangle::none(),
        };
    }
    let rectangle = part_line(sheet, ink, course, first, past);
    Drawn {
        count: Some((past - first) as usize),
        rectangle,
    }
}

// Whether a spot stands for a cell within the limits.
#[tactic(auto, using(crate::proofs::Answers::spot_test))]
fn is_moved(spot: Spot) -> bool
    ensures { result ≡ within_limits (unmoved_cell spot) }
{
    let x = spot.x;
    let y = spot.y;
    ((49152 <= x) & (x <= 81919)) & ((49152 <= y) & (y <= 81919))
}

// The rectangle between two spots on the sheet.
#[tactic(auto, unfolding(crate::specs::Inner::Span::spanning))]
fn between(a: Spot, b: Spot) -> Rectangle
    requires le_x { (65536 ≤ a.x) × (65536 ≤ a.y) × (65536 ≤ b.x) × (65536 ≤ b.y) }
    requires x_bound { (a.x ≤ 131072) × (a.y ≤ 131072) × (b.x ≤ 131072) × (b.y ≤ 131072) }
    ensures { result ≡ spanning a b }
{
    Rectangle {
        left: a.x.min(b.x) - 65536,
        top: a.y.min(b.y) - 65536,
        right: a.x.max(b.x) - 65535,
        bottom: a.y.max(b.y) - 65535,
    }
}

/// Draws the line between the cells that two spots stand for; the number of its cells on the sheet.
pub fn draw_between(
    sheet: &mut [u8],
    shape: Shape,
    ink: u8,
    from: Spot,
    to: Spot,
) -> Result<Drawn, Refusal>
    ensures { Draws (line_drawing shape ink (unmoved_cell from) (unmoved_cell to))
        sheet.old (told drawn_answer result) sheet.new }
{
    shape.check(sheet.len())?;
    if are_on(shape, from, to) {
        let course = course_of(from, to);
        let mut sheet = Sheet {
            cells: sheet,
            shape,
        };
        whole_line(&mut sheet, ink, course);
        return Ok(Drawn {
            count: Some(course.path.long as usize + 1),
            rectangle: between(from, to),
        });
    }
    if !(is_moved(from) & is_moved(to)) {
        return Err(Refusal::Coordinate);
    }
    let mut sheet = Sheet {
        cells: sheet,
        shape,
    };
    Ok(run(&mut sheet, ink, course_of(from, to)))
}

/// Draws the line between two spots on the sheet, where it has 2 to 128 cells, as most pieces of a curve have; whether it did.
pub fn draw_short(sheet: &mut [u8], shape: Shape, ink: u8, from: Spot, to: Spot) -> bool
    ensures value { result ≡ short_on shape (unmoved_cell from) (unmoved_cell to) (length sheet.old) }
    ensures sheet_after { sheet.new
        ≡ (if result then paint shape ink (on_line (unmoved_cell from) (unmoved_cell to)) sheet.old else sheet.old) }
{
    if shape.check(sheet.len()).is_err() {
        return false;
    }
    if !are_on(shape, from, to) {
        return false;
    }
    let course = course_of(from, to);
    let long = course.path.long;
    if !((0 < long) & (long < 128)) {
        return false;
    }
    let mut sheet = Sheet {
        cells: sheet,
        shape,
    };
    let at = byte_at(&sheet, course, 0, 0);
    let slope = short_slope(long, course.path.short);
    walk(&mut sheet, ink, course, 0, long + 1, slope, at);
    true
}

/// Draws the line from one end to the other; the number of its cells on the sheet.
pub fn draw_line(
    sheet: &mut [u8],
    shape: Shape,
    ink: u8,
    from: Cell,
    to: Cell,
) -> Result<Drawn, Refusal>
    ensures { Draws (line_drawing shape ink from to) sheet.old (told drawn_answer result) sheet.new }
{
    draw_between(
        sheet,
        shape,
        ink,
        sheet::lift_cell(from),
        sheet::lift_cell(to),
    )
}
