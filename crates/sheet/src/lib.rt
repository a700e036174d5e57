// The sheet, the table of refusals, and marking: what every figure stands on.
#![tactic(auto)]

ghost use Rattle.std.specs.Prelude.{◌≡◌, []};
ghost use Rattle.sheet.specs.Sheet.{sized, coordinate, within_limits, semi_axis, axes, split};
ghost use Rattle.sheet.specs.Reply.{done, told, test_answer, drawn_answer};
ghost use Rattle.sheet.specs.Drawing.{if_sheet, Draws, mark_drawing};
ghost use Rattle.sheet.specs.Inner as inner;
ghost use Rattle.sheet.specs.Inner.{moved, lowered, moved_cell, unmoved_cell, lowered_cell, inked_at};

mod refusal;
mod repaint;

pub use refusal::{FileRefusal, Refusal};
pub use repaint::{Rectangle, join_at};

/// A cell of the unlimited grid. A pen that C lends holds two, so it has C's layout.
#[repr(C)]
#[derive(Clone, Copy, Debug, PartialEq, Eq, Hash)]
pub struct Cell {
    pub x: i32,
    pub y: i32,
}

/// A cell of the moved plane, on which the code works.
#[derive(Clone, Copy, Debug, PartialEq, Eq, Hash)]
pub struct Spot {
    pub x: u32,
    pub y: u32,
}

/// A figure, with its fields in the order of its record.
#[derive(Clone, Copy, Debug, PartialEq, Eq, Hash)]
pub enum Figure {
    /// the two ends
    Line(Cell, Cell),
    /// the centre and r
    Circle(Cell, u32),
    /// the centre, a and b
    Ellipse(Cell, u32, u32),
    /// P0, P1, P2 and s
    Curve(Cell, Cell, Cell, u32),
    /// P0, P1, P2, P3 and s
    Cubic(Cell, Cell, Cell, Cell, u32),
}

/// The size of a sheet, and its pitch: how many bytes after a cell the one below it stands.
#[derive(Clone, Copy, Debug, PartialEq, Eq, Hash)]
pub struct Shape {
    pub width: u32,
    pub height: u32,
    pub pitch: u32,
}

/// A sheet that is lent to be drawn on: of its shape, with as many bytes as that has.
#[derive(Drop)]
pub struct Sheet<'a> {
    pub cells: &'a mut [u8],
    pub shape: Shape,
    ghost fits: { inner.Sheet shape cells.now },
}

/// What came of a drawing: how many, where it tells that (a line's cells on the sheet, a file's records), and what to repaint.
#[derive(Clone, Copy, Debug, PartialEq, Eq, Hash)]
pub struct Drawn {
    pub count: Option<usize>,
    pub rectangle: Rectangle,
}

impl Shape {
    // Whether its sizes and its pitch are within their limits.
    fn is_sized(self) -> bool
        ensures { result ≡ sized self }
    {
        (1..=4096).contains(&self.width)
            && (1..=4096).contains(&self.height)
            && (self.width..=8192).contains(&self.pitch)
    }

    /// Tests a sheet, as every drawing does first: whether a slice of this many bytes is one of the shape.
    #[tactic(auto, unfolding(crate::specs::Drawing::if_sheet))]
    pub fn check(self, bytes: usize) -> Result<(), Refusal>
        ensures { told test_answer result ≡ if_sheet self bytes (done []) }
    {
        if !self.is_sized() {
            return Err(Refusal::Size);
        }
        if bytes != self.pitch as usize * self.height as usize {
            return Err(Refusal::Slice);
        }
        Ok(())
    }
}

impl Cell {
    /// The limits of a coordinate.
    pub const LEAST: i32 = -16384;

    pub const MOST: i32 = 16383;
}

/// Whether a coordinate is within its limits.
#[tactic(auto, unfolding(crate::specs::Sheet::coordinate))]
pub fn is_coordinate(z: i32) -> bool
    ensures { result ≡ coordinate z }
{
    (Cell::LEAST..=Cell::MOST).contains(&z)
}

/// Whether a semi-axis is 0 to 16,383, and not 0 beside another that is not 0.
#[tactic(auto, unfolding(crate::specs::Sheet::semi_axis))]
pub fn is_semi_axis(n: u32, other: u32) -> bool
    ensures { result ≡ semi_axis n other }
{
    (n <= 16383) & ((1 <= n) | (other == 0))
}

/// Whether each of two semi-axes is so beside the other.
#[tactic(auto, unfolding(crate::specs::Sheet::semi_axis))]
pub fn are_axes(a: u32, b: u32) -> bool
    ensures { result ≡ axes a b }
{
    (a <= 16383) & (b <= 16383) & ((a == 0) == (b == 0))
}

/// Whether s, which splits a curve into 2^s pieces, is 0 to 6.
pub fn is_split(n: u32) -> bool
    ensures { result ≡ split n }
{
    n <= 6
}

/// A coordinate, lifted onto the moved plane; 0 for one outside the limits.
#[tactic(auto, unfolding(crate::specs::Inner::moved, crate::specs::Sheet::coordinate))]
pub fn lift(z: i32) -> u32
    ensures { result ≡ moved z }
{
    if !is_coordinate(z) {
        return 0;
    }
    (z + 65536) as u32
}

/// The coordinate that a number of the moved plane stands for; 0 where that is outside the limits.
#[tactic(auto, unfolding(crate::specs::Inner::lowered, crate::specs::Sheet::coordinate))]
pub fn lower(m: u32) -> i32
    ensures { result ≡ lowered m }
{
    if m < 49152 {
        return 0;
    }
    if 81919 < m {
        return 0;
    }
    m as i32 - 65536
}

/// A cell, lifted.
pub fn lift_cell(cell: Cell) -> Spot
    ensures { result ≡ moved_cell cell }
{
    Spot {
        x: lift(cell.x),
        y: lift(cell.y),
    }
}

/// The cell that a spot stands for.
pub fn lower_cell(spot: Spot) -> Cell
    ensures { result ≡ lowered_cell spot }
{
    Cell {
        x: lower(spot.x),
        y: lower(spot.y),
    }
}

/// Whether both coordinates are within the limits.
#[tactic(auto, unfolding(crate::specs::Sheet::within_limits))]
pub fn in_limits(cell: Cell) -> bool
    ensures { result ≡ within_limits cell }
{
    is_coordinate(cell.x) & is_coordinate(cell.y)
}

/// Sets the cell at the spot to the ink where it is on the sheet; any other is skipped.
#[tactic(auto, unfolding(crate::specs::Inner::inked_at, crate::specs::Sheet::on_sheet, crate::specs::Sheet::place))]
pub fn ink_at(sheet: &mut [u8], shape: Shape, ink: u8, spot: Spot)
    ensures { sheet.new ≡ inked_at shape ink (unmoved_cell spot) sheet.old }
{
    let x = spot.x;
    let y = spot.y;
    let width = shape.width;
    let height = shape.height;
    let pitch = shape.pitch;
    if x < 65536 {
        return;
    }
    if y < 65536 {
        return;
    }
    let column = x - 65536;
    let row = y - 65536;
    if width <= column {
        return;
    }
    if height <= row {
        return;
    }
    let at = row as usize * pitch as usize + column as usize;
    if sheet.len() <= at {
        return;
    }
    sheet[at] = ink;
}

/// Sets one cell to the ink: the smallest drawing.
pub fn mark(sheet: &mut [u8], shape: Shape, ink: u8, cell: Cell) -> Result<Drawn, Refusal>
    ensures { Draws (mark_drawing shape ink cell) sheet.old (told drawn_answer result) sheet.new }
{
    shape.check(sheet.len())?;
    if !in_limits(cell) {
        return Err(Refusal::Coordinate);
    }
    let spot = lift_cell(cell);
    ink_at(sheet, shape, ink, spot);
    Ok(Drawn {
        count: None,
        rectangle: join_at(shape, spot, Rectangle::none()),
    })
}
