// Filling a territory. A cell that is reached gets the boundary ink at once, so that it is not entered again, and its run of
// the row is queued; when no more is reached, what was queued gets the territory ink. The cost is that of the territory.
#![tactic(auto)]

ghost use Rattle.std.specs.Prelude.{◌≡◌, ◌+◌, ◌-◌, ◌*◌, ◌/◌, ◌<◌, ◌≤◌, length, get_or};
ghost use Rattle.sheet.specs.Reply.{told, count_answer};
ghost use Rattle.sheet.specs.Inner.{Sheet};
ghost use Rattle.fill.specs.Fill.{filled_answer, first_row, past_row, Fills, FillsRows, Spares};
ghost use Rattle.fill.specs.Inner.{index_of, total, Shut, Ready, AllOnSheet, Takes, Scanned, row_above, Strips, Walked, Settled, FloodedIn, amount_answer, pieces_of, FillsPieces};

mod ink;
mod queue;
mod search;
mod span;

use ink::ink_run;
use queue::queue;
use search::{ahead, back};
use sheet::{Cell, Refusal, Shape};
use span::rows_of;

// What was taken: where its run ends, and where the queue does.
#[derive(Clone, Copy, Debug, PartialEq, Eq, Hash)]
struct Taken {
    past: usize,
    tail: usize,
}

// Takes the run of open cells at a column of a row: gives it the boundary ink, and queues it.
fn take(
    sheet: &mut [u8],
    work: &mut [u32],
    tail: usize,
    shape: Shape,
    row: usize,
    column: usize,
    boundary: u8,
) -> Taken
    requires ready { Ready shape boundary sheet.old work.old tail }
    requires row_lt_height { (row < shape.height) × (column < shape.width) }
    requires fact { Shut shape boundary sheet.old column row → ⊥ }
    ensures { Takes shape boundary column row sheet.old work.old tail
        sheet.new work.new result.tail result.past }
{
    let width = shape.width;
    let pitch = shape.pitch;
    let start = row * pitch as usize;
    let at = start + column;
    let from = back(sheet, start, at, boundary);
    let to = ahead(sheet, at, start + width as usize, boundary, true);
    ink_run(sheet, from, to, boundary);
    let past = to - start;
    Taken {
        past,
        tail: queue(work, tail, row, from - start, past),
    }
}

// A part of a row, from one column to before another.
#[derive(Clone, Copy, Debug, PartialEq, Eq, Hash)]
struct Strip {
    row: usize,
    from: usize,
    to: usize,
}

// Takes every run that has a cell in the strip; none, where its row is off the sheet.
fn scan(
    sheet: &mut [u8],
    work: &mut [u32],
    tail: usize,
    shape: Shape,
    strip: Strip,
    boundary: u8,
) -> usize
    requires ready { Ready shape boundary sheet.old work.old tail }
    requires from_le_to { (strip.from ≤ strip.to) × (strip.to ≤ shape.width) }
    ensures { Scanned shape boundary strip.row strip.from strip.to sheet.old work.old tail
        sheet.new work.new result }
{
    let row = strip.row;
    let to = strip.to;
    let height = shape.height;
    let pitch = shape.pitch;
    if height as usize <= row {
        return tail;
    }
    let start = row * pitch as usize;
    let mut end = tail;
    let mut at = strip.from;
    while at < to {
        let open = ahead(sheet, start + at, start + to, boundary, false) - start;
        if to <= open {
            return end;
        }
        let taken = take(sheet, work, end, shape, row, open, boundary);
        end = taken.tail;
        at = taken.past;
    }
    end
}

// The row above a row; 4,096, which no sheet has, where there is none: a row off the sheet is one test at either end.
#[tactic(auto, unfolding(crate::specs::Inner::row_above))]
fn above(row: usize) -> usize
    ensures { result ≡ row_above row }
{
    if row == 0 { 4096 } else { row - 1 }
}

// What is looked at in turn: first the start, then what is above and what is below each piece of the queue.
fn strip_at(work: &[u32], turn: usize, row: usize, column: usize) -> Strip
    requires column_bound { (column < 4096) × (turn ≤ 2 * length work.now) }
    requires turn_bound { 0 < turn → get_or work.now ((turn - 1) / 2) 0 < 4294967296 }
    ensures { Strips work.now column row turn result.row result.from result.to }
{
    if turn == 0 {
        return Strip {
            row,
            from: column,
            to: column + 1,
        };
    }
    let last = turn - 1;
    let piece = work[last / 2] as usize;
    let row = piece / 1048576;
    let from = piece / 256 % 4096;
    Strip {
        row: if last % 2 == 0 { above(row) } else { row + 1 },
        from,
        to: from + piece % 256 + 1,
    }
}

// Takes all that can be reached from a cell.
fn walk(
    sheet: &mut [u8],
    work: &mut [u32],
    shape: Shape,
    row: usize,
    column: usize,
    boundary: u8,
) -> usize
    requires ready { Ready shape boundary sheet.old work.old 0 }
    requires row_lt_height { (row < shape.height) × (column < shape.width) }
    ensures { Walked shape boundary column row (2 * result + 1) sheet.old work.old
        sheet.new work.new result }
{
    let mut tail = 0;
    let mut turn = 0;
    while turn <= 2 * tail {
        let strip = strip_at(work, turn, row, column);
        tail = scan(sheet, work, tail, shape, strip, boundary);
        turn += 1;
    }
    tail
}

// Gives each piece of the queue an ink, and tells how many cells they have.
fn settle(sheet: &mut [u8], work: &[u32], count: usize, shape: Shape, ink: u8) -> usize
    requires sheet { Sheet shape sheet.old }
    requires count_in_bounds { (count ≤ length work.now) × (count ≤ 16777216) }
    requires all_on_sheet { AllOnSheet shape work.now count }
    ensures value { result ≡ total work.now count }
    ensures settled { Settled shape.pitch ink work.now count sheet.old sheet.new }
{
    let pitch = shape.pitch;
    let mut cells = 0;
    for &piece in &work[..count] {
        let piece = piece as usize;
        let at = piece / 1048576 * pitch as usize + piece / 256 % 4096;
        let long = piece % 256 + 1;
        ink_run(sheet, at, at + long, ink);
        cells += long;
    }
    cells
}

// What a territory came to: its cells, and the pieces of the queue that they are in.
#[derive(Clone, Copy, Debug, PartialEq, Eq, Hash)]
struct Amount {
    cells: usize,
    pieces: usize,
}

// Fills the territory of a cell of the sheet.
fn flood(
    sheet: &mut [u8],
    work: &mut [u32],
    shape: Shape,
    row: usize,
    column: usize,
    boundary: u8,
    territory: u8,
) -> Amount
    requires ready { Ready shape boundary sheet.old work.old 0 }
    requires row_lt_height { (row < shape.height) × (column < shape.width) }
    ensures flooded_in { FloodedIn shape boundary territory column row sheet.old result.cells
        sheet.new work.new result.pieces }
    ensures pieces_in_bounds { result.pieces ≤ length work.new }
{
    let pieces = walk(sheet, work, shape, row, column, boundary);
    let cells = settle(sheet, work, pieces, shape, territory);
    Amount { cells, pieces }
}

/// What came of a fill that tells its rows: from top to before bottom; from 4,096, which no sheet has, to 0 where it set no cell.
#[derive(Clone, Copy, Debug, PartialEq, Eq, Hash)]
pub struct Filled {
    /// How many cells the territory has.
    pub cells: usize,
    /// The first row that it has a cell in.
    pub top: u32,
    /// The row after the last that it has a cell in.
    pub bottom: u32,
}

// A column or a row of the sheet, for a number that is one.
#[tactic(auto, unfolding(crate::specs::Inner::index_of))]
fn index(z: i32, size: u32) -> Option<u32>
    ensures { result ≡ index_of z size }
{
    let at = u32::try_from(z).ok()?;
    (at < size).then_some(at)
}

// Fills the territory of a cell, and tells its pieces.
fn fill_pieces(
    sheet: &mut [u8],
    shape: Shape,
    start: Cell,
    boundary: u8,
    territory: u8,
    work: &mut [u32],
) -> Result<Amount, Refusal>
    ensures fills_pieces { FillsPieces shape start boundary territory (length work.old)
        sheet.old (told amount_answer result) sheet.new work.new (pieces_of result) }
    ensures spares { Spares (told amount_answer result) work.old work.new }
{
    shape.check(sheet.len())?;
    if work.len() < shape.width as usize * shape.height as usize {
        return Err(Refusal::Work);
    }
    let column = index(start.x, shape.width).ok_or(Refusal::Start)?;
    let row = index(start.y, shape.height).ok_or(Refusal::Start)?;
    Ok(flood(
        sheet,
        work,
        shape,
        row as usize,
        column as usize,
        boundary,
        territory,
    ))
}

/// Fills the territory of a cell: sets to the territory ink exactly the cells that can be reached from it by steps to a side
/// neighbour on the sheet without entering a cell of the boundary ink, and tells their number. The work slice has a place for
/// each cell of the sheet; a refusal leaves it as it was, and what it holds after a fill is nobody's to read.
pub fn fill(
    sheet: &mut [u8],
    shape: Shape,
    start: Cell,
    boundary: u8,
    territory: u8,
    work: &mut [u32],
) -> Result<usize, Refusal>
    ensures fills { Fills shape start boundary territory (length work.old)
        sheet.old (told count_answer result) sheet.new }
    ensures spares { Spares (told count_answer result) work.old work.new }
{
    Ok(fill_pieces(sheet, shape, start, boundary, territory, work)?.cells)
}

/// The same, and tells besides in which rows it set cells.
pub fn fill_rows(
    sheet: &mut [u8],
    shape: Shape,
    start: Cell,
    boundary: u8,
    territory: u8,
    work: &mut [u32],
) -> Result<Filled, Refusal>
    ensures fills_rows { FillsRows shape start boundary territory (length work.old)
        sheet.old (told filled_answer result) (first_row result) (past_row result) sheet.new }
    ensures spares { Spares (told filled_answer result) work.old work.new }
{
    let amount = fill_pieces(sheet, shape, start, boundary, territory, work)?;
    let rows = rows_of(work, amount.pieces);
    Ok(Filled {
        cells: amount.cells,
        top: rows.top,
        bottom: rows.bottom,
    })
}
