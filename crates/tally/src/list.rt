// A list against a sheet, and counting rows.
ghost use Rattle.std.specs.Prelude.{◌≡◌, [], ◌≤◌, length};
ghost use Rattle.sheet.specs.Reply.{told, test_answer, done};
ghost use Rattle.tally.specs.Tally.{right, if_places, if_tally, Counts};
ghost use Rattle.tally.specs.Inner.{Beside, counted_rows};

use crate::row::count_row;
use sheet::{Refusal, Shape};

// Tests a sheet and the length of its list, which has one place for each row.
fn check_places(shape: Shape, bytes: usize, places: usize) -> Result<(), Refusal>
    ensures { told test_answer result ≡ if_places shape bytes places (done []) }
{
    shape.check(bytes)?;
    if places != shape.height as usize {
        return Err(Refusal::Places);
    }
    Ok(())
}

// Tests a list against a sheet: whether it is right.
fn is_right(sheet: &[u8], shape: Shape, rows: &[u32]) -> bool
    requires { Beside shape sheet.now rows.now }
    ensures { result ≡ right shape sheet.now rows.now }
{
    let width = shape.width as usize;
    let height = shape.height as usize;
    let pitch = shape.pitch as usize;
    for y in 0..height {
        if rows[y] != count_row(sheet, y * pitch, width) {
            return false;
        }
    }
    true
}

// Counts the rows from one to before another.
pub(crate) fn count_rows(sheet: &[u8], shape: Shape, rows: &mut [u32], from: u32, to: u32)
    requires beside { Beside shape sheet.now rows.old }
    requires to_le_height { to ≤ shape.height }
    ensures { rows.new ≡ counted_rows shape sheet.now from to rows.old }
{
    let width = shape.width as usize;
    let pitch = shape.pitch as usize;
    for y in from as usize..to as usize {
        rows[y] = count_row(sheet, y * pitch, width);
    }
}

/// Tests a sheet and its list, as every drawing beside a list does first: the list has one place for each row, and in it how many
/// cells of the row are nonzero.
pub fn check(sheet: &[u8], shape: Shape, rows: &[u32]) -> Result<(), Refusal>
    ensures { told test_answer result
        ≡ if_tally shape (length sheet.now) sheet.now rows.now (done []) }
{
    check_places(shape, sheet.len(), rows.len())?;
    if !is_right(sheet, shape, rows) {
        return Err(Refusal::Tally);
    }
    Ok(())
}

/// Counts the sheet afresh, whatever the list held.
pub fn count(sheet: &[u8], shape: Shape, rows: &mut [u32]) -> Result<(), Refusal>
    ensures { Counts shape sheet.now rows.old (told test_answer result) rows.new }
{
    check_places(shape, sheet.len(), rows.len())?;
    count_rows(sheet, shape, rows, 0, shape.height);
    Ok(())
}
