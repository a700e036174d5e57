// Searches along a row: cell by cell at first, since most runs are short, and then in chunks of 64.
ghost use Rattle.std.specs.Prelude.{◌+◌, ◌≤◌, length};
ghost use Rattle.fill.specs.Inner.{Ahead, Back};

// How far ahead of a place, within 64, the first is that has the ink, where that is asked, or has it not: `has` picks no step, each
// cell's test is compared with it.
fn first(sheet: &[u8], at: usize, ink: u8, has: bool) -> usize
    requires { at + 64 ≤ length sheet.now }
    ensures { Ahead has ink at (at + 64) sheet.now (at + result) }
{
    let mut least = 64;
    for i in 0..64 {
        let here = if (sheet[at + i] == ink) == has {
            i as u8
        } else {
            64
        };
        least = here.min(least);
    }
    least as usize
}

// The first place from one to another that has the ink, where that is asked, or has it not: cell by cell.
fn near(sheet: &[u8], from: usize, to: usize, ink: u8, has: bool) -> usize
    requires { (from ≤ to) × (to ≤ length sheet.now) }
    ensures { Ahead has ink from to sheet.now result }
{
    for at in from..to {
        if (sheet[at] == ink) == has {
            return at;
        }
    }
    to
}

// The same in chunks, which may look past the end of the search, but not of the sheet, so that they are none of the slice's own.
fn far(sheet: &[u8], from: usize, to: usize, ink: u8, has: bool) -> usize
    requires { (from ≤ to) × (to ≤ length sheet.now) }
    ensures { Ahead has ink from to sheet.now result }
{
    let mut at = from;
    while at < to {
        if sheet.len() - at < 64 {
            return near(sheet, at, to, ink, has);
        }
        let passed = first(sheet, at, ink, has);
        if passed < 64 {
            return (at + passed).min(to);
        }
        at += 64;
    }
    to
}

// The same, first near and then far.
pub(crate) fn ahead(sheet: &[u8], from: usize, to: usize, ink: u8, has: bool) -> usize
    requires { (from ≤ to) × (to ≤ length sheet.now) }
    ensures { Ahead has ink from to sheet.now result }
{
    let close = (from + 8).min(to);
    let at = near(sheet, from, close, ink, has);
    if at < close {
        return at;
    }
    far(sheet, at, to, ink, has)
}

// Back from a place, as long as no cell has the ink: cell by cell.
fn near_back(sheet: &[u8], from: usize, to: usize, ink: u8) -> usize
    requires { (from ≤ to) × (to ≤ length sheet.now) }
    ensures { Back ink from to sheet.now result }
{
    for before in (from..to).rev() {
        if sheet[before] == ink {
            return before + 1;
        }
    }
    from
}

// Back in whole chunks that have no cell of the ink, as far as there are any.
fn far_back(sheet: &[u8], from: usize, to: usize, ink: u8) -> usize
    requires { (from ≤ to) × (to ≤ length sheet.now) }
    ensures { Back ink result to sheet.now result × (from ≤ result) }
{
    let mut at = to;
    while from + 64 <= at {
        let before = at - 64;
        if far(sheet, before, at, ink, true) < at {
            return at;
        }
        at = before;
    }
    at
}

// Back from a place, as long as no cell has the ink: first near, then far, and near again.
pub(crate) fn back(sheet: &[u8], from: usize, to: usize, ink: u8) -> usize
    requires { (from ≤ to) × (to ≤ length sheet.now) }
    ensures { Back ink from to sheet.now result }
{
    let close = to.saturating_sub(8).max(from);
    let at = near_back(sheet, close, to, ink);
    if close < at {
        return at;
    }
    near_back(sheet, from, far_back(sheet, from, at, ink), ink)
}
