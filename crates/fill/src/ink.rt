// Setting a run of places to an ink.
ghost use Rattle.std.specs.Prelude.{◌+◌, ◌≤◌, length};
ghost use Rattle.fill.specs.Inner.{InkedRun};

// Sets at most 8 places, with no branch: each of the 8 from the first on gets the ink or keeps what it has.
fn ink_few(sheet: &mut [u8], from: usize, count: usize, ink: u8)
    requires { (count ≤ 8) × (from + 8 ≤ length sheet.old) }
    ensures { InkedRun ink from (from + count) sheet.old sheet.new }
{
    for i in 0..8 {
        sheet[from + i] = if i < count { ink } else { sheet[from + i] };
    }
}

// Sets any number of places.
fn ink_many(sheet: &mut [u8], from: usize, to: usize, ink: u8)
    requires { (from ≤ to) × (to ≤ length sheet.old) }
    ensures { InkedRun ink from to sheet.old sheet.new }
{
    sheet[from..to].fill(ink);
}

// Sets the places from one to before another to an ink.
pub(crate) fn ink_run(sheet: &mut [u8], from: usize, to: usize, ink: u8)
    requires { (from ≤ to) × (to ≤ length sheet.old) }
    ensures { InkedRun ink from to sheet.old sheet.new }
{
    let count = to - from;
    if (count <= 8) & (from + 8 <= sheet.len()) {
        ink_few(sheet, from, count, ink);
        return;
    }
    ink_many(sheet, from, to, ink);
}
