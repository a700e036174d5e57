// How many cells of a row are nonzero. Sums that fit a byte, so that the compiler adds many at a time.
ghost use Rattle.std.specs.Prelude.{◌≡◌, cond, eqb, ◌+◌, ◌≤◌, ◌<◌, length};
ghost use Rattle.tally.specs.Inner.{inked};

// 1 for a cell that is nonzero.
fn one(cell: u8) -> u8
    ensures { result ≡ cond (eqb cell 0) 0 1 }
{
    u8::from(cell != 0)
}

// Of 128 cells.
#[tactic(auto, using(crate::proofs::Inked::inked_none, crate::proofs::Inked::inked_one, crate::proofs::Inked::inked_most))]
fn count_block(sheet: &[u8], at: usize) -> u8
    requires { at + 128 ≤ length sheet.now }
    ensures { result ≡ inked sheet.now at 128 }
{
    let mut n: u8 = 0;
    for i in 0..128 {
        n += one(sheet[at + i]);
    }
    n
}

// Of fewer than 256 cells.
#[tactic(auto, using(crate::proofs::Inked::inked_none, crate::proofs::Inked::inked_one, crate::proofs::Inked::inked_most))]
fn count_few(sheet: &[u8], at: usize, cells: usize) -> u8
    requires { (at + cells ≤ length sheet.now) × (cells < 256) }
    ensures { result ≡ inked sheet.now at cells }
{
    let mut n: u8 = 0;
    for i in 0..cells {
        n += one(sheet[at + i]);
    }
    n
}

// Of a row's.
pub(crate) fn count_row(sheet: &[u8], at: usize, cells: usize) -> u32
    requires { (at + cells ≤ length sheet.now) × (cells ≤ 4096) }
    ensures { result ≡ inked sheet.now at cells }
{
    let mut n: u32 = 0;
    let blocks = cells / 128;
    for block in 0..blocks {
        n += count_block(sheet, at + 128 * block) as u32;
    }
    n + count_few(sheet, at + 128 * blocks, cells % 128) as u32
}
