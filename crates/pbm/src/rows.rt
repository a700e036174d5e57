// A picture's rows: eight cells make a byte, and a byte eight cells, without a branch for each.
ghost use Rattle.std.specs.Prelude.{◌≡◌, ℕ, ◌+◌, ◌*◌, ◌≤◌, ◌<◌, length};
ghost use Rattle.std.proofs.lemmas.List.Edits.{sets};
ghost use Rattle.laws.specs.Below.{each};
ghost use Rattle.sheet.specs.Inner.{Sheet};
ghost use Rattle.pbm.specs.Picture.{row_byte_count, raster_byte_count, bit_of, raster_byte};
ghost use Rattle.pbm.specs.Inner.{spread, Table, byte_of, flag_at, four_of, Flags, packed_at, row_bit, laid};

use sheet::Shape;

// How many bytes a row takes.
pub(crate) fn row_bytes(width: usize) -> usize
    requires { width ≤ 4096 }
    ensures { (result ≡ row_byte_count width) × (result ≤ 512) }
{
    (width + 7) / 8
}

// 1 for nonzero ink.
fn flag(ink: u8) -> u8
    ensures { result ≡ bit_of ink }
{
    u8::from(ink != 0)
}

// Flags the cells of a row.
fn flag_row(sheet: &[u8], from: usize, width: usize, flags: &mut [u8])
    requires { (from + width ≤ length sheet.now) × (width ≤ length flags.old) }
    ensures { flags.new ≡ sets flags.old 0 (each width (flag_at sheet.now from)) }
{
    for x in 0..width {
        flags[x] = flag(sheet[from + x]);
    }
}

// Four flags in the bytes of a number.
#[tactic(auto, unfolding(crate::specs::Inner::four_of))]
fn four(flags: &[u8], at: usize) -> u64
    requires { (at + 4 ≤ length flags.now) × Flags flags.now }
    ensures { result ≡ four_of flags.now at }
{
    u32::from_le_bytes([flags[at], flags[at + 1], flags[at + 2], flags[at + 3]]) as u64
}

// Eight flags as a byte: one product brings each of them to its bit.
fn pack(flags: &[u8], at: usize) -> u8
    requires { (at + 8 ≤ length flags.now) × Flags flags.now }
    ensures { result ≡ packed_at flags.now at }
{
    let spread = four(flags, at) * 16 + four(flags, at + 4);
    (spread * 0x0804_0201 / 0x0100_0000 % 256) as u8
}

// The bytes of a row whose cells are flagged.
fn pack_row(flags: &[u8], out: &mut [u8], at: usize, count: usize)
    requires { (count * 8 ≤ length flags.now) × Flags flags.now × (at + count ≤ length out.old) }
    ensures { out.new ≡ sets out.old at (each count (λ (j : ℕ). packed_at flags.now (j * 8))) }
{
    for j in 0..count {
        out[at + j] = pack(flags, j * 8);
    }
}

// Writes the rows of a sheet. The flags after a row's width stay 0, which pads it to a byte.
pub(crate) fn put_rows(sheet: &[u8], shape: Shape, out: &mut [u8], at: usize)
    requires { Sheet shape sheet.now × (at + raster_byte_count shape ≤ length out.old) }
    ensures { out.new ≡ sets out.old at (each (raster_byte_count shape) (raster_byte shape sheet.now)) }
{
    let width = shape.width as usize;
    let height = shape.height as usize;
    let pitch = shape.pitch as usize;
    let count = row_bytes(width);
    let mut flags = [0u8; 4096];
    for y in 0..height {
        flag_row(sheet, y * pitch, width, &mut flags);
        pack_row(&flags, out, at + y * count, count);
    }
}

// Makes the table of the eight cells of each byte, ink 1 and 0: those of its half, one further, and its last bit.
fn make_table(table: &mut [u64])
    requires { length table.old ≡ 256 }
    ensures { Table table.new }
{
    table[0] = 0;
    for byte in 1..256 {
        table[byte] = table[byte / 2] / 256 + (byte % 2) as u64 * 0x0100_0000_0000_0000;
    }
}

// The eight cells of a byte.
fn cells_of(table: &[u64], byte: u8) -> u64
    requires { Table table.now }
    ensures { (result ≡ spread 8 byte) × (byte < 256) }
{
    table[byte as usize]
}

// Lays eight cells, the bytes of a number, which the compiler does by one store.
fn lay(sheet: &mut [u8], at: usize, cells: u64)
    requires { at + 8 ≤ length sheet.old }
    ensures { sheet.new ≡ sets sheet.old at (each 8 (byte_of cells)) }
{
    sheet[at..at + 8].copy_from_slice(&cells.to_le_bytes());
}

// Lays the first few of eight cells.
fn lay_few(sheet: &mut [u8], at: usize, few: usize, cells: u64)
    requires { (at + few ≤ length sheet.old) × (few ≤ 8) }
    ensures { sheet.new ≡ sets sheet.old at (each few (byte_of cells)) }
{
    sheet[at..at + few].copy_from_slice(&cells.to_le_bytes()[..few]);
}

// Lays a row of a picture.
fn lay_row(sheet: &mut [u8], at: usize, width: usize, picture: &[u8], from: usize, table: &[u64])
    requires { (at + width ≤ length sheet.old) × (width ≤ 4096) × (from + row_byte_count width ≤ length picture.now) × Table table.now }
    ensures { sheet.new ≡ sets sheet.old at (each width (row_bit picture.now from)) }
{
    let whole = width / 8;
    for j in 0..whole {
        lay(sheet, at + j * 8, cells_of(table, picture[from + j]));
    }
    let left = width - whole * 8;
    if left == 0 {
        return;
    }
    lay_few(
        sheet,
        at + whole * 8,
        left,
        cells_of(table, picture[from + whole]),
    );
}

// Lays the rows of a picture.
pub(crate) fn lay_rows(sheet: &mut [u8], shape: Shape, picture: &[u8], from: usize)
    requires { Sheet shape sheet.old × (from + raster_byte_count shape ≤ length picture.now) }
    ensures { sheet.new ≡ laid shape picture.now from shape.height sheet.old }
{
    let width = shape.width as usize;
    let height = shape.height as usize;
    let pitch = shape.pitch as usize;
    let count = row_bytes(width);
    let mut table = [0u64; 256];
    make_table(&mut table);
    for y in 0..height {
        lay_row(sheet, y * pitch, width, picture, from + y * count, &table);
    }
}
