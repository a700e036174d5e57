// The text that is printed for the bytes of the input.
ghost use Rattle.std.specs.Prelude.{◌+◌, ◌*◌, ◌≤◌, ◌<◌, ◌≡◌, length};
ghost use Rattle.std.proofs.lemmas.List.Edits.{sets};
ghost use Rattle.laws.specs.Text.{decimal, written_over};
ghost use Rattle.print.specs.Text.{character, line, picture, refusal, text_of, unreadable, reply_of};

use sheet::Shape;

/// Writes a part at a place, and answers the place after it.
fn put(out: &mut [u8], at: usize, part: &[u8]) -> usize
    requires { at + length part.now ≤ length out.old }
    ensures value { result ≡ at + length part.now }
    ensures out_after { out.new ≡ sets out.old at part.now }
{
    let end = at + part.len();
    out[at..end].copy_from_slice(part);
    end
}

/// Writes a number in decimal digits, likewise.
fn put_decimal(out: &mut [u8], at: usize, n: u64) -> usize
    requires { at + 20 ≤ length out.old }
    ensures value { result ≡ at + length (decimal n) }
    ensures upper_bound { result ≤ at + 20 }
    ensures out_after { out.new ≡ sets out.old at (decimal n) }
{
    let mut digits = [0u8; 20];
    let count = io::decimal(n, &mut digits);
    put(out, at, &digits[..count])
}

/// Writes the line of a refusal, and answers its length.
fn put_refusal(out: &mut [u8], number: u32, offset: usize) -> usize
    requires { 53 ≤ length out.old }
    ensures value { result ≡ length (refusal number offset) }
    ensures upper_bound { result ≤ 53 }
    ensures out_after { out.new ≡ sets out.old 0 (refusal number offset) }
{
    let named = put(out, 0, b"refused ");
    let numbered = put_decimal(out, named, number as u64);
    let placed = put(out, numbered, b" at ");
    let ended = put_decimal(out, placed, offset as u64);
    put(out, ended, b"\n")
}

/// Writes the line for an input that cannot be read, and answers its length.
fn put_unreadable(out: &mut [u8]) -> usize
    requires { 21 ≤ length out.old }
    ensures value { result ≡ length unreadable }
    ensures out_after { out.new ≡ sets out.old 0 unreadable }
{
    put(out, 0, b"input cannot be read\n")
}

/// The character of a byte.
fn character(byte: u8) -> u8
    ensures { result ≡ character byte }
{
    if byte == 0 { b'.' } else { b'#' }
}

/// Writes line y of the picture of a sheet.
fn put_line(out: &mut [u8], sheet: &[u8], y: usize)
    requires in_bounds { 136 ≤ length out.old }
    requires sheet_len { length sheet.now ≡ 128 }
    requires y_bound { y < 8 }
    ensures { out.new ≡ sets out.old (y * 17) (line sheet.now y) }
{
    for x in 0..16 {
        out[y * 17 + x] = character(sheet[y * 16 + x]);
    }
    out[y * 17 + 16] = b'\n';
}

/// Writes the picture of a sheet.
fn put_picture(out: &mut [u8], sheet: &[u8])
    requires in_bounds { 136 ≤ length out.old }
    requires sheet_len { length sheet.now ≡ 128 }
    ensures { out.new ≡ sets out.old 0 (picture sheet.now) }
{
    for y in 0..8 {
        put_line(out, sheet, y);
    }
}

/// Writes the whole text for the bytes of the input, and answers its length.
pub fn text(file: &[u8], out: &mut [u8; 136]) -> usize
    ensures value { result ≡ length (text_of file.now) }
    ensures out_after { out.new ≡ written_over (text_of file.now) out.old }
{
    if 4096 < file.len() {
        return put(out, 0, b"input too long\n");
    }
    let mut sheet = [0u8; 128];
    let shape = Shape {
        width: 16,
        height: 8,
        pitch: 16,
    };
    match drawing::draw_file(&mut sheet, shape, file) {
        Ok(_) => {
            put_picture(out, &sheet);
            136
        }
        Err(f) => put_refusal(out, f.refusal.number(), f.offset),
    }
}

/// Writes the reply to what was read, the whole input or what came before a read failed, and answers its length.
pub fn reply(whole: bool, file: &[u8], out: &mut [u8; 136]) -> usize
    ensures value { result ≡ length (reply_of whole file.now) }
    ensures out_after { out.new ≡ written_over (reply_of whole file.now) out.old }
{
    if whole {
        text(file, out)
    } else {
        put_unreadable(out)
    }
}
