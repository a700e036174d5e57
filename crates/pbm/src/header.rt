// A picture's header, written and found.
ghost use Rattle.std.specs.Prelude.{◌≡◌, ◌+◌, ◌≤◌, ◌%◌, length};
ghost use Rattle.std.proofs.lemmas.List.Edits.{sets};
ghost use Rattle.laws.specs.Text.{decimal};
ghost use Rattle.pbm.specs.Picture.{header_bytes};
ghost use Rattle.pbm.specs.Inner.{Finds};

use crate::letters::{blank_at, find, is_at, read_number, skip_blanks};

// How many digits a side of a sheet has.
#[tactic(auto, using(crate::proofs::Decimals::one_digit, crate::proofs::Decimals::two_digits, crate::proofs::Decimals::three_digits, crate::proofs::Decimals::four_digits_lem))]
fn digits(n: u32) -> usize
    requires { n ≤ 4096 }
    ensures value { result ≡ length (decimal n) }
    ensures upper_bound { result ≤ 4 }
{
    if n < 10 {
        1
    } else if n < 100 {
        2
    } else if n < 1000 {
        3
    } else {
        4
    }
}

// The header's length.
#[tactic(auto, using(crate::proofs::Decimals::header_long))]
pub(crate) fn size(width: u32, height: u32) -> usize
    requires { (width ≤ 4096) × (height ≤ 4096) }
    ensures { (result ≡ length (header_bytes width height)) × (result ≤ 13) }
{
    5 + digits(width) + digits(height)
}

// The last digit of a number.
fn ones(n: u32) -> u8
    ensures { result ≡ 48 + n % 10 }
{
    b'0' + (n % 10) as u8
}

// Writes a side of a sheet in decimal digits, and answers the place after it.
fn put_number(out: &mut [u8], at: usize, n: u32) -> usize
    requires { (n ≤ 4096) × (at + length (decimal n) ≤ length out.old) }
    ensures { (result ≡ at + length (decimal n)) × (out.new ≡ sets out.old at (decimal n)) }
{
    let text = [ones(n / 1000), ones(n / 100), ones(n / 10), ones(n)];
    let count = digits(n);
    out[at..at + count].copy_from_slice(&text[4 - count..]);
    at + count
}

// Writes the header, and answers its length.
pub(crate) fn put_header(out: &mut [u8], width: u32, height: u32) -> usize
    requires { (width ≤ 4096) × (height ≤ 4096) × (length (header_bytes width height) ≤ length out.old) }
    ensures { (result ≡ length (header_bytes width height))
        × (out.new ≡ sets out.old 0 (header_bytes width height)) }
{
    out[0] = b'P';
    out[1] = b'4';
    out[2] = b'\n';
    let across = put_number(out, 3, width);
    out[across] = b' ';
    let down = put_number(out, across + 1, height);
    out[down] = b'\n';
    down + 1
}

// Where the rows of a picture of this size begin; none where the header breaks the rules or names another size.
pub(crate) fn find_rows(file: &[u8], width: u32, height: u32) -> Option<usize>
    requires { (1 ≤ width) × (width ≤ 4096) × (1 ≤ height) × (height ≤ 4096) }
    ensures { Finds file.now width height result }
{
    let letter = find(file, 0);
    let figure = find(file, letter + 1);
    let gap = find(file, figure + 1);
    let across = read_number(file, skip_blanks(file, gap));
    let down = read_number(file, skip_blanks(file, across.end));
    let magic = is_at(file, letter, b'P') & is_at(file, figure, b'4');
    let parted = blank_at(file, gap) & blank_at(file, across.end) & blank_at(file, down.end);
    let same = (across.value == width) & (down.value == height);
    if magic & parted & same {
        Some(down.end + 1)
    } else {
        None
    }
}
