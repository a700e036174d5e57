// The record file: what stands at an offset, a whole file read to its end, rescuing a damaged one, and writing a record.
#![tactic(auto)]

mod rescuing;
mod types;
mod writing;

ghost use Rattle.std.specs.Prelude.{ℕ, ◌≡◌, ◌+◌, ◌<◌, length, OnOk};
ghost use Rattle.sheet.specs.Reply.{told_file, count_answer};
ghost use Rattle.record.specs.Layout.{word_value_at, signed};
ghost use Rattle.record.specs.Reading.{kind_found, read_of, read_at, read_answer, told_read};
ghost use Rattle.record.specs.File.{file_answer};
ghost use Rattle.record.specs.Inner.{Counts, cell_read, three_read, axis_read, split_read, line_read, circle_read, ellipse_read, curve_read, cubic_read, read_decoded, closed_by};

pub use rescuing::rescue;
use sheet::{Cell, Figure, FileRefusal, Refusal};
pub use types::{Read, Record, Rescued};
pub use writing::{write, write_circle, write_cubic, write_curve, write_ellipse, write_line};

/// The word at k, the lower byte first.
fn word_at(bytes: &[u8], k: usize) -> u16
    requires { k + 1 < length bytes.now }
    ensures { result ≡ word_value_at bytes.now k }
{
    u16::from_le_bytes([bytes[k], bytes[k + 1]])
}

/// The word at k as a signed number.
fn signed_at(bytes: &[u8], k: usize) -> i32
    requires { k + 1 < length bytes.now }
    ensures { result ≡ signed (word_value_at bytes.now k) }
{
    i32::from(i16::from_le_bytes([bytes[k], bytes[k + 1]]))
}

/// The cell whose x stands at a place of the payload, with y after it.
fn cell_at(payload: &[u8], at: usize, place: usize) -> Result<Cell, FileRefusal>
    requires in_payload { place + 3 < length payload.now }
    requires counts { Counts at payload.now }
    ensures { result ≡ cell_read payload.now at place }
{
    let x = signed_at(payload, place);
    let y = signed_at(payload, place + 2);
    if !sheet::is_coordinate(x) {
        return Err(FileRefusal {
            refusal: Refusal::Coordinate,
            offset: at + 4 + place,
        });
    }
    if !sheet::is_coordinate(y) {
        return Err(FileRefusal {
            refusal: Refusal::Coordinate,
            offset: at + 4 + place + 2,
        });
    }
    Ok(Cell { x, y })
}

/// The first three control points, which stand after the ink.
fn three_at(payload: &[u8], at: usize) -> Result<(Cell, Cell, Cell), FileRefusal>
    requires in_payload { 12 < length payload.now }
    requires counts { Counts at payload.now }
    ensures { result ≡ three_read payload.now at }
{
    let p0 = cell_at(payload, at, 1)?;
    let p1 = cell_at(payload, at, 5)?;
    let p2 = cell_at(payload, at, 9)?;
    Ok((p0, p1, p2))
}

/// The semi-axis that stands at a place of the payload, with the other at another; of a circle both are r.
fn axis_at(payload: &[u8], at: usize, place: usize, other: usize) -> Result<u32, FileRefusal>
    requires in_payload { (place + 1 < length payload.now) × (other + 1 < length payload.now) }
    requires counts { Counts at payload.now }
    ensures { result ≡ axis_read payload.now at place other }
{
    let number = u32::from(word_at(payload, place));
    if !sheet::is_semi_axis(number, u32::from(word_at(payload, other))) {
        return Err(FileRefusal {
            refusal: Refusal::Radius,
            offset: at + 4 + place,
        });
    }
    Ok(number)
}

/// The s that stands at a place of the payload.
fn split_at(payload: &[u8], at: usize, place: usize) -> Result<u32, FileRefusal>
    requires in_payload { place < length payload.now }
    requires counts { Counts at payload.now }
    ensures { result ≡ split_read payload.now at place }
{
    let number = u32::from(payload[place]);
    if !sheet::is_split(number) {
        return Err(FileRefusal {
            refusal: Refusal::Pieces,
            offset: at + 4 + place,
        });
    }
    Ok(number)
}

/// Kind 1: ink, x0, y0, x1, y1.
#[inline(always)]
fn line(payload: &[u8], at: usize) -> Result<Figure, FileRefusal>
    requires { Counts at payload.now }
    ensures { result ≡ line_read payload.now at }
{
    if payload.len() != 9 {
        return Err(FileRefusal {
            refusal: Refusal::Length,
            offset: at,
        });
    }
    let from = cell_at(payload, at, 1)?;
    let to = cell_at(payload, at, 5)?;
    Ok(Figure::Line(from, to))
}

/// Kind 2: ink, centre x, centre y, r.
#[inline(always)]
fn circle(payload: &[u8], at: usize) -> Result<Figure, FileRefusal>
    requires { Counts at payload.now }
    ensures { result ≡ circle_read payload.now at }
{
    if payload.len() != 7 {
        return Err(FileRefusal {
            refusal: Refusal::Length,
            offset: at,
        });
    }
    let centre = cell_at(payload, at, 1)?;
    let r = axis_at(payload, at, 5, 5)?;
    Ok(Figure::Circle(centre, r))
}

/// Kind 3: ink, centre x, centre y, a, b.
#[inline(always)]
fn ellipse(payload: &[u8], at: usize) -> Result<Figure, FileRefusal>
    requires { Counts at payload.now }
    ensures { result ≡ ellipse_read payload.now at }
{
    if payload.len() != 9 {
        return Err(FileRefusal {
            refusal: Refusal::Length,
            offset: at,
        });
    }
    let centre = cell_at(payload, at, 1)?;
    let a = axis_at(payload, at, 5, 7)?;
    let b = axis_at(payload, at, 7, 5)?;
    Ok(Figure::Ellipse(centre, a, b))
}

/// Kind 4: ink, P0, P1, P2 (each x then y), s.
#[inline(always)]
fn curve(payload: &[u8], at: usize) -> Result<Figure, FileRefusal>
    requires { Counts at payload.now }
    ensures { result ≡ curve_read payload.now at }
{
    if payload.len() != 14 {
        return Err(FileRefusal {
            refusal: Refusal::Length,
            offset: at,
        });
    }
    let (p0, p1, p2) = three_at(payload, at)?;
    let s = split_at(payload, at, 13)?;
    Ok(Figure::Curve(p0, p1, p2, s))
}

/// Kind 5: ink, P0, P1, P2, P3, s.
#[inline(always)]
fn cubic(payload: &[u8], at: usize) -> Result<Figure, FileRefusal>
    requires { Counts at payload.now }
    ensures { result ≡ cubic_read payload.now at }
{
    if payload.len() != 18 {
        return Err(FileRefusal {
            refusal: Refusal::Length,
            offset: at,
        });
    }
    let (p0, p1, p2) = three_at(payload, at)?;
    let p3 = cell_at(payload, at, 13)?;
    let s = split_at(payload, at, 17)?;
    Ok(Figure::Cubic(p0, p1, p2, p3, s))
}

/// The figure of a payload of any kind, by its decoder. A kind is its number in the file, here and where its writer puts it: an enum of
/// kinds would be a second table of the same numbers.
#[inline(always)]
fn decode(kind: u16, payload: &[u8], at: usize) -> Result<Figure, FileRefusal>
    requires { Counts at payload.now }
    ensures reads { (next : ℕ) → read_decoded at next payload.now result ≡ read_of (kind_found kind payload.now at next) }
    ensures inked { OnOk result (0 < length payload.now) }
{
    match kind {
        1 => line(payload, at),
        2 => circle(payload, at),
        3 => ellipse(payload, at),
        4 => curve(payload, at),
        5 => cubic(payload, at),
        _ => Err(FileRefusal {
            refusal: Refusal::Kind,
            offset: at + 2,
        }),
    }
}

/// What stands at an offset of the file. Inlined with its decoders, so that a loop that asks only where the next record begins builds no
/// figure.
#[inline(always)]
pub fn read(file: &[u8], at: usize) -> Read
    ensures result_value { told_read result ≡ read_answer file.now at }
    ensures value { result ≡ read_at file.now at }
{
    let bytes = file.len();
    if bytes <= at {
        return Read::End;
    }
    if bytes - at < 2 {
        return Read::Refused(Refusal::Short, at);
    }
    let length = usize::from(word_at(file, at));
    if bytes - at - 2 < length {
        return Read::Refused(Refusal::Short, at);
    }
    if length < 2 {
        return Read::Refused(Refusal::Kindless, at);
    }
    let kind = word_at(file, at + 2);
    let end = at + 2 + length;
    let payload = &file[at + 4..end];
    match decode(kind, payload, at) {
        Ok(figure) => Read::Record(Record {
            offset: at,
            next: end,
            ink: payload[0],
            figure,
        }),
        Err(f) => Read::Refused(f.refusal, f.offset),
    }
}

/// What a read that is no record makes of the file, after this many records.
fn closed(answer: Read, count: usize) -> Result<usize, FileRefusal>
    ensures { result ≡ closed_by answer count }
{
    match answer {
        Read::Record(_) => Ok(count),
        Read::End => Ok(count),
        Read::Refused(refusal, offset) => Err(FileRefusal { refusal, offset }),
    }
}

/// Reads the file to its end: its number of records, or the first refusal with its offset.
pub fn check(file: &[u8]) -> Result<usize, FileRefusal>
    ensures { told_file count_answer result ≡ file_answer file.now }
{
    let mut count: usize = 0;
    let mut at: usize = 0;
    loop {
        let answer = read(file, at);
        let Read::Record(record) = answer else {
            return closed(answer, count);
        };
        count += 1;
        at = record.next;
    }
}
