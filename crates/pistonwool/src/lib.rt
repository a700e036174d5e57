// What C and Rust link: the drawings on numbers and slices, with a tally or without, the pen, writing records, rescuing a
// damaged file, and pictures.
// Each answers a number of the table; but a pen that is asked answers 1 for a cell and 0 for finished.
#![tactic(auto)]

ghost use Rattle.std.specs.Prelude.{◌≡◌, ◌<◌};
ghost use Rattle.sheet.specs.Reply.{told, told_file, count_answer, drawn_answer, value_of, settled};
ghost use Rattle.pistonwool.specs.Told.{box_numbers};
ghost use Rattle.pistonwool.specs.Inner.{reply_number};

mod cells;
mod file;
mod metres;
mod pen;
mod picture;
mod rescuing;
mod tallied;
mod territory;
mod writing;

pub use cells::{pw_cubic, pw_curve, pw_ellipse, pw_line, pw_list};
pub use file::pw_file;
pub use metres::{pw_ellipse_metres, pw_line_metres};
pub use pen::{pw_pen_begin, pw_pen_next};
pub use picture::{pw_read_pbm, pw_write_pbm};
pub use rescuing::pw_rescue;
use sheet::{Drawn, FileRefusal, Rectangle, Refusal};
pub use tallied::{
    pw_cubic_tallied, pw_curve_tallied, pw_ellipse_metres_tallied, pw_ellipse_tallied,
    pw_file_tallied, pw_fill_tallied, pw_line_metres_tallied, pw_line_tallied, pw_tally,
};
pub use territory::pw_fill;
pub use writing::{
    pw_write_circle, pw_write_cubic, pw_write_curve, pw_write_ellipse, pw_write_line,
};

// The number of a reply: 0 where it is done, else that of the refusal.
fn number_of<T: Copy>(reply: Result<T, Refusal>) -> u32
    ensures { result ≡ reply_number reply }
{
    match reply {
        Ok(_) => 0,
        Err(refusal) => refusal.number(),
    }
}

// Tells a rectangle: x, y, width and height, all 0 for none.
fn tell_box(rectangle: Rectangle, numbers: &mut [u32; 4])
    ensures { numbers.new ≡ box_numbers rectangle }
{
    let Rectangle {
        left,
        top,
        right,
        bottom,
    } = rectangle;
    *numbers = if left < right {
        [left, top, right - left, bottom.saturating_sub(top)]
    } else {
        [0, 0, 0, 0]
    };
}

// Tells what came of a drawing: its number, and its rectangle where it is done.
fn tell(drawn: Result<Drawn, Refusal>, numbers: &mut [u32; 4]) -> u32
    ensures number { result ≡ (told drawn_answer drawn).number }
    ensures rectangle { numbers.new ≡ settled (told drawn_answer drawn) (box_numbers (told drawn_answer drawn).box) numbers.old }
{
    if let Ok(done) = drawn {
        tell_box(done.rectangle, numbers);
    }
    number_of(drawn)
}

// The same of a drawing that counts cells: how many, where it is done.
fn tell_counted(drawn: Result<Drawn, Refusal>, cells: &mut u32, numbers: &mut [u32; 4]) -> u32
    requires { value_of (told drawn_answer drawn) < 4294967296 }
    ensures number { result ≡ (told drawn_answer drawn).number }
    ensures cells { cells.new ≡ settled (told drawn_answer drawn) (value_of (told drawn_answer drawn)) cells.old }
    ensures rectangle { numbers.new ≡ settled (told drawn_answer drawn) (box_numbers (told drawn_answer drawn).box) numbers.old }
{
    if let Ok(done) = drawn {
        *cells = done.count.unwrap_or(0) as u32;
    }
    tell(drawn, numbers)
}

// The same of a file: how many records, or the offset of what is refused.
fn tell_file(drawn: Result<Drawn, FileRefusal>, value: &mut u64, numbers: &mut [u32; 4]) -> u32
    ensures number { result ≡ (told_file drawn_answer drawn).number }
    ensures value { value.new ≡ value_of (told_file drawn_answer drawn) }
    ensures rectangle { numbers.new ≡ settled (told_file drawn_answer drawn) (box_numbers (told_file drawn_answer drawn).box) numbers.old }
{
    match drawn {
        Ok(done) => {
            tell_box(done.rectangle, numbers);
            *value = done.count.unwrap_or(0) as u64;
            0
        }
        Err(refused) => {
            *value = refused.offset as u64;
            refused.refusal.number()
        }
    }
}

// Tells a number of cells, which C counts in 32 bits, where it is done.
fn tell_cells(counted: Result<usize, Refusal>, cells: &mut u32) -> u32
    requires { value_of (told count_answer counted) < 4294967296 }
    ensures number { result ≡ (told count_answer counted).number }
    ensures cells { cells.new ≡ settled (told count_answer counted) (value_of (told count_answer counted)) cells.old }
{
    if let Ok(count) = counted {
        *cells = count as u32;
    }
    number_of(counted)
}

// Tells a number of bytes, which C counts in 64 bits, where it is done.
fn tell_bytes(written: Result<usize, Refusal>, bytes: &mut u64) -> u32
    ensures number { result ≡ (told count_answer written).number }
    ensures bytes { bytes.new ≡ settled (told count_answer written) (value_of (told count_answer written)) bytes.old }
{
    if let Ok(count) = written {
        *bytes = count as u64;
    }
    number_of(written)
}
