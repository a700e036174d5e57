// A whole file, drawn: it is read to its end before the first cell is written.
ghost use Rattle.std.specs.Prelude.{◌≡◌, true, length, Ok};
ghost use Rattle.sheet.specs.Reply.{told_file, drawn_answer, is_done};
ghost use Rattle.sheet.specs.Drawing.{paint_all, box_all, Draws};
ghost use Rattle.sheet.specs.Inner.{fits};
ghost use Rattle.record.specs.File.{file_answer};
ghost use Rattle.drawing.specs.File.{figures_in, file_drawing};

use crate::figure::draw_figure;
use record::Read;
use sheet::{Drawn, FileRefusal, Rectangle, Refusal, Shape};

// Draws the records of a file in which none is refused; the rectangle over them.
fn draw_records(sheet: &mut [u8], shape: Shape, file: &[u8]) -> Result<Rectangle, Refusal>
    requires sheet_value { fits shape (length sheet.old) ≡ true }
    requires file_value { is_done (file_answer file.now) ≡ true }
    ensures sheet_after { sheet.new ≡ paint_all shape (figures_in file.now) sheet.old }
    ensures value { result ≡ Ok (box_all shape (figures_in file.now)) }
{
    let mut rectangle = Rectangle::none();
    let mut at: usize = 0;
    loop {
        // by `let .. else`, as document 01 asks for it on what a read answers
        let Read::Record(record) = record::read(file, at) else {
            return Ok(rectangle);
        };
        let drawn = draw_figure(sheet, shape, record.ink, record.figure)?;
        rectangle = rectangle.join(drawn.rectangle);
        at = record.next;
    }
}

/// Draws a whole file: how many records it has and the rectangle over them, or the refusal with its offset, which is 0 for one that speaks of the sheet.
pub fn draw_file(sheet: &mut [u8], shape: Shape, file: &[u8]) -> Result<Drawn, FileRefusal>
    ensures { Draws (file_drawing shape file.now) sheet.old (told_file drawn_answer result) sheet.new }
{
    shape.check(sheet.len())?;
    let count = record::check(file)?;
    let rectangle = draw_records(sheet, shape, file)?;
    Ok(Drawn {
        count: Some(count),
        rectangle,
    })
}
