// A file beside a list: it is tested, the file is drawn, and the rows of the rectangle are counted again.
ghost use Rattle.std.specs.Prelude.{◌≡◌};
ghost use Rattle.sheet.specs.Reply.{told_file, drawn_answer};
ghost use Rattle.sheet.specs.Drawing.{Draws};
ghost use Rattle.drawing.specs.File.{file_form, file_drawing};
ghost use Rattle.tally.specs.Tally.{recounted, beside};

use crate::list::{check, count_rows};
use sheet::{Drawn, FileRefusal, Shape};

/// Draws a whole file; with the refusals of its list it tells offset 0.
pub fn draw_file(
    sheet: &mut [u8],
    shape: Shape,
    rows: &mut [u32],
    file: &[u8],
) -> Result<Drawn, FileRefusal>
    ensures draws { Draws (beside file_form sheet.old rows.old (file_drawing shape file.now))
        sheet.old (told_file drawn_answer result) sheet.new }
    ensures rows_after { rows.new ≡ recounted shape (told_file drawn_answer result) sheet.new rows.old }
{
    check(sheet, shape, rows)?;
    let drawn = drawing::draw_file(sheet, shape, file)?;
    let set = drawn.rectangle;
    count_rows(sheet, shape, rows, set.top, set.bottom);
    Ok(drawn)
}
