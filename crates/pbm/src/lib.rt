// Pictures: a sheet written as raw PBM, and one read onto a sheet of the same size.
#![tactic(auto)]

ghost use Rattle.sheet.specs.Reply.{told, test_answer, count_answer};
ghost use Rattle.sheet.specs.Drawing.{Paints};
ghost use Rattle.pbm.specs.Picture.{Writes};
ghost use Rattle.pbm.specs.Reading.{read_drawing};

mod header;
mod letters;
mod rows;

use sheet::{Refusal, Shape};

/// Writes a sheet as a picture, and replies with the picture's byte count.
///
/// It is refused, and the buffer left as it was, for a slice that is no sheet of the shape (`Size`, `Slice`) and for a buffer with fewer bytes
/// than the picture takes (`Buffer`), in this order.
pub fn write(sheet: &[u8], shape: Shape, picture: &mut [u8]) -> Result<usize, Refusal>
    ensures { Writes shape sheet.now picture.old (told count_answer result) picture.new }
{
    shape.check(sheet.len())?;
    let width = shape.width;
    let height = shape.height;
    let raster = height as usize * rows::row_bytes(width as usize);
    let bytes = header::size(width, height) + raster;
    if picture.len() < bytes {
        return Err(Refusal::Buffer);
    }
    let at = header::put_header(picture, width, height);
    rows::put_rows(sheet, shape, picture, at);
    Ok(bytes)
}

/// Reads a picture onto a sheet, as ink 1 and 0.
///
/// It is refused, and the sheet left as it was, for a slice that is no sheet of the shape (`Size`, `Slice`), for a header that breaks the rules
/// of raw PBM or names another size than the sheet's (`Header`), and for fewer bytes after it than the rows take (`Pixels`), in this order.
pub fn read(sheet: &mut [u8], shape: Shape, picture: &[u8]) -> Result<(), Refusal>
    ensures { Paints (read_drawing shape picture.now) sheet.old (told test_answer result) sheet.new }
{
    shape.check(sheet.len())?;
    let width = shape.width;
    let height = shape.height;
    let Some(at) = header::find_rows(picture, width, height) else {
        return Err(Refusal::Header);
    };
    let raster = height as usize * rows::row_bytes(width as usize);
    if picture.len() - at < raster {
        return Err(Refusal::Pixels);
    }
    rows::lay_rows(sheet, shape, picture, at);
    Ok(())
}
