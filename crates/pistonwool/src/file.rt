// A whole file.
ghost use Rattle.drawing.specs.File.{file_drawing};
ghost use Rattle.pistonwool.specs.Told.{shape_of, replied, DrawsInto};

use crate::tell_file;
use sheet::Shape;

/// Draws a file; its number of records goes to value, or the offset of what is refused.
#[unsafe(no_mangle)]
pub extern "C" fn pw_file(
    sheet: &mut [u8],
    width: u32,
    height: u32,
    pitch: u32,
    file: &[u8],
    value: &mut u64,
    told: &mut [u32; 4],
) -> u32
    ensures { DrawsInto (file_drawing (shape_of width height pitch) file.now)
        sheet.old (replied result value.new) sheet.new told.old told.new }
{
    let shape = Shape {
        width,
        height,
        pitch,
    };
    let drawn = drawing::draw_file(sheet, shape, file);
    tell_file(drawn, value, told)
}
