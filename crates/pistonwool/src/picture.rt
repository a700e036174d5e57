// Pictures: a sheet written as raw PBM, and one read onto a sheet.
ghost use Rattle.sheet.specs.Drawing.{Paints};
ghost use Rattle.pbm.specs.Picture.{Writes};
ghost use Rattle.pbm.specs.Reading.{read_drawing};
ghost use Rattle.pistonwool.specs.Told.{shape_of, numbered, counted, Keeps};

use crate::{number_of, tell_bytes};
use sheet::Shape;

/// Writes a sheet as a picture; the picture's byte count goes to bytes, unless it is refused.
#[unsafe(no_mangle)]
pub extern "C" fn pw_write_pbm(
    sheet: &[u8],
    width: u32,
    height: u32,
    pitch: u32,
    picture: &mut [u8],
    bytes: &mut u64,
) -> u32
    ensures writes { Writes (shape_of width height pitch) sheet.now
        picture.old (counted result bytes.new) picture.new }
    ensures keeps { Keeps result bytes.old bytes.new }
{
    let shape = Shape {
        width,
        height,
        pitch,
    };
    let written = pbm::write(sheet, shape, picture);
    tell_bytes(written, bytes)
}

/// Reads a picture onto a sheet of its size.
#[unsafe(no_mangle)]
pub extern "C" fn pw_read_pbm(
    sheet: &mut [u8],
    width: u32,
    height: u32,
    pitch: u32,
    picture: &[u8],
) -> u32
    ensures { Paints (read_drawing (shape_of width height pitch) picture.now)
        sheet.old (numbered result) sheet.new }
{
    let shape = Shape {
        width,
        height,
        pitch,
    };
    number_of(pbm::read(sheet, shape, picture))
}
