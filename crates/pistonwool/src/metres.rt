// Figures in metres.
ghost use Rattle.survey.specs.declared.Metres.TheVariants as metres;
ghost use Rattle.drawing.specs.Metres.{metres_drawing};
ghost use Rattle.pistonwool.specs.Told.{shape_of, survey_of, numbered, counted, Keeps, DrawsInto};

use crate::{tell, tell_counted};
use sheet::Shape;
use survey::{Metres, Survey};

/// Draws a line; its number of cells on the sheet goes to cells, unless it is refused.
#[unsafe(no_mangle)]
pub extern "C" fn pw_line_metres(
    sheet: &mut [u8],
    width: u32,
    height: u32,
    pitch: u32,
    ink: u8,
    east: f64,
    north: f64,
    size: f64,
    x0: f64,
    y0: f64,
    x1: f64,
    y1: f64,
    cells: &mut u32,
    told: &mut [u32; 4],
) -> u32
    ensures draws_into { DrawsInto (metres_drawing (shape_of width height pitch) ink (survey_of east north size) (metres.Line x0 y0 x1 y1))
        sheet.old (counted result cells.new) sheet.new told.old told.new }
    ensures keeps { Keeps result cells.old cells.new }
{
    let shape = Shape {
        width,
        height,
        pitch,
    };
    let survey = Survey { east, north, size };
    let figure = Metres::Line(x0, y0, x1, y1);
    let drawn = drawing::draw_metres(sheet, shape, ink, survey, figure);
    tell_counted(drawn, cells, told)
}

/// Draws an ellipse; a circle as in cells.
#[unsafe(no_mangle)]
pub extern "C" fn pw_ellipse_metres(
    sheet: &mut [u8],
    width: u32,
    height: u32,
    pitch: u32,
    ink: u8,
    east: f64,
    north: f64,
    size: f64,
    x: f64,
    y: f64,
    a: f64,
    b: f64,
    told: &mut [u32; 4],
) -> u32
    ensures { DrawsInto (metres_drawing (shape_of width height pitch) ink (survey_of east north size) (metres.Ellipse x y a b))
        sheet.old (numbered result) sheet.new told.old told.new }
{
    let shape = Shape {
        width,
        height,
        pitch,
    };
    let survey = Survey { east, north, size };
    let figure = Metres::Ellipse(x, y, a, b);
    let drawn = drawing::draw_metres(sheet, shape, ink, survey, figure);
    tell(drawn, told)
}
