// The tally for each row: counted afresh, and kept beside the sheet by each drawing and by the fill.
ghost use Rattle.std.specs.Prelude.{◌≡◌, [], ◌∷◌, length};
ghost use Rattle.sheet.specs.Sheet.{cell};
ghost use Rattle.line.specs.Draw.{line_drawing};
ghost use Rattle.ring.specs.Draw.{ellipse_drawing};
ghost use Rattle.curve.specs.Draw.{curve_drawing};
ghost use Rattle.survey.specs.declared.Metres.TheVariants as metres;
ghost use Rattle.fill.specs.Fill.{FillsAs, Spares};
ghost use Rattle.drawing.specs.File.{file_form, file_drawing};
ghost use Rattle.drawing.specs.Metres.{metres_drawing};
ghost use Rattle.tally.specs.Tally.{recounted, Counts, beside, plain};
ghost use Rattle.pistonwool.specs.Told.{shape_of, survey_of, numbered, counted, replied, Keeps, DrawsInto};

use crate::{number_of, tell, tell_cells, tell_counted, tell_file};
use sheet::{Cell, Figure, Shape};
use survey::{Metres, Survey};

/// Counts the sheet afresh.
#[unsafe(no_mangle)]
pub extern "C" fn pw_tally(
    sheet: &[u8],
    width: u32,
    height: u32,
    pitch: u32,
    rows: &mut [u32],
) -> u32
    ensures { Counts (shape_of width height pitch) sheet.now rows.old (numbered result) rows.new }
{
    let shape = Shape {
        width,
        height,
        pitch,
    };
    number_of(tally::count(sheet, shape, rows))
}

/// Draws a line.
#[unsafe(no_mangle)]
pub extern "C" fn pw_line_tallied(
    sheet: &mut [u8],
    width: u32,
    height: u32,
    pitch: u32,
    rows: &mut [u32],
    ink: u8,
    x0: i32,
    y0: i32,
    x1: i32,
    y1: i32,
    cells: &mut u32,
    told: &mut [u32; 4],
) -> u32
    ensures draws_into { DrawsInto (beside plain sheet.old rows.old
        (line_drawing (shape_of width height pitch) ink (cell x0 y0) (cell x1 y1)))
        sheet.old (counted result cells.new) sheet.new told.old told.new }
    ensures keeps { Keeps result cells.old cells.new }
    ensures rows_after { rows.new ≡ recounted (shape_of width height pitch) (numbered result) sheet.new rows.old }
{
    let shape = Shape {
        width,
        height,
        pitch,
    };
    let from = Cell { x: x0, y: y0 };
    let to = Cell { x: x1, y: y1 };
    let drawn = tally::draw_figure(sheet, shape, rows, ink, Figure::Line(from, to));
    tell_counted(drawn, cells, told)
}

/// Draws an ellipse, or a circle.
#[unsafe(no_mangle)]
pub extern "C" fn pw_ellipse_tallied(
    sheet: &mut [u8],
    width: u32,
    height: u32,
    pitch: u32,
    rows: &mut [u32],
    ink: u8,
    x: i32,
    y: i32,
    a: u32,
    b: u32,
    told: &mut [u32; 4],
) -> u32
    ensures draws_into { DrawsInto (beside plain sheet.old rows.old
        (ellipse_drawing (shape_of width height pitch) ink (cell x y) a b))
        sheet.old (numbered result) sheet.new told.old told.new }
    ensures rows_after { rows.new ≡ recounted (shape_of width height pitch) (numbered result) sheet.new rows.old }
{
    let shape = Shape {
        width,
        height,
        pitch,
    };
    let centre = Cell { x, y };
    let drawn = tally::draw_figure(sheet, shape, rows, ink, Figure::Ellipse(centre, a, b));
    tell(drawn, told)
}

/// Draws a quadratic curve in 2^s pieces.
#[unsafe(no_mangle)]
pub extern "C" fn pw_curve_tallied(
    sheet: &mut [u8],
    width: u32,
    height: u32,
    pitch: u32,
    rows: &mut [u32],
    ink: u8,
    x0: i32,
    y0: i32,
    x1: i32,
    y1: i32,
    x2: i32,
    y2: i32,
    s: u32,
    told: &mut [u32; 4],
) -> u32
    ensures draws_into { DrawsInto (beside plain sheet.old rows.old
        (curve_drawing (shape_of width height pitch) ink (cell x0 y0 ∷ cell x1 y1 ∷ cell x2 y2 ∷ []) s))
        sheet.old (numbered result) sheet.new told.old told.new }
    ensures rows_after { rows.new ≡ recounted (shape_of width height pitch) (numbered result) sheet.new rows.old }
{
    let shape = Shape {
        width,
        height,
        pitch,
    };
    let p0 = Cell { x: x0, y: y0 };
    let p1 = Cell { x: x1, y: y1 };
    let p2 = Cell { x: x2, y: y2 };
    let drawn = tally::draw_figure(sheet, shape, rows, ink, Figure::Curve(p0, p1, p2, s));
    tell(drawn, told)
}

/// Draws a cubic curve in 2^s pieces.
#[unsafe(no_mangle)]
pub extern "C" fn pw_cubic_tallied(
    sheet: &mut [u8],
    width: u32,
    height: u32,
    pitch: u32,
    rows: &mut [u32],
    ink: u8,
    x0: i32,
    y0: i32,
    x1: i32,
    y1: i32,
    x2: i32,
    y2: i32,
    x3: i32,
    y3: i32,
    s: u32,
    told: &mut [u32; 4],
) -> u32
    ensures draws_into { DrawsInto (beside plain sheet.old rows.old
        (curve_drawing (shape_of width height pitch) ink (cell x0 y0 ∷ cell x1 y1 ∷ cell x2 y2 ∷ cell x3 y3 ∷ []) s))
        sheet.old (numbered result) sheet.new told.old told.new }
    ensures rows_after { rows.new ≡ recounted (shape_of width height pitch) (numbered result) sheet.new rows.old }
{
    let shape = Shape {
        width,
        height,
        pitch,
    };
    let p0 = Cell { x: x0, y: y0 };
    let p1 = Cell { x: x1, y: y1 };
    let p2 = Cell { x: x2, y: y2 };
    let p3 = Cell { x: x3, y: y3 };
    let drawn = tally::draw_figure(sheet, shape, rows, ink, Figure::Cubic(p0, p1, p2, p3, s));
    tell(drawn, told)
}

/// Draws a file.
#[unsafe(no_mangle)]
pub extern "C" fn pw_file_tallied(
    sheet: &mut [u8],
    width: u32,
    height: u32,
    pitch: u32,
    rows: &mut [u32],
    file: &[u8],
    value: &mut u64,
    told: &mut [u32; 4],
) -> u32
    ensures draws_into { DrawsInto (beside file_form sheet.old rows.old
        (file_drawing (shape_of width height pitch) file.now))
        sheet.old (replied result value.new) sheet.new told.old told.new }
    ensures rows_after { rows.new ≡ recounted (shape_of width height pitch) (numbered result) sheet.new rows.old }
{
    let shape = Shape {
        width,
        height,
        pitch,
    };
    let drawn = tally::draw_file(sheet, shape, rows, file);
    tell_file(drawn, value, told)
}

/// Draws a line in metres.
#[unsafe(no_mangle)]
pub extern "C" fn pw_line_metres_tallied(
    sheet: &mut [u8],
    width: u32,
    height: u32,
    pitch: u32,
    rows: &mut [u32],
    ink: u8,
    east: f64,
    north: f64,
    size: f64,
    x0: f64,
    y0: f64,
    x1: f64,
    y1: f64,
    cells: &mut u32,
    told: &mut [u32; 4],
) -> u32
    ensures draws_into { DrawsInto (beside plain sheet.old rows.old
        (metres_drawing (shape_of width height pitch) ink (survey_of east north size) (metres.Line x0 y0 x1 y1)))
        sheet.old (counted result cells.new) sheet.new told.old told.new }
    ensures keeps { Keeps result cells.old cells.new }
    ensures rows_after { rows.new ≡ recounted (shape_of width height pitch) (numbered result) sheet.new rows.old }
{
    let shape = Shape {
        width,
        height,
        pitch,
    };
    let survey = Survey { east, north, size };
    let figure = Metres::Line(x0, y0, x1, y1);
    let drawn = tally::draw_metres(sheet, shape, rows, ink, survey, figure);
    tell_counted(drawn, cells, told)
}

/// Draws an ellipse in metres.
#[unsafe(no_mangle)]
pub extern "C" fn pw_ellipse_metres_tallied(
    sheet: &mut [u8],
    width: u32,
    height: u32,
    pitch: u32,
    rows: &mut [u32],
    ink: u8,
    east: f64,
    north: f64,
    size: f64,
    x: f64,
    y: f64,
    a: f64,
    b: f64,
    told: &mut [u32; 4],
) -> u32
    ensures draws_into { DrawsInto (beside plain sheet.old rows.old
        (metres_drawing (shape_of width height pitch) ink (survey_of east north size) (metres.Ellipse x y a b)))
        sheet.old (numbered result) sheet.new told.old told.new }
    ensures rows_after { rows.new ≡ recounted (shape_of width height pitch) (numbered result) sheet.new rows.old }
{
    let shape = Shape {
        width,
        height,
        pitch,
    };
    let survey = Survey { east, north, size };
    let figure = Metres::Ellipse(x, y, a, b);
    let drawn = tally::draw_metres(sheet, shape, rows, ink, survey, figure);
    tell(drawn, told)
}

/// Fills a territory.
#[unsafe(no_mangle)]
pub extern "C" fn pw_fill_tallied(
    sheet: &mut [u8],
    width: u32,
    height: u32,
    pitch: u32,
    rows: &mut [u32],
    x: i32,
    y: i32,
    boundary: u8,
    territory: u8,
    work: &mut [u32],
    cells: &mut u32,
) -> u32
    ensures fills_as { FillsAs (beside plain sheet.old rows.old) (shape_of width height pitch) (cell x y) boundary territory
        (length work.old) sheet.old (counted result cells.new) sheet.new }
    ensures keeps { Keeps result cells.old cells.new }
    ensures spares { Spares (counted result cells.new) work.old work.new }
    ensures rows_after { rows.new ≡ recounted (shape_of width height pitch) (numbered result) sheet.new rows.old }
{
    let shape = Shape {
        width,
        height,
        pitch,
    };
    let start = Cell { x, y };
    let filled = tally::fill(sheet, shape, rows, start, boundary, territory, work);
    tell_cells(filled, cells)
}
