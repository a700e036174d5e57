// A figure in metres: drawn as the figure in cells.
ghost use Rattle.sheet.specs.Reply.{told, drawn_answer};
ghost use Rattle.sheet.specs.Drawing.{Draws};
ghost use Rattle.drawing.specs.Metres.{metres_drawing};

use crate::figure::draw_figure;
use sheet::{Drawn, Refusal, Shape};
use survey::{Metres, Survey};

/// Draws the figure: first the sheet is tested, then the survey, then each field.
pub fn draw_metres(
    sheet: &mut [u8],
    shape: Shape,
    ink: u8,
    survey: Survey,
    figure: Metres,
) -> Result<Drawn, Refusal>
    ensures { Draws (metres_drawing shape ink survey figure) sheet.old (told drawn_answer result) sheet.new }
{
    shape.check(sheet.len())?;
    let figure = survey::to_cells(survey, figure)?;
    draw_figure(sheet, shape, ink, figure)
}
