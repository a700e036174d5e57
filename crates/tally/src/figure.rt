// Figures beside a list: it is tested, they are drawn, and the rows of the rectangle are counted again. Each drawing beside a list
// is these three steps about its own: one function that took the drawing as a closure would be no plainer, since its contract would
// have to speak of any drawing's own contract, and of what a refusal of the list becomes in a file.
ghost use Rattle.std.specs.Prelude.{◌≡◌};
ghost use Rattle.sheet.specs.Reply.{told, drawn_answer};
ghost use Rattle.sheet.specs.Drawing.{Draws};
ghost use Rattle.drawing.specs.Figure.{figure_drawing};
ghost use Rattle.drawing.specs.Metres.{metres_drawing};
ghost use Rattle.tally.specs.Tally.{recounted, beside, plain};

use crate::list::{check, count_rows};
use sheet::{Drawn, Figure, Refusal, Shape};
use survey::{Metres, Survey};

/// Draws a figure of any kind.
pub fn draw_figure(
    sheet: &mut [u8],
    shape: Shape,
    rows: &mut [u32],
    ink: u8,
    figure: Figure,
) -> Result<Drawn, Refusal>
    ensures draws { Draws (beside plain sheet.old rows.old (figure_drawing shape ink figure))
        sheet.old (told drawn_answer result) sheet.new }
    ensures rows_after { rows.new ≡ recounted shape (told drawn_answer result) sheet.new rows.old }
{
    check(sheet, shape, rows)?;
    let drawn = drawing::draw_figure(sheet, shape, ink, figure)?;
    let set = drawn.rectangle;
    count_rows(sheet, shape, rows, set.top, set.bottom);
    Ok(drawn)
}

/// Draws a figure in metres.
pub fn draw_metres(
    sheet: &mut [u8],
    shape: Shape,
    rows: &mut [u32],
    ink: u8,
    survey: Survey,
    figure: Metres,
) -> Result<Drawn, Refusal>
    ensures draws { Draws (beside plain sheet.old rows.old (metres_drawing shape ink survey figure))
        sheet.old (told drawn_answer result) sheet.new }
    ensures rows_after { rows.new ≡ recounted shape (told drawn_answer result) sheet.new rows.old }
{
    check(sheet, shape, rows)?;
    let drawn = drawing::draw_metres(sheet, shape, ink, survey, figure)?;
    let set = drawn.rectangle;
    count_rows(sheet, shape, rows, set.top, set.bottom);
    Ok(drawn)
}
