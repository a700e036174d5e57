// A figure of any kind, drawn by the drawing of its kind; a circle as the ellipse of equal axes.
ghost use Rattle.sheet.specs.Reply.{told, drawn_answer};
ghost use Rattle.sheet.specs.Drawing.{Draws};
ghost use Rattle.drawing.specs.Figure.{figure_drawing};

use sheet::{Drawn, Figure, Refusal, Shape};

/// Draws a figure of any kind, and refuses as the drawing of its kind does. Only a line tells a count: its cells on the sheet.
pub fn draw_figure(
    sheet: &mut [u8],
    shape: Shape,
    ink: u8,
    figure: Figure,
) -> Result<Drawn, Refusal>
    ensures { Draws (figure_drawing shape ink figure) sheet.old (told drawn_answer result) sheet.new }
{
    match figure {
        Figure::Line(a, b) => line::draw_line(sheet, shape, ink, a, b),
        Figure::Circle(centre, r) => ring::draw_ellipse(sheet, shape, ink, centre, r, r),
        Figure::Ellipse(centre, a, b) => ring::draw_ellipse(sheet, shape, ink, centre, a, b),
        Figure::Curve(p0, p1, p2, s) => curve::draw_curve(sheet, shape, ink, p0, p1, p2, s),
        Figure::Cubic(p0, p1, p2, p3, s) => {
            curve::draw_cubic(sheet, shape, ink, p0, p1, p2, p3, s)
        }
    }
}
