// Metres to cells: a survey, the cell of a float, and a figure in metres.
#![tactic(auto)]

ghost use Rattle.std.specs.Prelude.{◌≡◌, ◌+◌, ◌≤◌, nat_abs};
ghost use Rattle.std.specs.Float.{binary64};
ghost use Rattle.std.specs.Float.Ieee.{of_int};
ghost use Rattle.sheet.specs.declared.Figure.TheVariants as figure;
ghost use Rattle.survey.specs.Cell.{coordinate_from_least, found_cell};
ghost use Rattle.survey.specs.Metres.{found_coordinate, found_length, sound, are_semi_axes, within, in_cells};
ghost use Rattle.survey.specs.Metres.{eastward, northward, cell_in_cells};
ghost use Rattle.survey.specs.Inner.{Between};

use sheet::{Cell, Figure, Refusal};

/// A survey: the origins of x and y and the size of a cell, in metres.
#[derive(Clone, Copy, Debug, PartialEq)]
pub struct Survey {
    /// The origin of x: the position that cell 0 begins at.
    pub east: f64,
    /// The origin of y.
    pub north: f64,
    /// The size of a cell, above zero in a sound survey.
    pub size: f64,
}

/// A figure in metres, its fields in the order of its record.
#[derive(Clone, Copy, Debug, PartialEq)]
pub enum Metres {
    /// x0, y0, x1, y1
    Line(f64, f64, f64, f64),
    /// centre x, centre y, r
    Circle(f64, f64, f64),
    /// centre x, centre y, a, b
    Ellipse(f64, f64, f64, f64),
}

// The coordinate j places up from the least.
fn from_least(j: u32) -> i32
    requires { j ≤ 32768 }
    ensures { result ≡ coordinate_from_least j }
{
    j as i32 - 16384
}

// Its float.
fn edge(j: u32) -> f64
    requires { j ≤ 32768 }
    ensures { result ≡ of_int binary64 (coordinate_from_least j) }
{
    from_least(j) as f64
}

// The last edge that is not above q, by halving: the edges stand in no slice that std could search.
#[tactic(auto, using(crate::proofs::Search::below_edge))]
fn last_edge(q: f64) -> u32
    requires { Between 0 32768 q }
    ensures { Between result (result + 1) q }
{
    let mut low: u32 = 0;
    let mut high: u32 = 32768;
    while high - low > 1 {
        let middle = (low + high) / 2;
        let at = edge(middle);
        if at <= q {
            low = middle;
        } else {
            high = middle;
        }
    }
    low
}

/// The cell of q: the whole number k with k <= q and q < k + 1, from -16,384 to 16,383; `NoCell` where there is none, as for a
/// NaN or an infinity.
#[tactic(auto, using(crate::proofs::Cells::found_at, crate::proofs::Cells::found_low, crate::proofs::Cells::found_high))]
pub fn find_cell(q: f64) -> Result<i32, Refusal>
    ensures { result ≡ found_cell q }
{
    if edge(0) <= q && q < edge(32768) {
        Ok(from_least(last_edge(q)))
    } else {
        Err(Refusal::NoCell)
    }
}

/// The cell of a position along one axis, as `find_cell` tells it of the position less the origin, by the size of a cell.
pub fn find_coordinate(position: f64, origin: f64, size: f64) -> Result<i32, Refusal>
    ensures { result ≡ found_coordinate position origin size }
{
    find_cell((position - origin) / size)
}

/// The cells of a length, as `find_cell` tells them of the length by the size of a cell.
pub fn find_length(length: f64, size: f64) -> Result<i32, Refusal>
    ensures { result ≡ found_length length size }
{
    find_cell(length / size)
}

/// Whether both origins are finite, and the cell size is finite and above zero.
#[tactic(auto, unfolding(crate::specs::Metres::sound), using(crate::proofs::Origin::finite_is, crate::proofs::Origin::zero_is))]
pub fn sound(survey: Survey) -> bool
    ensures { result ≡ sound survey }
{
    survey.east.is_finite()
        & survey.north.is_finite()
        & survey.size.is_finite()
        & (0.0 < survey.size)
}

// Whether two lengths in cells, which may be below 0, are the semi-axes of an ellipse.
#[tactic(auto, unfolding(crate::specs::Metres::are_semi_axes))]
fn are_axes(a: i32, b: i32) -> bool
    ensures { result ≡ are_semi_axes a b }
{
    a >= 0 && b >= 0 && sheet::are_axes(a as u32, b as u32)
}

// The ellipse of a centre and two lengths in cells.
#[tactic(auto, unfolding(crate::specs::Metres::are_semi_axes))]
fn ellipse_of(centre: Cell, a: i32, b: i32) -> Result<Figure, Refusal>
    ensures { result ≡ within (are_semi_axes a b) (figure.Ellipse centre (nat_abs a) (nat_abs b)) }
{
    if !are_axes(a, b) {
        return Err(Refusal::Radius);
    }
    Ok(Figure::Ellipse(centre, a as u32, b as u32))
}

impl Survey {
    // The cell of a position.
    fn cell(self, x: f64, y: f64) -> Result<Cell, Refusal>
        ensures { result ≡ cell_in_cells (eastward self x) (northward self y) }
    {
        Ok(Cell {
            x: find_coordinate(x, self.east, self.size)?,
            y: find_coordinate(y, self.north, self.size)?,
        })
    }
}

/// A figure in metres as one in cells: x with the east origin and y with the north; a circle as the ellipse of equal axes. Refused
/// with `Survey` for a survey that is not sound, with `NoCell` for a field that has no cell, with `Radius` for lengths that are no
/// semi-axes.
#[tactic(auto, unfolding(crate::specs::Metres::in_cells))]
pub fn to_cells(survey: Survey, figure: Metres) -> Result<Figure, Refusal>
    ensures { result ≡ in_cells survey figure }
{
    if !sound(survey) {
        return Err(Refusal::Survey);
    }
    match figure {
        Metres::Line(x0, y0, x1, y1) => {
            Ok(Figure::Line(survey.cell(x0, y0)?, survey.cell(x1, y1)?))
        }
        Metres::Circle(x, y, r) => {
            let centre = survey.cell(x, y)?;
            let r = find_length(r, survey.size)?;
            ellipse_of(centre, r, r)
        }
        Metres::Ellipse(x, y, a, b) => {
            let centre = survey.cell(x, y)?;
            let a = find_length(a, survey.size)?;
            let b = find_length(b, survey.size)?;
            ellipse_of(centre, a, b)
        }
    }
}
