// What to repaint: the smallest rectangle that holds the cells a drawing sets.
ghost use Rattle.std.specs.Prelude.{◌≡◌};
ghost use Rattle.sheet.specs.Repaint.{nothing, join};
ghost use Rattle.sheet.specs.Inner.{unmoved_cell, joined_at};

use crate::{Shape, Spot};

/// A rectangle of cells: the columns from left to before right, and the rows from top to before bottom. One that holds no cell is
/// from 4,096, which no sheet has, to 0.
#[derive(Clone, Copy, Debug, PartialEq, Eq, Hash)]
pub struct Rectangle {
    pub left: u32,
    pub top: u32,
    pub right: u32,
    pub bottom: u32,
}

impl Rectangle {
    /// That of no cell.
    pub fn none() -> Rectangle
        ensures { result ≡ nothing }
    {
        Rectangle {
            left: 4096,
            top: 4096,
            right: 0,
            bottom: 0,
        }
    }

    /// The smallest that holds both.
    #[tactic(auto, unfolding(crate::specs::Repaint::join))]
    pub fn join(self, other: Rectangle) -> Rectangle
        ensures { result ≡ join self other }
    {
        Rectangle {
            left: self.left.min(other.left),
            top: self.top.min(other.top),
            right: self.right.max(other.right),
            bottom: self.bottom.max(other.bottom),
        }
    }
}

/// The rectangle with the cell at the spot in it, where that is on the sheet; any other is skipped.
#[tactic(auto, unfolding(crate::specs::Inner::joined_at, crate::specs::Sheet::on_sheet))]
pub fn join_at(shape: Shape, spot: Spot, rectangle: Rectangle) -> Rectangle
    ensures { result ≡ joined_at shape (unmoved_cell spot) rectangle }
{
    let x = spot.x;
    let y = spot.y;
    let width = shape.width;
    let height = shape.height;
    if x < 65536 {
        return rectangle;
    }
    if y < 65536 {
        return rectangle;
    }
    let column = x - 65536;
    let row = y - 65536;
    if width <= column {
        return rectangle;
    }
    if height <= row {
        return rectangle;
    }
    rectangle.join(Rectangle {
        left: column,
        top: row,
        right: column + 1,
        bottom: row + 1,
    })
}
