// A territory.
ghost use Rattle.std.specs.Prelude.{length};
ghost use Rattle.sheet.specs.Sheet.{cell};
ghost use Rattle.fill.specs.Fill.{Fills, Spares};
ghost use Rattle.pistonwool.specs.Told.{shape_of, counted, Keeps};

use crate::tell_cells;
use sheet::{Cell, Shape};

/// Fills the territory of a cell; its number of cells goes to cells, unless it is refused.
#[unsafe(no_mangle)]
pub extern "C" fn pw_fill(
    sheet: &mut [u8],
    width: u32,
    height: u32,
    pitch: u32,
    x: i32,
    y: i32,
    boundary: u8,
    territory: u8,
    work: &mut [u32],
    cells: &mut u32,
) -> u32
    ensures fills { Fills (shape_of width height pitch) (cell x y) boundary territory (length work.old)
        sheet.old (counted result cells.new) sheet.new }
    ensures keeps { Keeps result cells.old cells.new }
    ensures spares { Spares (counted result cells.new) work.old work.new }
{
    let shape = Shape {
        width,
        height,
        pitch,
    };
    let start = Cell { x, y };
    let filled = fill::fill(sheet, shape, start, boundary, territory, work);
    tell_cells(filled, cells)
}
