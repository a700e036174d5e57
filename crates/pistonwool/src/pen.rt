// The pen: lent by the caller, begun from two ends, and asked for one cell after another.
ghost use Rattle.std.specs.Prelude.{◌≡◌, cond};
ghost use Rattle.sheet.specs.Reply.{settled};
ghost use Rattle.line.specs.Pen.{begin_answer, fresh, has_cell, next_cell, left};
ghost use Rattle.sheet.specs.Sheet.{cell};

use line::Pen;
use sheet::Cell;

/// Begins a pen, unless it is refused.
#[unsafe(no_mangle)]
pub extern "C" fn pw_pen_begin(pen: &mut Pen, x0: i32, y0: i32, x1: i32, y1: i32) -> u32
    ensures number { result ≡ (begin_answer (cell x0 y0) (cell x1 y1)).number }
    ensures pen { pen.new ≡ settled (begin_answer (cell x0 y0) (cell x1 y1)) (fresh (cell x0 y0) (cell x1 y1)) pen.old }
{
    let from = Cell { x: x0, y: y0 };
    let to = Cell { x: x1, y: y1 };
    match Pen::begin(from, to) {
        Ok(begun) => {
            *pen = begun;
            0
        }
        Err(refusal) => refusal.number(),
    }
}

/// Asks a pen for its next cell, which goes to x and y: 1 and the pen one further, or 0 for finished.
#[unsafe(no_mangle)]
pub extern "C" fn pw_pen_next(pen: &mut Pen, x: &mut i32, y: &mut i32) -> u32
    ensures number { result ≡ cond (has_cell pen.old) 1 0 }
    ensures pen { pen.new ≡ left pen.old }
    ensures x { x.new ≡ cond (has_cell pen.old) (next_cell pen.old).x x.old }
    ensures y { y.new ≡ cond (has_cell pen.old) (next_cell pen.old).y y.old }
{
    match line::advance(pen) {
        Some(cell) => {
            *x = cell.x;
            *y = cell.y;
            1
        }
        None => 0,
    }
}
