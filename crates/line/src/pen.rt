// The pen: asked again and again, it answers the cells of the listing one by one.
ghost use Rattle.std.specs.Prelude.{◌≡◌, ◌-◌, ◌≤◌, if◌then◌else◌};
ghost use Rattle.sheet.specs.Inner.{lowered_cell};
ghost use Rattle.line.specs.Rule.{rise};
ghost use Rattle.line.specs.Inner.Course.{spot_at};
ghost use Rattle.sheet.specs.Reply.{told, told_next};
ghost use Rattle.line.specs.Pen.{pen_answer, step_answer, cell_answer, begin_answer, next_answer, ask_answer, left};

use crate::{Course, course_of, in_limits, is_lesser, spot_of};
use sheet::{Cell, Refusal, lift_cell, lower_cell};

/// The two ends, from the first named to the second, and how many cells were answered; to C five numbers.
#[repr(C)]
#[derive(Clone, Copy, Debug, PartialEq, Eq, Hash)]
pub struct Pen {
    pub from: Cell,
    pub to: Cell,
    pub told: u32,
}

// The steps along the shorter extent s after n along the longer extent l.
#[tactic(auto, unfolding(crate::specs::Rule::rise))]
fn rise_of(l: u32, s: u32, n: u32) -> u32
    requires { (s ≤ l) × (l ≤ 32767) × (n ≤ l) }
    ensures { result ≡ rise l s n }
{
    if l < 1 {
        return 0;
    }
    (2 * (n * s) + l) / (2 * l)
}

// The nth cell of a course, counted forward from its lesser end or back from the other.
fn cell_at(course: Course, forward: bool, n: u32) -> Cell
    requires { n ≤ course.path.long }
    ensures { result ≡ lowered_cell (spot_at course.path (if forward then n else course.path.long - n)) }
{
    let m = if forward { n } else { course.path.long - n };
    lower_cell(spot_of(course, m, rise_of(course.path.long, course.path.short, m)))
}

impl Pen {
    /// The limits of a coordinate of its ends.
    pub const LEAST: i32 = Cell::LEAST;

    pub const MOST: i32 = Cell::MOST;

    /// A pen that has answered no cell.
    #[tactic(auto, unfolding(crate::specs::Pen::begin_answer))]
    pub fn begin(from: Cell, to: Cell) -> Result<Pen, Refusal>
        ensures { told pen_answer result ≡ begin_answer from to }
    {
        if !in_limits(from, to) {
            return Err(Refusal::Coordinate);
        }
        Ok(Pen { from, to, told: 0 })
    }

    /// The next cell of the listing and the pen moved on, or finished.
    pub fn next(self) -> Option<(Cell, Pen)>
        ensures { told_next step_answer result ≡ next_answer self }
    {
        let Pen { from, to, told } = self;
        if !in_limits(from, to) {
            return None;
        }
        let a = lift_cell(from);
        let b = lift_cell(to);
        let course = course_of(a, b);
        if course.path.long < told {
            return None;
        }
        let cell = cell_at(course, is_lesser(a, b), told);
        Some((
            cell,
            Pen {
                told: told + 1,
                ..self
            },
        ))
    }
}

/// The next cell of a pen that is lent, which is left standing one cell further; or finished.
pub fn advance(pen: &mut Pen) -> Option<Cell>
    ensures cell { told_next cell_answer result ≡ ask_answer pen.old }
    ensures pen { pen.new ≡ left pen.old }
{
    let (cell, moved) = Pen::next(*pen)?;
    *pen = moved;
    Some(cell)
}

// It is an iterator, too: it gives the cells that it has left.
impl Iterator for Pen {
    type Item = Cell;

    ghost use Rattle.std.specs.Iterator.{YieldsFirst, item_count};
    ghost use Rattle.line.specs.Pen.{cells_left};

    ghost next_gives = { YieldsFirst cells_left };

    ghost remaining = { item_count cells_left };

    #[tactic(auto, using(crate::proofs::Yields::yields))]
    fn next(&mut self) -> Option<Cell> {
        advance(self)
    }
}
