// The range of a line's cells that are on the sheet: the first of them, and the first past them.
ghost use Rattle.std.specs.Prelude.{◌≡◌, ◌-◌, ◌≤◌, if◌then◌else◌};
ghost use Rattle.line.specs.Inner.Span.{FirstAt, Enters, Leaves};

use crate::Course;
use sheet::Sheet;

// Steps from m, up or down, to the first coordinate at an edge or beyond it: at the edge or above going up, below it going down.
fn steps_to(up: bool, m: u32, edge: u32) -> u32
    requires { 1 ≤ edge }
    ensures { result ≡ (if up then edge - m else m - (edge - 1)) }
{
    if up {
        edge.saturating_sub(m)
    } else {
        m.saturating_sub(edge - 1)
    }
}

// The first n at which the shorter extent has come k steps; l + 1 where none has.
fn least_n(k: u32, l: u32, s: u32) -> u32
    requires { (s ≤ l) × (l ≤ 32767) }
    ensures { FirstAt k l s result }
{
    if k < 1 {
        return 0;
    }
    if s < k {
        return l + 1;
    }
    let m = (2 * k - 1) * l;
    let d = 2 * s;
    (m + (d - 1)) / d
}

// The first n whose cell is not before the sheet along either axis, and the first past it along one: the greater of two bounds, and the
// lesser, each with a contract of its own.
pub(crate) fn first_n(sheet: &Sheet<'_>, course: Course) -> u32
    ensures { Enters sheet.now.shape course.path result }
{
    let shape = sheet.shape;
    let near = if course.path.right {
        65536
    } else {
        65536 + shape.width
    };
    let x = steps_to(course.path.right, course.path.x, near);
    let y = steps_to(true, course.path.y, 65536);
    let (along, across) = if course.path.steep { (y, x) } else { (x, y) };
    along.max(least_n(across, course.path.long, course.path.short))
}

pub(crate) fn past_n(sheet: &Sheet<'_>, course: Course) -> u32
    ensures { Leaves sheet.now.shape course.path result }
{
    let shape = sheet.shape;
    let far = if course.path.right {
        65536 + shape.width
    } else {
        65536
    };
    let x = steps_to(course.path.right, course.path.x, far);
    let y = steps_to(true, course.path.y, 65536 + shape.height);
    let (along, across) = if course.path.steep { (y, x) } else { (x, y) };
    along.min(least_n(across, course.path.long, course.path.short))
}
