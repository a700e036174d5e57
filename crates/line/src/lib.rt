// Lines: the drawing, the listing and the pen, all by one rule.
#![tactic(auto)]

ghost use Rattle.std.specs.Prelude.{◌≡◌, ◌+◌, ◌*◌, ◌≤◌, ◌&&◌};
ghost use Rattle.sheet.specs.Sheet.{within_limits};
ghost use Rattle.line.specs.Inner.Course.{stepped, spot_at, lesser_spot, path_between, IsMoved, Runs};
ghost use Rattle.line.specs.Rule.{rise};
ghost use Rattle.line.specs.Inner.Fixed.{gradient};

use sheet::{Cell, Spot};

mod draw;
mod listing;
mod pen;
mod range;

pub use draw::{draw_between, draw_line, draw_short};
pub use listing::list_line;
pub use pen::{Pen, advance};

// A line on the moved plane, from its lesser end: where it starts, whether it goes right, whether its longer extent is that of y, and both extents.
#[derive(Clone, Copy, Debug, PartialEq, Eq, Hash)]
struct Path {
    x: u32,
    y: u32,
    right: bool,
    steep: bool,
    long: u32,
    short: u32,
}

// A path that starts within the limits, and whose extents are those of a line between two cells within them.
#[derive(Clone, Copy, Debug, PartialEq, Eq, Hash)]
struct Course {
    path: Path,
    ghost runs: { Runs path },
}

// Whether both ends are within the limits.
fn in_limits(from: Cell, to: Cell) -> bool
    ensures { result ≡ (within_limits from && within_limits to) }
{
    sheet::in_limits(from) & sheet::in_limits(to)
}

// k steps from m.
fn stepped_by(up: bool, m: u32, k: u32) -> u32
    requires { (32768 ≤ m) × (m ≤ 131072) × (k ≤ 32768) }
    ensures { result ≡ stepped up m k }
{
    if up { m + k } else { m - k }
}

// What spots are ordered by: their rows, and in a row their columns.
fn order(spot: Spot) -> u64
    ensures { result ≡ 4294967296 * spot.y + spot.x }
{
    4294967296 * spot.y as u64 + spot.x as u64
}

fn is_lesser(a: Spot, b: Spot) -> bool
    ensures { result ≡ lesser_spot a b }
{
    order(a) <= order(b)
}

// The course of the line with these ends.
#[tactic(auto, unfolding(crate::specs::Inner::Course::path_between))]
fn course_of(a: Spot, b: Spot) -> Course
    requires { IsMoved a × IsMoved b }
    ensures { result.path ≡ path_between a b }
{
    let first = is_lesser(a, b);
    let x = if first { a.x } else { b.x };
    let end = if first { b.x } else { a.x };
    // Not `abs_diff`: a caller has found the greater and the lesser of each already.
    let wide = a.x.max(b.x) - a.x.min(b.x);
    let tall = a.y.max(b.y) - a.y.min(b.y);
    Course {
        path: Path {
            x,
            y: a.y.min(b.y),
            right: x <= end,
            steep: wide < tall,
            long: wide.max(tall),
            short: wide.min(tall),
        },
    }
}

// The nth spot of a course, q steps along the shorter extent.
#[tactic(auto, using(crate::proofs::Rise::rise_short), unfolding(crate::specs::Inner::Course::spot_at))]
fn spot_of(course: Course, n: u32, q: u32) -> Spot
    requires { (n ≤ course.path.long) × (q ≡ rise course.path.long course.path.short n) }
    ensures { result ≡ spot_at course.path n }
{
    let steep = course.path.steep;
    let across = if steep { q } else { n };
    let down = if steep { n } else { q };
    Spot {
        x: stepped_by(course.path.right, course.path.x, across),
        y: course.path.y + down,
    }
}

// The shorter extent over the longer, in parts of 2^32 (rounded down, and a little less, so that it fits).
#[tactic(auto, unfolding(crate::specs::Inner::Fixed::gradient))]
fn gradient_of(l: u32, s: u32) -> u32
    requires { (s ≤ l) × (l ≤ 32767) }
    ensures { result ≡ gradient l s }
{
    if l < 1 {
        return 0;
    }
    (s as u64 * 4294967295 / l as u64) as u32
}
