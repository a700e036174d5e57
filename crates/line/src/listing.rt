// Listing a line's cells into two lent lists: each coordinate is a running sum in parts of 2^32, from the first named end.
ghost use Rattle.std.specs.Prelude.{◌≡◌, ◌+◌, ◌<◌, ◌≤◌, ◌&&◌, length, nat_le};
ghost use Rattle.sheet.specs.Reply.{told, count_answer};
ghost use Rattle.line.specs.Listing.{ListsInto};
ghost use Rattle.line.specs.Inner.Fixed.{gone};
ghost use Rattle.line.specs.Inner.Along.{over, reached, ith_along, Bounded, course_cell};

use crate::{Course, course_of, gradient_of, in_limits, is_lesser};
use sheet::{Cell, Refusal};

// The coordinate n steps of f from m.
fn reached_at(up: bool, m: u32, l: u32, f: u64, n: u32) -> u64
    requires { Bounded m l f × (n ≤ l) }
    ensures { result ≡ reached up m (gone l f n) }
{
    let steps = n as u64 * f + (2147483648 + 2 * l as u64);
    let start = m as u64 * 4294967296;
    if up {
        start + steps
    } else {
        start + 4294967295 - steps
    }
}

// Lists one coordinate of each cell, f parts from the one to the next.
fn list_along(list: &mut [i32], first: bool, up: bool, m: u32, l: u32, f: u64)
    requires { Bounded m l f × (l < length list.old) }
    ensures { list.new ≡ over (ith_along first up m l f) (l + 1) list.old }
{
    let gains = if up == first { f } else { 0 };
    let loses = f - gains;
    let mut t = reached_at(up, m, l, f, if first { 0 } else { l });
    for i in 0..l as usize + 1 {
        list[i] = (t / 4294967296) as i32 - 65536;
        t = t + gains - loses;
    }
}

// Lists the cells of a course from its lesser end, or from the other.
fn list_course(xs: &mut [i32], ys: &mut [i32], course: Course, first: bool)
    requires { (course.path.long < length xs.old) × (course.path.long < length ys.old) }
    ensures { (xs.new ≡ over (λ i. (course_cell first course.path i).x) (course.path.long + 1) xs.old)
        × (ys.new ≡ over (λ i. (course_cell first course.path i).y) (course.path.long + 1) ys.old) }
{
    let long = course.path.long;
    let f = gradient_of(long, course.path.short) as u64;
    let one = 4294967296;
    let (across, down) = if course.path.steep {
        (f, one)
    } else {
        (one, f)
    };
    list_along(xs, first, course.path.right, course.path.x, long, across);
    list_along(ys, first, true, course.path.y, long, down);
}

// Whether lists of n and m places have one for each of l + 1 cells.
fn has_room(l: u32, n: usize, m: usize) -> bool
    ensures { result ≡ (nat_le (l + 1) n && nat_le (l + 1) m) }
{
    let cells = l as usize + 1;
    (cells <= n) & (cells <= m)
}

/// Lists the cells of a line from its first named end to its second: x into one list, y into the other.
pub fn list_line(xs: &mut [i32], ys: &mut [i32], from: Cell, to: Cell) -> Result<usize, Refusal>
    ensures { ListsInto from to xs.old ys.old (told count_answer result) xs.new ys.new }
{
    if !in_limits(from, to) {
        return Err(Refusal::Coordinate);
    }
    let a = sheet::lift_cell(from);
    let b = sheet::lift_cell(to);
    let course = course_of(a, b);
    let long = course.path.long;
    if !has_room(long, xs.len(), ys.len()) {
        return Err(Refusal::Room);
    }
    list_course(xs, ys, course, is_lesser(a, b));
    Ok(long as usize + 1)
}
