// Bézier curves of three or four control points: the points of each by their differences, and the lines that join them.
#![tactic(auto)]

ghost use Rattle.std.specs.Prelude.{◌≡◌, ◌+◌, ◌/◌, ◌^◌, ◌<◌, ◌≤◌, true, ◌&&◌, [], ◌∷◌, nat_le};
ghost use Rattle.std.specs.List.{list_all};
ghost use Rattle.sheet.specs.Sheet.{within_limits, paint};
ghost use Rattle.sheet.specs.Repaint.{box_of};
ghost use Rattle.sheet.specs.Reply.{told, drawn_answer};
ghost use Rattle.sheet.specs.Drawing.{Draws};
ghost use Rattle.sheet.specs.Inner.{Moved, Sheet, unmoved, unmoved_cell};
ghost use Rattle.line.specs.Rule.{on_line};
ghost use Rattle.curve.specs.Rule.{on_curve};
ghost use Rattle.curve.specs.Draw.{all_within_limits, curve_drawing};
ghost use Rattle.curve.specs.Inner.{ThreeOrFour, changes_at, Little, Small, Walks, next_walk, Follows, next_way, Leads, Divides, spot_of_way, Adds};

use sheet::{Cell, Drawn, Rectangle, Refusal, Shape, Spot};

// A sum of so many times i, i² and i³.
#[derive(Clone, Copy, Debug, PartialEq, Eq, Hash)]
struct Powers {
    one: u64,
    two: u64,
    three: u64,
}

// One moved coordinate along a curve, not yet divided: what it is at 0, and what it has gained and lost at i.
#[derive(Clone, Copy, Debug, PartialEq, Eq, Hash)]
struct Terms {
    start: u64,
    gains: Powers,
    losses: Powers,
}

// The same at some i, and its differences there, modulo 2^64.
#[derive(Clone, Copy, Debug, PartialEq, Eq, Hash)]
struct Walk {
    value: u64,
    first: u64,
    second: u64,
    third: u64,
}

// Both coordinates, and the shift that divides them.
#[derive(Clone, Copy, Debug, PartialEq, Eq, Hash)]
struct Way {
    x: Walk,
    y: Walk,
    shift: u32,
}

// How many pieces a curve is split into.
#[tactic(auto, using(crate::proofs::Fits::pieces_is, crate::proofs::Fits::pieces_low))]
fn pieces(s: u32) -> u32
    requires { s ≤ 6 }
    ensures { (result ≡ 2 ^ s) × (result ≤ 64) }
{
    1 << s
}

// How much a sum grows from 0 to 1, how much that growth does, and how much that one's.
#[tactic(auto, unfolding(crate::specs::Inner::changes_at))]
fn changes(sum: Powers) -> Powers
    requires { Little sum }
    ensures { result ≡ changes_at sum 0 }
{
    let two = sum.two;
    let three = sum.three;
    Powers {
        one: sum.one + two + three,
        two: 2 * two + 6 * three,
        three: 6 * three,
    }
}

// The walk at 0.
fn begin(terms: Terms) -> Walk
    requires { Small terms }
    ensures { Walks terms 0 result }
{
    let gained = changes(terms.gains);
    let lost = changes(terms.losses);
    Walk {
        value: terms.start,
        first: gained.one.wrapping_sub(lost.one),
        second: gained.two.wrapping_sub(lost.two),
        third: gained.three.wrapping_sub(lost.three),
    }
}

// The walk one further.
#[tactic(auto, unfolding(crate::specs::Inner::next_walk))]
fn next(walk: Walk) -> Walk
    ensures { result ≡ next_walk walk }
{
    let first = walk.first;
    let second = walk.second;
    let third = walk.third;
    Walk {
        value: walk.value.wrapping_add(first),
        first: first.wrapping_add(second),
        second: second.wrapping_add(third),
        third,
    }
}

// The walk along a coordinate of three moved control values, at the first point. Its polynomial is another than that of four.
fn quadratic(p: u32, q: u32, r: u32, s: u32) -> Walk
    requires { Moved p × Moved q × Moved r × (s ≤ 6) }
    ensures { Follows (unmoved p ∷ unmoved q ∷ unmoved r ∷ []) s 0 result }
{
    let n = pieces(s) as u64;
    let a = p as u64;
    let b = q as u64;
    let c = r as u64;
    begin(Terms {
        start: (2 * a + 1) * (n * n),
        gains: Powers {
            one: 4 * (n * b),
            two: 2 * (a + c),
            three: 0,
        },
        losses: Powers {
            one: 4 * (n * a),
            two: 4 * b,
            three: 0,
        },
    })
}

// And of four.
fn cubic(p: u32, q: u32, r: u32, t: u32, s: u32) -> Walk
    requires { Moved p × Moved q × Moved r × Moved t × (s ≤ 6) }
    ensures { Follows (unmoved p ∷ unmoved q ∷ unmoved r ∷ unmoved t ∷ []) s 0 result }
{
    let n = pieces(s) as u64;
    let nn = n * n;
    let a = p as u64;
    let b = q as u64;
    let c = r as u64;
    let d = t as u64;
    begin(Terms {
        start: (2 * a + 1) * (nn * n),
        gains: Powers {
            one: 6 * (nn * b),
            two: 6 * (n * (a + c)),
            three: 2 * (3 * b + d),
        },
        losses: Powers {
            one: 6 * (nn * a),
            two: 12 * (n * b),
            three: 2 * (a + 3 * c),
        },
    })
}

// The way of three control points, at the first point.
fn by_three(p0: Cell, p1: Cell, p2: Cell, s: u32) -> Way
    requires { (all_within_limits (p0 ∷ p1 ∷ p2 ∷ []) ≡ true) × (s ≤ 6) }
    ensures { Leads (p0 ∷ p1 ∷ p2 ∷ []) s 0 result }
{
    let a = sheet::lift_cell(p0);
    let b = sheet::lift_cell(p1);
    let c = sheet::lift_cell(p2);
    Way {
        x: quadratic(a.x, b.x, c.x, s),
        y: quadratic(a.y, b.y, c.y, s),
        shift: 2 * s + 1,
    }
}

// And of four.
fn by_four(p0: Cell, p1: Cell, p2: Cell, p3: Cell, s: u32) -> Way
    requires { (all_within_limits (p0 ∷ p1 ∷ p2 ∷ p3 ∷ []) ≡ true) × (s ≤ 6) }
    ensures { Leads (p0 ∷ p1 ∷ p2 ∷ p3 ∷ []) s 0 result }
{
    let a = sheet::lift_cell(p0);
    let b = sheet::lift_cell(p1);
    let c = sheet::lift_cell(p2);
    let d = sheet::lift_cell(p3);
    Way {
        x: cubic(a.x, b.x, c.x, d.x, s),
        y: cubic(a.y, b.y, c.y, d.y, s),
        shift: 3 * s + 1,
    }
}

// The way along a curve, at its first point.
fn way_of(points: &[Cell], s: u32) -> Way
    requires { ThreeOrFour points.now × (all_within_limits points.now ≡ true) × (s ≤ 6) }
    ensures { Leads points.now s 0 result }
{
    match *points {
        [p0, p1, p2] => by_three(p0, p1, p2, s),
        [p0, p1, p2, p3] => by_four(p0, p1, p2, p3, s),
        _ => unreachable!(),
    }
}

// One coordinate of the point that the walk is at.
fn divided(walk: Walk, shift: u32) -> u32
    requires { Divides walk shift }
    ensures { result ≡ walk.value / 2 ^ shift }
{
    (walk.value >> shift) as u32
}

// The point that the way is at.
fn spot_of(way: Way) -> Spot
    requires { Divides way.x way.shift × Divides way.y way.shift }
    ensures { result ≡ spot_of_way way }
{
    let shift = way.shift;
    Spot {
        x: divided(way.x, shift),
        y: divided(way.y, shift),
    }
}

// The way one further.
fn advanced(way: Way) -> Way
    ensures { result ≡ next_way way }
{
    let shift = way.shift;
    Way {
        x: next(way.x),
        y: next(way.y),
        shift,
    }
}

// Whether two coordinates are the same or neighbours: a + 1 less b is then 0, 1 or 2, and otherwise more, or it wraps.
fn near(a: u32, b: u32) -> bool
    requires { (a < 131072) × (b < 131072) }
    ensures { result ≡ (nat_le a (b + 1) && nat_le b (a + 1)) }
{
    (a + 1).wrapping_sub(b) <= 2
}

// The rectangle of a drawing: that of no cell, where it is refused. One join for both keeps the walk's rectangle in registers.
fn rectangle_of(drawn: Result<Drawn, Refusal>) -> Rectangle
    ensures { result ≡ (told drawn_answer drawn).box }
{
    match drawn {
        Ok(drawn) => drawn.rectangle,
        Err(_) => Rectangle::none(),
    }
}

// Draws the line between two points within the limits, of which the first is drawn: where they touch, or are one, the second. Answers the
// rectangle with the line in it; between two points on the sheet, that is with the second.
fn piece(
    sheet: &mut [u8],
    shape: Shape,
    ink: u8,
    from: Spot,
    to: Spot,
    rectangle: Rectangle,
) -> Rectangle
    requires sheet { Sheet shape sheet.old }
    requires from_value { (within_limits (unmoved_cell from) ≡ true) × (within_limits (unmoved_cell to) ≡ true) }
    ensures { Adds shape ink (unmoved_cell from) (on_line (unmoved_cell from) (unmoved_cell to))
        sheet.old sheet.new rectangle result }
{
    if near(from.x, to.x) & near(from.y, to.y) {
        sheet::ink_at(sheet, shape, ink, to);
        return sheet::join_at(shape, to, rectangle);
    }
    if line::draw_short(sheet, shape, ink, from, to) {
        return sheet::join_at(shape, to, rectangle);
    }
    // The shape anew: lent as it is, the compiler would store it for every piece.
    let own = Shape {
        width: shape.width,
        height: shape.height,
        pitch: shape.pitch,
    };
    let drawn = line::draw_between(sheet, own, ink, from, to);
    rectangle.join(rectangle_of(drawn))
}

// Draws the first point, and the lines between each point and the next.
fn join(sheet: &mut [u8], shape: Shape, ink: u8, points: &[Cell], s: u32) -> Rectangle
    requires { Sheet shape sheet.old × ThreeOrFour points.now × (all_within_limits points.now ≡ true) × (s ≤ 6) }
    ensures sheet_after { sheet.new ≡ paint shape ink (on_curve points.now s) sheet.old }
    ensures value { result ≡ box_of shape (on_curve points.now s) }
{
    let count = pieces(s);
    let mut way = way_of(points, s);
    let mut from = spot_of(way);
    sheet::ink_at(sheet, shape, ink, from);
    let mut rectangle = sheet::join_at(shape, from, Rectangle::none());
    // Counted down: for a count up to 2^s the compiler tests i >> s at each piece.
    for _left in (0..count).rev() {
        way = advanced(way);
        let to = spot_of(way);
        rectangle = piece(sheet, shape, ink, from, to, rectangle);
        from = to;
    }
    rectangle
}

// Whether all control points are within the limits.
fn in_limits(points: &[Cell]) -> bool
    ensures { result ≡ list_all within_limits points.now }
{
    points.iter().all(|p| sheet::in_limits(*p))
}

// Draws the curve with these control points, split into 2^s pieces.
fn draw(sheet: &mut [u8], shape: Shape, ink: u8, points: &[Cell], s: u32) -> Result<Drawn, Refusal>
    requires { ThreeOrFour points.now }
    ensures { Draws (curve_drawing shape ink points.now s) sheet.old (told drawn_answer result) sheet.new }
{
    shape.check(sheet.len())?;
    if !in_limits(points) {
        return Err(Refusal::Coordinate);
    }
    if !sheet::is_split(s) {
        return Err(Refusal::Pieces);
    }
    Ok(Drawn {
        count: None,
        rectangle: join(sheet, shape, ink, points, s),
    })
}

/// Draws a quadratic curve, of three control points, split into 2^s pieces.
///
/// It is refused, and the sheet left as it was, for a slice that is no sheet of the shape (`Size`, `Slice`), for a control point outside the
/// limits (`Coordinate`), and for an s above 6 (`Pieces`), in this order.
pub fn draw_curve(
    sheet: &mut [u8],
    shape: Shape,
    ink: u8,
    p0: Cell,
    p1: Cell,
    p2: Cell,
    s: u32,
) -> Result<Drawn, Refusal>
    ensures { Draws (curve_drawing shape ink (p0 ∷ p1 ∷ p2 ∷ []) s) sheet.old (told drawn_answer result) sheet.new }
{
    draw(sheet, shape, ink, &[p0, p1, p2], s)
}

/// Draws a cubic curve, of four control points, split into 2^s pieces. It is refused as a quadratic one is.
pub fn draw_cubic(
    sheet: &mut [u8],
    shape: Shape,
    ink: u8,
    p0: Cell,
    p1: Cell,
    p2: Cell,
    p3: Cell,
    s: u32,
) -> Result<Drawn, Refusal>
    ensures { Draws (curve_drawing shape ink (p0 ∷ p1 ∷ p2 ∷ p3 ∷ []) s) sheet.old (told drawn_answer result) sheet.new }
{
    draw(sheet, shape, ink, &[p0, p1, p2, p3], s)
}
