// Where a ring crosses a height: the front, the first column whose middle is outside it there.
ghost use Rattle.std.specs.Prelude.{◌≡◌, ◌≤◌};
ghost use Rattle.ring.specs.Inner.{outside, end_of_row, Sized, Front};

// Whether the point (u / 2, v / 2) from the centre is outside the ellipse.
#[tactic(auto, using(crate::proofs::Outside::square_fits, crate::proofs::Outside::double_fits), unfolding(crate::specs::Inner::outside))]
pub(crate) fn is_outside(a: usize, b: usize, u: usize, v: usize) -> bool
    requires { (a ≤ 16383) × (b ≤ 16383) × (u ≤ 32768) × (v ≤ 32767) }
    ensures { result ≡ outside a b u v }
{
    let axes = 2 * (a * b);
    let across = b * u;
    let down = a * v;
    axes * axes < across * across + down * down
}

// The front at the height v / 2 among the columns from the least to before past, found by halving.
pub(crate) fn halved(a: usize, b: usize, v: usize, least: usize, past: usize) -> usize
    requires { Sized a b v least past }
    ensures { Front a b v least past result }
{
    let mut low = least;
    let mut high = past;
    while low < high {
        let middle = (low + high) / 2;
        if is_outside(a, b, 2 * middle, v) {
            high = middle;
        } else {
            low = middle + 1;
        }
    }
    low
}

// The same, found by steps up from the least.
#[tactic(auto, using(crate::proofs::Fronts::front_join, crate::proofs::Fronts::front_here))]
pub(crate) fn risen(a: usize, b: usize, v: usize, least: usize, past: usize) -> usize
    requires { Sized a b v least past }
    ensures { Front a b v least past result }
{
    for x in least..past {
        if is_outside(a, b, 2 * x, v) {
            return x;
        }
    }
    past
}

// The same, found by steps down from past.
pub(crate) fn fallen(a: usize, b: usize, v: usize, least: usize, past: usize) -> usize
    requires { Sized a b v least past }
    ensures { Front a b v least past result }
{
    for x in (least..past).rev() {
        if !is_outside(a, b, 2 * x, v) {
            return x + 1;
        }
    }
    least
}

// The end of a row's cells at a front: one column before it, where the boundary between the two is outside.
#[tactic(auto, unfolding(crate::specs::Inner::end_of_row))]
pub(crate) fn row_end(a: usize, b: usize, y: usize, x: usize) -> usize
    requires { (a ≤ 16383) × (b ≤ 16383) × (x ≤ 16384) × (y ≤ 16383) }
    ensures { result ≡ end_of_row a b y x }
{
    let before = x.saturating_sub(1);
    let out = is_outside(a, b, 2 * before + 1, 2 * y);
    if out { before } else { x }
}

// The same after a loop over rows, by another product, so that the loop keeps none of its own for this in memory.
#[tactic(auto, unfolding(crate::specs::Inner::end_of_row))]
pub(crate) fn end_after(a: usize, b: usize, y: usize, x: usize) -> usize
    requires { (a ≤ 16383) × (b ≤ 16383) × (x ≤ 16384) × (y ≤ 16383) }
    ensures { result ≡ end_of_row a b y x }
{
    if x == 0 {
        return 0;
    }
    let out = is_outside(a, b, 2 * x - 1, 2 * y);
    if out { x - 1 } else { x }
}
