// The rows of the pieces of a queue.
ghost use Rattle.std.specs.Prelude.{◌≤◌, length};
ghost use Rattle.fill.specs.Inner.{Spans};

// The rows from top to before bottom; from 4,096 to 0 for none.
#[derive(Clone, Copy, Debug, PartialEq, Eq, Hash)]
pub(crate) struct Span {
    pub(crate) top: u32,
    pub(crate) bottom: u32,
}

// Those that the pieces are in. A piece has its row in its highest bits, so the least piece is in the first row.
pub(crate) fn rows_of(work: &[u32], count: usize) -> Span
    requires { count ≤ length work.now }
    ensures { Spans work.now count result.top result.bottom }
{
    if count == 0 {
        return Span {
            top: 4096,
            bottom: 0,
        };
    }
    let mut least = work[0];
    let mut most = work[0];
    for i in 1..count {
        least = least.min(work[i]);
        most = most.max(work[i]);
    }
    Span {
        top: least / 1048576,
        bottom: most / 1048576 + 1,
    }
}
