// The work slice: a queue of pieces of rows, each at most 256 cells as one number, so that a place for each cell is enough.
ghost use Rattle.std.specs.Prelude.{◌≡◌, ◌+◌, ◌<◌, ◌≤◌, length};
ghost use Rattle.fill.specs.Inner.{piece_of, Queued};

// A piece of a row, as one number.
fn piece(row: usize, from: usize, to: usize) -> u32
    requires { (row < 4096) × (from < to) × (to ≤ 4096) × (to ≤ from + 256) }
    ensures { result ≡ piece_of row from to }
{
    (row * 1048576 + from * 256 + (to - from - 1)) as u32
}

// Queues the cells of a row from one column to before another. The last step is shorter, so that no `step_by` has it.
pub(crate) fn queue(work: &mut [u32], tail: usize, row: usize, from: usize, to: usize) -> usize
    requires { (row < 4096) × (from ≤ to) × (to ≤ 4096) × (tail + to ≤ length work.old + from) }
    ensures { Queued row from to work.old tail work.new result }
{
    let mut at = from;
    let mut end = tail;
    while at < to {
        let past = (at + 256).min(to);
        work[end] = piece(row, at, past);
        at = past;
        end += 1;
    }
    end
}
