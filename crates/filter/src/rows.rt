// Marks of rows: one byte a row, 0 where the row has no mark.
ghost use Rattle.std.specs.Prelude.{◌+◌, ◌≤◌, ◌<◌, length, get_or};
ghost use Rattle.std.specs.Int.Bits.{bit_or};
ghost use Rattle.filter.specs.Code.Rows.{nearby, Marked, NextMarked, MarkedRun, Spread};
ghost use Rattle.seq.specs.Loops.{Swept};

use crate::plane;

// The rows that a run takes at once.
pub(crate) const BLOCK: usize = 64;

// The marks within reach of a row: six rows above it, its own and six below.
const NEARBY: usize = 13;

// The first row from `top` on that has a mark, or `height`.
pub(crate) fn next_marked(marks: &[u8], height: usize, top: usize) -> usize
    requires { (top ≤ height) × (height ≤ length marks.now) }
    ensures { NextMarked marks.now height top result }
{
    for row in top..height {
        if marks[row] != 0 {
            return row;
        }
    }
    height
}

// The end of the rows with marks that begin at `top`, after a block at the latest.
pub(crate) fn next_unmarked(marks: &[u8], height: usize, top: usize) -> usize
    requires { (top < height) × (height ≤ length marks.now) × Marked marks.now top }
    ensures { MarkedRun marks.now height top result }
{
    let end = height.min(top + BLOCK);
    for row in top + 1..end {
        if marks[row] == 0 {
            return row;
        }
    }
    end
}

// A mark at each row that has one of the marks within reach. Six marks stand before the first row's own and six behind the last row's.
pub(crate) fn spread(changed: &[u8], height: usize, dirty: &mut [u8])
    requires { (height + 12 ≤ length changed.now) × (height ≤ length dirty.old) }
    ensures { Spread nearby changed.now height dirty.old dirty.new }
{
    plane::fill(dirty, 0, height, 0);
    for d in 0..NEARBY {
        join(changed, d, dirty, height);
    }
}

pub(crate) fn join(source: &[u8], from: usize, out: &mut [u8], count: usize)
    requires { (from + count ≤ length source.now) × (count ≤ length out.old) }
    ensures { Swept (λ j. bit_or (get_or out.old j 0) (get_or source.now (from + j) 0)) out.old out.new 0 count }
{
    for k in 0..count {
        out[k] = out[k] | source[from + k];
    }
}
