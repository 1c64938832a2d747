// The 5 × 5 window around a pixel, gathered first as five rows of five values (01, One pass).
ghost use Rattle.std.specs.Prelude.{◌≡◌, ◌+◌, ◌*◌, ◌≤◌, ◌<◌, length, get_or};
ghost use Rattle.operator.specs.Image.{pixel};
ghost use Rattle.operator.specs.Window.{clamp, window};
ghost use Rattle.seq.specs.Tab.{tab};

use image::size::Size;

// How far the window reaches from its centre.
const REACH: usize = 2;

// The values around (row, col), of pixels or of a map of the same size.
pub(crate) fn gather(values: &[u8], size: Size, row: usize, col: usize) -> [[u8; 5]; 5]
    requires { (row < size.height) × (col < size.width) × (size.width * size.height ≤ length values.now) }
    ensures { result ≡ window size.width size.height values.now row col }
{
    [
        gather_row(values, size, row, col),
        gather_row(values, size, row + 1, col),
        gather_row(values, size, row + 2, col),
        gather_row(values, size, row + 3, col),
        gather_row(values, size, row + 4, col),
    ]
}

// Five values of the row two above `row`.
fn gather_row(values: &[u8], size: Size, row: usize, col: usize) -> [u8; 5]
    requires { (0 < size.height) × (col < size.width) × (size.width * size.height ≤ length values.now) }
    ensures { result ≡ tab (λ x. pixel size.width values.now (clamp size.height row) (clamp size.width (col + x))) 5 }
{
    five(
        values,
        size.width,
        clamped(row, size.height) * size.width,
        col,
    )
}

// Five values of the row that begins at `start`.
fn five(values: &[u8], width: usize, start: usize, col: usize) -> [u8; 5]
    requires { (col < width) × (start + width ≤ length values.now) }
    ensures { result ≡ tab (λ x. get_or values.now (start + clamp width (col + x)) 0) 5 }
{
    [
        value(values, width, start, col),
        value(values, width, start, col + 1),
        value(values, width, start, col + 2),
        value(values, width, start, col + 3),
        value(values, width, start, col + 4),
    ]
}

// The value two before `col`.
fn value(values: &[u8], width: usize, start: usize, col: usize) -> u8
    requires { (0 < width) × (start + width ≤ length values.now) }
    ensures { result ≡ get_or values.now (start + clamp width col) 0 }
{
    let at = clamped(col, width);
    values[start + at]
}

// The edge rule: what falls outside stands for the nearest place inside.
fn clamped(at: usize, size: usize) -> usize
    requires { 0 < size }
    ensures { result ≡ clamp size at }
{
    // kept: by `saturating_sub` and `min` the preview takes 8% longer
    if at < REACH {
        return 0;
    }
    if at - REACH < size {
        at - REACH
    } else {
        size - 1
    }
}
