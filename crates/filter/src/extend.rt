// The edge rule in the opening map: places outside the image have what the nearest place inside has.
ghost use Rattle.std.specs.Prelude.{Bool, ◌&&◌, ◌≡◌, ℕ, ◌+◌, ◌-◌, ◌*◌, ◌≤◌, ◌<◌, min, max, eqb, length, get_or};
ghost use Rattle.filter.specs.Code.Extend.{Joined, Widening, Widenings, RowsBy};
ghost use Rattle.filter.specs.Code.Opening.{MapRows, Mapped};
ghost use Rattle.filter.specs.Code.Plane.{band, step};
ghost use Rattle.image.specs.Size.{max_side};
ghost use Rattle.seq.specs.Bits.{bit};
ghost use Rattle.seq.specs.Loops.{Swept};

use crate::plane::{BAND, HALO, STEP};
use crate::sides::Sides;

// How far a window reaches from its centre.
const REACH: usize = 2;

pub(crate) fn extend(map: &mut [u8], sides: Sides, top: usize, rows: usize)
    requires { (1 ≤ rows) × (top + rows ≤ sides.height) × (step * (rows + 4) ≤ length map.old) }
    ensures { (O : ℕ → ℕ → ℕ → Bool) → MapRows O sides.width sides.height top rows map.old → Mapped O sides.width sides.height top rows map.new }
{
    extend_rows(map, sides.width, rows);
    extend_down(map, sides.height, top, rows);
    extend_up(map, top);
}

// Each row of the map.
fn extend_rows(map: &mut [u8], width: usize, rows: usize)
    requires { (1 ≤ width) × (width ≤ max_side) × (rows ≤ max_side) × (step * (rows + 4) ≤ length map.old) }
    ensures { Widenings width map.old map.new (rows + 4) }
{
    let lane = (width - 1) / BAND;
    let col = (width - 1) % BAND;
    for r in 0..rows + 4 {
        extend_row(map, r * STEP, lane, col);
    }
}

// Two columns before the first one stand for it, and two behind the last one, which is column `col` of band `lane`.
fn extend_row(map: &mut [u8], to: usize, lane: usize, col: usize)
    requires { (lane < 4) × (col < band) × (to + step ≤ length map.old) }
    ensures { Widening (band * lane + col + 1) map.old map.new to }
{
    let at = to + HALO;
    join(map, at, 0, at - REACH, 0);
    join(map, at + col, lane, at + col + 1, lane);
    if col == 0 && 0 < lane {
        // the window of the last column but one lies in the band before
        join(map, at, lane, at + BAND + 1, lane - 1);
    }
}

// The code that band `lane` has in the byte `from`, also in the two bytes at `to`, there in band `low`.
fn join(map: &mut [u8], from: usize, lane: usize, to: usize, low: usize)
    requires { (low ≤ lane) × (lane < 4) × (from < length map.old) × (to + 2 ≤ length map.old) }
    ensures { Joined map.old map.new from lane to low }
{
    let code = lane_of(map[from], lane) >> (2 * (lane - low));
    map[to] = map[to] | code;
    map[to + 1] = map[to + 1] | code;
}

// The code of one band in a byte, moved nowhere.
fn lane_of(byte: u8, lane: usize) -> u8
    requires { lane < 4 }
    ensures { (l v : ℕ) → v < 2 → bit result (2 * l + v) ≡ (eqb l lane && bit byte (2 * l + v)) }
{
    byte & (3u8 << (2 * lane))
}

// Rows below the image stand for its last one.
fn extend_down(map: &mut [u8], height: usize, top: usize, rows: usize)
    requires { (height ≤ max_side) × (top + rows ≤ height) × (step * (rows + 4) ≤ length map.old) }
    ensures { RowsBy (λ i. min i (height + 1 - top)) map.old map.new (max (height + 2 - top) (rows + 4)) }
{
    let last = height + 1 - top; // the map's row of the image's last
    for r in last + 1..rows + 4 {
        copy_row(map, last * STEP, r * STEP);
    }
}

// Rows above the image stand for its first one.
fn extend_up(map: &mut [u8], top: usize)
    requires { step * 3 ≤ length map.old }
    ensures { RowsBy (λ i. 2 - top) map.old map.new (2 - top) }
{
    let first = REACH.saturating_sub(top); // the map's row of the image's first
    for r in 0..first {
        copy_row(map, first * STEP, r * STEP);
    }
}

// A row in place of another one.
fn copy_row(map: &mut [u8], from: usize, to: usize)
    requires { (from + step ≤ length map.old) × (to + step ≤ length map.old) }
    ensures { Swept (λ j. get_or map.old (from + (j - to)) 0) map.old map.new to (to + step) }
{
    map.copy_within(from..from + STEP, to);
}
