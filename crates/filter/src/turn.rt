// After the judging: the pixels that change are counted and turned in the plane.
ghost use Rattle.std.specs.Prelude.{Bool, List, ◌≡◌, ℕ, ◌+◌, ◌*◌, ◌≤◌, length};
ghost use Rattle.filter.specs.Code.Plane.{step, rim, band, Packed};
ghost use Rattle.filter.specs.Code.Turn.{lane_count, tallied, Exchanged, RowTurned, Judged, Turned};
ghost use Rattle.image.specs.Size.{max_side, max_pixels};
ghost use Rattle.operator.specs.Image.{IsImage};

use crate::plane::{BAND, HALO, RIM, STEP};
use crate::{Changes, plane};

// Rows in which nothing changes are marked no longer.
pub(crate) fn turn(height: usize, flips: &[u8], plane: &mut [u8], changed: &mut [u8]) -> Changes
    requires { (height ≤ max_side) × (band * height ≤ length flips.now) × (step * (height + 2 * rim) ≤ length plane.old) × (rim + height ≤ length changed.old) }
    ensures { (result.added ≤ max_pixels) × (result.removed ≤ max_pixels)
        × ((S : ℕ → ℕ → Bool) (w : ℕ) (img : List ℕ) → IsImage w height img → w ≤ max_side → Packed w height img plane.old
        → Judged S w height img flips.now changed.old
        → Turned S w height img plane.new changed.old changed.new result.added result.removed) }
{
    let mut added = 0;
    let mut removed = 0;
    for row in 0..height {
        if changed[RIM + row] != 0 {
            let t = tally_row(flips, row * BAND);
            if t.added + t.removed == 0 {
                changed[RIM + row] = 0;
            } else {
                added += t.added;
                removed += t.removed;
                turn_row(flips, row * BAND, plane, (row + RIM) * STEP);
            }
        }
    }
    Changes { added, removed }
}

// The changes of a row.
fn tally_row(flips: &[u8], from: usize) -> Changes
    requires { from + band ≤ length flips.now }
    ensures { (result.added ≡ tallied 1 flips.now from band) × (result.removed ≡ tallied 0 flips.now from band) }
{
    let left = tally(flips, from);
    let right = tally(flips, from + 32);
    Changes {
        added: left.added + right.added,
        removed: left.removed + right.removed,
    }
}

// The changes of 32 bytes. Their sums fit a byte, so that many bytes are added at once.
fn tally(flips: &[u8], from: usize) -> Changes
    requires { from + 32 ≤ length flips.now }
    ensures { (result.added ≡ tallied 1 flips.now from 32) × (result.removed ≡ tallied 0 flips.now from 32) }
{
    let mut more: u8 = 0;
    let mut less: u8 = 0;
    for k in 0..32 {
        let f = flips[from + k];
        more = more + ones(f >> 1);
        less = less + ones(f);
    }
    Changes {
        added: usize::from(more),
        removed: usize::from(less),
    }
}

// How many of the bits 0, 2, 4 and 6 are set.
fn ones(f: u8) -> u8
    ensures { result ≡ lane_count 0 f }
{
    let a = f & 85;
    let b = (a & 51) + ((a >> 2) & 51);
    (b & 15) + (b >> 4)
}

// The codes of a row exchanged where the pixel changes.
fn turn_row(flips: &[u8], from: usize, plane: &mut [u8], at: usize)
    requires { (from + band ≤ length flips.now) × (at + step ≤ length plane.old) }
    ensures { RowTurned flips.now from plane.old plane.new at }
{
    exchange(flips, from, plane, at + HALO);
    plane::refresh(plane, at);
}

fn exchange(flips: &[u8], from: usize, plane: &mut [u8], at: usize)
    requires { (from + band ≤ length flips.now) × (at + band ≤ length plane.old) }
    ensures { Exchanged flips.now from plane.old plane.new at band }
{
    for k in 0..BAND {
        let f = flips[from + k];
        plane[at + k] = plane[at + k] ^ (f | plane::other(f));
    }
}
