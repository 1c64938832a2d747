// Which pixels change: the window of each candidate is gathered, and the element test judges it (01, One pass).
ghost use Rattle.std.specs.Prelude.{◌&&◌, ◌≡◌, ℕ, ◌+◌, ◌-◌, ◌*◌, ◌/◌, ◌%◌, ◌^◌, ◌≤◌, ◌<◌, length, get_or};
ghost use Rattle.filter.specs.Code.Elements.{code_of, seen};
ghost use Rattle.filter.specs.Code.Judge.{Bytes, Confirmed, JudgedRows};
ghost use Rattle.filter.specs.Code.Opening.{farthest, held_within};
ghost use Rattle.filter.specs.Code.Plane.{step, rim, band};
ghost use Rattle.seq.specs.Bits.{bit};
ghost use Rattle.seq.specs.Loops.{Swept};
ghost use Rattle.seq.specs.Tab.{tab};

use crate::masks::Masks;
use crate::plane::{BAND, HALO, RIM, STEP};
use crate::{candidate, elements, plane};

// Where the window of a band's first column begins.
const FIRST: usize = HALO - 2;

// Judges the candidates of a block, and marks the rows that have some.
pub(crate) fn confirm_rows(
    masks: &Masks<'_>,
    hit: &[u8],
    map: &[u8],
    plane: &[u8],
    top: usize,
    rows: usize,
    flips: &mut [u8],
    changed: &mut [u8],
)
    requires { (top + rows ≤ 4096) × (step * rows ≤ length hit.now) × (step * (rows + 4) ≤ length map.now)
        × (step * (top + rows + 2 * rim) ≤ length plane.now) × (band * (top + rows) ≤ length flips.old) × (rim + top + rows ≤ length changed.old) }
    ensures { JudgedRows masks.now.elements.now hit.now map.now plane.now top rows
        flips.old flips.new changed.old changed.new }
{
    for r in 0..rows {
        let row = top + r;
        let from = STEP * r + FIRST;
        let some = candidate::narrow(
            hit,
            map,
            from,
            plane,
            STEP * (row + RIM) + HALO,
            flips,
            BAND * row,
        );
        if some {
            confirm_row(masks, map, from, flips, BAND * row);
        }
        changed[RIM + row] = u8::from(some);
    }
}

// Judges the candidates of a row, eight bytes at a time.
fn confirm_row(masks: &Masks<'_>, map: &[u8], from: usize, flips: &mut [u8], at: usize)
    requires { (from + band + farthest + 3 ≤ length map.now) × (at + band ≤ length flips.old) }
    ensures { Confirmed masks.now.elements.now map.now from flips.old flips.new at band }
{
    for i in 0..BAND / 8 {
        let k = 8 * i;
        let turned = word(flips, at + k);
        if turned != 0 {
            put(confirm(masks, map, from + k, turned), flips, at + k);
        }
    }
}

// Judges each candidate of a word of eight bytes, and keeps those that change.
fn confirm(masks: &Masks<'_>, map: &[u8], from: usize, turned: u64) -> u64
    requires { from + farthest + 11 ≤ length map.now }
    ensures { (s : ℕ) → s < 64 → bit result s ≡ (bit turned s && held_within masks.now.elements.now map.now (from + s / 8) (s % 8)) }
{
    let mut left = turned;
    let mut kept = turned;
    // kept: no index is counted, and the library has no iterator over the bits of a word
    while left != 0 {
        let s = u64::trailing_zeros(left) as usize;
        let place = 1u64 << s;
        left = left - place;
        let win = gather(map, from + s / 8, s % 8 / 2);
        if !elements::some_matches(masks.elements, win, (s % 2) as u8) {
            kept = kept - place;
        }
    }
    kept
}

// The window of one pixel, the one of band `lane`; `at` is where it begins.
fn gather(map: &[u8], at: usize, lane: usize) -> [[u8; 5]; 5]
    requires { (lane < 4) × (at + farthest + 4 ≤ length map.now) }
    ensures { result ≡ seen map.now at lane }
{
    [
        five(map, at, lane),
        five(map, at + STEP, lane),
        five(map, at + 2 * STEP, lane),
        five(map, at + 3 * STEP, lane),
        five(map, at + 4 * STEP, lane),
    ]
}

// The codes of five pixels side by side in band `lane`.
fn five(map: &[u8], at: usize, lane: usize) -> [u8; 5]
    requires { (lane < 4) × (at + 8 ≤ length map.now) }
    ensures { result ≡ tab (λ x. code_of (get_or map.now (at + x) 0) lane) 5 }
{
    let w = word(map, at) >> (2 * lane);
    [
        code(w),
        code(w >> 8),
        code(w >> 16),
        code(w >> 24),
        code(w >> 32),
    ]
}

// The code in the lowest bits.
fn code(x: u64) -> u8
    ensures { result ≡ x % 4 }
{
    (x & 3) as u8
}

// Eight bytes as a number, the first is the lowest.
fn word(b: &[u8], at: usize) -> u64
    requires { at + 8 ≤ length b.now }
    ensures { Bytes 8 b.now at result }
{
    u64::from_le_bytes([
        b[at],
        b[at + 1],
        b[at + 2],
        b[at + 3],
        b[at + 4],
        b[at + 5],
        b[at + 6],
        b[at + 7],
    ])
}

// A number as eight bytes, the lowest first.
fn put(x: u64, out: &mut [u8], at: usize)
    requires { at + 8 ≤ length out.old }
    ensures { Swept (λ j. x / 2 ^ (8 * (j - at)) % 256) out.old out.new at (at + 8) }
{
    plane::copy(&x.to_le_bytes(), 0, out, at, 8);
}
