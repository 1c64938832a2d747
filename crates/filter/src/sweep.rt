// Erosion and dilation of planes and maps, whole rows at a time, by the shifts of a mask's positions: four shifts a sweep.
ghost use Rattle.std.specs.Prelude.{◌≡◌, ℕ, ◌+◌, ◌-◌, ◌^◌, ◌≤◌, ◌<◌, length, get_or, take};
ghost use Rattle.filter.specs.Code.Opening.{shift, farthest, Shifts};
ghost use Rattle.filter.specs.Code.Sweep.{Fours, Padded, Reach, woven4, all_of, met, joined, Eroded, Dilated};
ghost use Rattle.seq.specs.Bits.{bit};
ghost use Rattle.seq.specs.Loops.{Swept};
ghost use Rattle.table.specs.Mask.{position_count};

use crate::plane;
use table::mask::POSITIONS;

const SIDE: usize = 5;

// The shift of the last position.
const FARTHEST: usize = 4 * plane::STEP + 4;

// Room for the shifts of a mask.
pub(crate) const SHIFTS: usize = 28;

// Writes the shifts of a mask's positions, the last again up to a multiple of four. How many.
// kept: a list with its count beside it, since memory is fixed and there is no heap
pub(crate) fn shifts(mask: u32, at: &mut [usize; SHIFTS]) -> usize
    requires { length at.old ≡ 28 }
    ensures { (result ≤ 28) × Shifts mask (take result at.new) × (length at.new ≡ 28) }
{
    let mut n = 0;
    for b in 0..POSITIONS {
        if has(mask, b) {
            at[n] = shift_of(b);
            n += 1;
        }
    }
    pad(at, n)
}

pub(crate) fn has(mask: u32, position: usize) -> bool
    requires { position < position_count }
    ensures { result ≡ bit mask position }
{
    (mask >> position) % 2 == 1
}

// How far behind its window's first byte a position lies.
pub(crate) fn shift_of(position: usize) -> usize
    requires { position < position_count }
    ensures { (result ≡ shift position) × (result ≤ farthest) }
{
    (position / SIDE) * plane::STEP + position % SIDE
}

// The last of n shifts again, up to a multiple of four. How many there are then.
fn pad(at: &mut [usize; SHIFTS], n: usize) -> usize
    requires { (n ≤ 28) × (length at.old ≡ 28) }
    ensures { Padded at.old at.new n result }
{
    let m = n.div_ceil(4) * 4;
    for k in n..m {
        at[k] = at[n - 1];
    }
    m
}

// What a sweep makes of a byte of its own and the bytes behind four places.
pub(crate) trait Weave {
    ghost woven: { ℕ → ℕ → ℕ → ℕ → ℕ → ℕ };

    fn weave(own: u8, a: u8, b: u8, c: u8, d: u8) -> u8
        ensures { result ≡ woven own a b c d };
}

struct AllOf;

impl Weave for AllOf {
    ghost woven = { all_of };

    fn weave(own: u8, a: u8, b: u8, c: u8, d: u8) -> u8 {
        (a & b) & (c & d)
    }
}

struct Met;

impl Weave for Met {
    ghost woven = { met };

    fn weave(own: u8, a: u8, b: u8, c: u8, d: u8) -> u8 {
        own & (a & b) & (c & d)
    }
}

struct Joined;

impl Weave for Joined {
    ghost woven = { joined };

    fn weave(own: u8, a: u8, b: u8, c: u8, d: u8) -> u8 {
        own | (a | b) | (c | d)
    }
}

// One sweep over the bytes from `to` on; byte `to + k` looks at the bytes k behind the four places.
pub(crate) fn sweep<W: Weave>(
    source: &[u8],
    at: [usize; 4],
    out: &mut [u8],
    to: usize,
    count: usize,
)
    requires { Reach source.now at count × (to + count ≤ length out.old) }
    ensures { Swept (woven4 W.woven source.now at to out.old) out.old out.new to (to + count) }
{
    let [a, b, c, d] = at;
    for k in 0..count {
        out[to + k] = W::weave(
            out[to + k],
            source[a + k],
            source[b + k],
            source[c + k],
            source[d + k],
        );
    }
}

// Where all shifts have a bit in the source: byte j looks at the bytes start + j + shift. Without a shift, all bits.
pub(crate) fn erode(at: &[usize], start: usize, count: usize, source: &[u8], out: &mut [u8])
    requires { Fours at.now × (start + count + farthest ≤ length source.now) × (count ≤ length out.old) }
    ensures { Eroded at.now start count source.now out.new }
{
    let (fours, _) = at.as_chunks::<4>();
    match fours.split_first() {
        None => plane::fill(out, 0, count, 255),
        Some((first, more)) => {
            sweep::<AllOf>(source, behind(*first, start), out, 0, count);
            for four in more {
                sweep::<Met>(source, behind(*four, start), out, 0, count);
            }
        }
    }
}

// The places of four shifts from `start` on.
fn behind(four: [usize; 4], start: usize) -> [usize; 4]
    requires { (i : ℕ) → i < 4 → start + get_or four i 0 < 2 ^ 64 }
    ensures { (i : ℕ) → i < 4 → get_or result i 0 ≡ start + get_or four i 0 }
{
    [
        start + four[0],
        start + four[1],
        start + four[2],
        start + four[3],
    ]
}

// Adds to bytes 4 to before 4 + count the bits of some shift: byte j looks at the bytes j + 320 − shift.
pub(crate) fn dilate(at: &[usize], count: usize, source: &[u8], out: &mut [u8])
    requires { Fours at.now × (count + farthest ≤ length source.now) × (4 + count ≤ length out.old) }
    ensures { Dilated at.now count source.now out.old out.new }
{
    let (fours, _) = at.as_chunks::<4>();
    for four in fours {
        sweep::<Joined>(source, before(*four), out, 4, count);
    }
}

// The places of four shifts, as far before the last position's as they lie behind the first one's.
fn before(four: [usize; 4]) -> [usize; 4]
    requires { (i : ℕ) → i < 4 → get_or four i 0 ≤ farthest }
    ensures { (i : ℕ) → i < 4 → get_or result i 0 ≡ farthest - get_or four i 0 }
{
    [
        FARTHEST - four[0],
        FARTHEST - four[1],
        FARTHEST - four[2],
        FARTHEST - four[3],
    ]
}
