// Candidates: pixels that may change. What is left out is proved not to change; the element test judges what is left.
ghost use Rattle.std.specs.Prelude.{true, ◌≡◌, ℕ, ◌+◌, ◌%◌, ◌≤◌, ◌<◌, length, get_or, take};
ghost use Rattle.filter.specs.Code.Candidate.{TwoOf, Among, Added, Evened, Parts, paired, Joined, Narrowed};
ghost use Rattle.filter.specs.Code.Opening.{farthest, held_within, Shifts};
ghost use Rattle.filter.specs.Code.Plane.{band};
ghost use Rattle.filter.specs.Code.Sweep.{Fours};
ghost use Rattle.seq.specs.Bits.{bit};
ghost use Rattle.seq.specs.Lists.{all};
ghost use Rattle.table.specs.Mask.{valid_mask};
ghost use Rattle.table.specs.Record.{max_elements};

use crate::masks::Masks;
use crate::plane::BAND;
use crate::sweep::Weave;
use crate::{plane, sweep};
use table::mask::POSITIONS;

// Room for two shifts of each element.
pub(crate) const PARTS: usize = 128;

// The shift of the window's centre.
const CENTRE: usize = 2 * plane::STEP + 2;

// What `candidates` sweeps: the shifts of the only element, or two of each element. How many.
// kept: a list with its count beside it, since memory is fixed and there is no heap
pub(crate) fn parts_of(elements: &[u32], at: &mut [usize; PARTS]) -> usize
    requires { (all valid_mask elements.now ≡ true) × (length elements.now ≤ max_elements) × (length at.old ≡ 128) }
    ensures { (result ≤ 128) × Parts elements.now (take result at.new) × (length at.new ≡ 128) }
{
    if elements.len() == 1 {
        only(elements[0], at)
    } else {
        plan(elements, at)
    }
}

// The shifts of an element.
fn only(element: u32, at: &mut [usize; PARTS]) -> usize
    requires { length at.old ≡ 128 }
    ensures { (result ≤ 28) × Shifts element (take result at.new) × (length at.new ≡ 128) }
{
    let mut own = [0usize; sweep::SHIFTS];
    let n = sweep::shifts(element, &mut own);
    at[..n].copy_from_slice(&own[..n]);
    n
}

// The pairs' shifts, each pair once, the last again where their number is odd. How many shifts.
fn plan(elements: &[u32], at: &mut [usize; PARTS]) -> usize
    requires { (all valid_mask elements.now ≡ true) × (length elements.now ≤ max_elements) × (length at.old ≡ 128) × (length elements.now ≡ 1 → ⊥) }
    ensures { (result ≤ 128) × Parts elements.now (take result at.new) × (length at.new ≡ 128) }
{
    let mut n = 0;
    for e in elements {
        n = add_pair(*e, at, n);
    }
    even(at, n)
}

// Adds an element's pair where it is not yet among the first n shifts. How many there are then.
fn add_pair(element: u32, at: &mut [usize; PARTS], n: usize) -> usize
    requires { (valid_mask element ≡ true) × (n % 2 ≡ 0) × (n + 2 ≤ 128) × (length at.old ≡ 128) }
    ensures { Added element at.old at.new n result }
{
    let p = pair_of(element);
    let a = sweep::shift_of(p.low);
    let b = sweep::shift_of(p.high);
    if is_among(at, n, a, b) {
        return n;
    }
    at[n] = a;
    at[n + 1] = b;
    n + 2
}

// The last pair again where the number of pairs is odd.
fn even(at: &mut [usize; PARTS], n: usize) -> usize
    requires { (n % 2 ≡ 0) × (n ≤ 128) × (length at.old ≡ 128) }
    ensures { Evened at.old at.new n result }
{
    if n % 4 == 0 {
        return n;
    }
    at[n] = at[n - 2];
    at[n + 1] = at[n - 1];
    n + 2
}

// Whether the pair is among the first `count` shifts.
fn is_among(pairs: &[usize; PARTS], count: usize, a: usize, b: usize) -> bool
    requires { (count % 2 ≡ 0) × (count ≤ 128) }
    ensures { result ≡ true → Among pairs.now count a b }
{
    for k in 0..count / 2 {
        if pairs[2 * k] == a && pairs[2 * k + 1] == b {
            return true;
        }
    }
    false
}

// Two positions of an element.
#[derive(Clone, Copy)]
struct Pair {
    low: usize,
    high: usize,
}

// Opposite ones where it has them; else the first and the last.
fn pair_of(element: u32) -> Pair
    requires { valid_mask element ≡ true }
    ensures { TwoOf element result.low result.high }
{
    for p in 0..12 {
        if sweep::has(element, p) && sweep::has(element, 24 - p) {
            return Pair {
                low: p,
                high: 24 - p,
            };
        }
    }
    ends(element)
}

// The first position and the last.
fn ends(element: u32) -> Pair
    requires { valid_mask element ≡ true }
    ensures { TwoOf element result.low result.high }
{
    let mut low = 0;
    let mut high = 0;
    for p in 0..POSITIONS {
        if sweep::has(element, p) {
            high = p;
        }
        if sweep::has(element, 24 - p) {
            low = 24 - p;
        }
    }
    Pair { low, high }
}

// Where the only element holds, or else two positions of some element: wherever an element holds.
pub(crate) fn candidates(masks: &Masks<'_>, size: usize, map: &[u8], out: &mut [u8])
    requires { (size + farthest ≤ length map.now) × (size ≤ length out.old) }
    ensures { (j s : ℕ) → j < size → s < 8 → held_within masks.now.elements.now map.now j s ≡ true → bit (get_or out.new j 0) s ≡ true }
{
    if masks.elements.len() == 1 {
        sweep::erode(masks.parts, 0, size, map, out);
    } else {
        hold(masks.parts, size, map, out);
    }
}

// Where some pair holds: two pairs of shifts at a time.
fn hold(pairs: &[usize], size: usize, source: &[u8], out: &mut [u8])
    requires { Fours pairs.now × (size + farthest ≤ length source.now) × (size ≤ length out.old) }
    ensures { Joined pairs.now (length pairs.now) size source.now out.new }
{
    plane::fill(out, 0, size, 0);
    let (fours, _) = pairs.as_chunks::<4>();
    for four in fours {
        sweep::sweep::<Paired>(source, *four, out, 0, size);
    }
}

// Adds where one pair of shifts holds, or the other.
struct Paired;

impl Weave for Paired {
    ghost woven = { paired };

    fn weave(own: u8, a: u8, b: u8, c: u8, d: u8) -> u8 {
        own | ((a & b) | (c & d))
    }
}

// The candidates of a row: of the pixels of the other value, those that are not opened for it. Whether there are any.
pub(crate) fn narrow(
    hit: &[u8],
    map: &[u8],
    from: usize,
    plane: &[u8],
    at: usize,
    out: &mut [u8],
    to: usize,
) -> bool
    requires { (from + band ≤ length hit.now) × (from + 162 + band ≤ length map.now) × (at + band ≤ length plane.now) × (to + band ≤ length out.old) }
    ensures { Narrowed hit.now map.now from plane.now at out.old out.new to result }
{
    let mut seen: u8 = 0;
    for k in 0..BAND {
        let own = plane[at + k];
        let left = hit[from + k] & plane::other(own ^ (own & map[from + CENTRE + k]));
        out[to + k] = left;
        seen = seen | left;
    }
    seen != 0
}
