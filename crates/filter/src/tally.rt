// What differs between pixels and those that they become.
ghost use Rattle.std.specs.Prelude.{◌&&◌, ◌≡◌, ◌+◌, ◌≤◌, ◌<◌, eqb, length};
ghost use Rattle.filter.specs.Code.Strip.{Counted};
ghost use Rattle.seq.specs.Lists.{one};

use crate::Changes;

// Pixels that are compared at once: the count of so many fits a byte.
const BLOCK: usize = 64;

// How many of the `count` pixels of `old` from `from` on go from 0 to 1, and how many from 1 to 0, in those of `new` from `at` on.
pub(crate) fn tally(old: &[u8], from: usize, new: &[u8], at: usize, count: usize) -> Changes
    requires { (from + count ≤ length old.now) × (at + count ≤ length new.now) }
    ensures { Counted old.now from new.now at count result.added result.removed }
{
    let mut added: usize = 0;
    let mut removed: usize = 0;
    let blocks = count / BLOCK;
    for k in 0..blocks {
        let done = BLOCK * k;
        let block = tally_block(old, from + done, new, at + done, BLOCK);
        added += block.added;
        removed += block.removed;
    }
    let done = BLOCK * blocks;
    let rest = tally_block(old, from + done, new, at + done, count - done);
    Changes {
        added: added + rest.added,
        removed: removed + rest.removed,
    }
}

// The sums are bytes, so that many bytes are compared and added at once.
fn tally_block(old: &[u8], from: usize, new: &[u8], at: usize, count: usize) -> Changes
    requires { (from + count ≤ length old.now) × (at + count ≤ length new.now) × (count < 256) }
    ensures { Counted old.now from new.now at count result.added result.removed }
{
    let mut more: u8 = 0;
    let mut less: u8 = 0;
    for k in 0..count {
        let a = old[from + k];
        let b = new[at + k];
        more = more + turns(a, b, 0, 1);
        less = less + turns(a, b, 1, 0);
    }
    Changes {
        added: usize::from(more),
        removed: usize::from(less),
    }
}

// Whether a pixel goes from one value to another.
fn turns(a: u8, b: u8, source: u8, target: u8) -> u8
    ensures { (result ≡ one (eqb a source && eqb b target)) × (result ≤ 1) }
{
    u8::from(a == source && b == target)
}
