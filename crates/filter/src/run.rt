// Passes one after the other over two areas, on one plane. Only rows near to a change are judged again, and only rows that changed are written.
ghost use Rattle.std.specs.Prelude.{true, ◌≡◌, ℕ, ◌+◌, ◌*◌, ◌≤◌, ◌<◌, length, take};
ghost use Rattle.filter.specs.Code.Blocks.{Room};
ghost use Rattle.filter.specs.Code.Plane.{step, rim};
ghost use Rattle.filter.specs.Code.Run.{trail_of, Running, RunRoom, Followed, Put, Settled, overruns, Within, Went};
ghost use Rattle.filter.specs.Repeated.{Trail, begin};
ghost use Rattle.operator.specs.Image.{IsImage};
ghost use Rattle.seq.specs.Lists.{all};
ghost use Rattle.table.specs.declared.Table.{Table};
ghost use Rattle.table.specs.Mask.{valid_mask};
ghost use Rattle.table.specs.Record;
ghost use Rattle.table.specs.Record.{max_elements, record_verdict};

use crate::candidate::PARTS;
use crate::masks::Masks;
use crate::plane::RIM;
use crate::scratch::{Marks, ROWS, Scratch};
use crate::sides::Sides;
use crate::{Budget, Changes, End, Repeated, blocks, candidate, plane, rows, scratch, show};

// From the image at the front of `first`. The plane and the flips are for a block's rows where the image has no more, else for the most.
pub(crate) fn run(
    elements: &[u32],
    persistents: &[u32],
    sides: Sides,
    budget: Budget,
    first: &mut [u8],
    second: &mut [u8],
) -> Repeated
    requires { (all valid_mask elements.now ≡ true) × (length elements.now ≤ max_elements) × IsImage sides.width sides.height (take (sides.width * sides.height) first.old)
        × (sides.width * sides.height ≤ length first.old) × (sides.width * sides.height ≤ length second.old) }
    ensures { Followed elements.now persistents.now sides.width sides.height budget (begin first.old second.old) result
        first.new second.new }
{
    let mut parts = [0usize; PARTS];
    let tests = candidate::parts_of(elements, &mut parts);
    let masks = Masks {
        elements,
        persistents,
        parts: &parts[..tests],
    };
    if sides.height <= rows::BLOCK {
        let mut plane = scratch::low_plane();
        let mut flips = scratch::low_flips();
        start(&masks, sides, budget, &mut plane, &mut flips, first, second)
    } else {
        let mut plane = scratch::plane();
        let mut flips = scratch::flips();
        start(&masks, sides, budget, &mut plane, &mut flips, first, second)
    }
}

// The image becomes a plane, and every row is to be judged and to be written.
fn start(
    masks: &Masks<'_>,
    sides: Sides,
    budget: Budget,
    plane: &mut [u8],
    flips: &mut [u8],
    first: &mut [u8],
    second: &mut [u8],
) -> Repeated
    requires { IsImage sides.width sides.height (take (sides.width * sides.height) first.old)
        × (sides.width * sides.height ≤ length first.old) × (sides.width * sides.height ≤ length second.old) × Room sides.height plane.old flips.old }
    ensures { Followed masks.now.elements.now masks.now.persistents.now sides.width sides.height budget (begin first.old second.old) result
        first.new second.new }
{
    let mut scratch = Scratch::new();
    let mut marks = Marks::all();
    let pixels = sides.width * sides.height;
    plane::pack(&first[..pixels], sides, plane);
    repeat(
        masks,
        sides,
        budget,
        plane,
        flips,
        &mut scratch,
        &mut marks,
        first,
        second,
    )
}

// Rows that are not dirty do not change in the next pass. Rows that are not stale have the image's pixels in the area that does not hold it.
fn repeat(
    masks: &Masks<'_>,
    sides: Sides,
    budget: Budget,
    plane: &mut [u8],
    flips: &mut [u8],
    scratch: &mut Scratch,
    marks: &mut Marks,
    first: &mut [u8],
    second: &mut [u8],
) -> Repeated
    requires { RunRoom sides.width sides.height plane.old flips.old first.old second.old
        × ((t : Table) → Record.masks t ≡ masks.now.elements.now → Record.persistents t ≡ masks.now.persistents.now
        → Running t sides.width sides.height budget (begin first.old second.old) masks.now.elements.now masks.now.persistents.now plane.old marks.old.dirty marks.old.stale (begin first.old second.old)) }
    ensures { Followed masks.now.elements.now masks.now.persistents.now sides.width sides.height budget (begin first.old second.old) result
        first.new second.new }
{
    let mut added = 0;
    let mut removed = 0;
    for passes in 0..budget.limit {
        let turn = once(
            masks,
            sides,
            budget,
            passes,
            added + removed,
            plane,
            flips,
            scratch,
            marks,
            first,
            second,
        );
        match turn {
            Ok(changes) => {
                added += changes.added;
                removed += changes.removed;
            }
            Err(end) => {
                return Repeated {
                    passes,
                    added,
                    removed,
                    end,
                };
            }
        }
    }
    Repeated {
        passes: budget.limit,
        added,
        removed,
        end: End::Limit,
    }
}

// One pass after `passes` of them, which changed `used` pixels: the pixels that it changed, or why the passes end before it. Where the budget does not allow
// it, nothing is written but scratch memory.
fn once(
    masks: &Masks<'_>,
    sides: Sides,
    budget: Budget,
    passes: usize,
    used: usize,
    plane: &mut [u8],
    flips: &mut [u8],
    scratch: &mut Scratch,
    marks: &mut Marks,
    first: &mut [u8],
    second: &mut [u8],
) -> Result<Changes, End>
    requires { (used ≤ budget.room) × RunRoom sides.width sides.height plane.old flips.old first.old second.old }
    ensures { Within budget used result × ((t : Table) (c₀ : Trail) (x y : ℕ) → used ≡ x + y → passes < budget.limit → record_verdict t ≡ Ok tt
        → Running t sides.width sides.height budget c₀ masks.now.elements.now masks.now.persistents.now plane.old marks.old.dirty marks.old.stale
        (trail_of first.old second.old passes x y)
        → Went t sides.width sides.height budget c₀ masks.now.elements.now masks.now.persistents.now passes x y result plane.new marks.new.dirty marks.new.stale
        first.new second.new) }
{
    let made = blocks::advance(masks, sides, &marks.dirty, plane, flips, scratch);
    let count = made.added + made.removed;
    if count == 0 {
        put(passes, sides, &marks.stale, plane, first, second);
        return Err(End::Stable);
    }
    if is_over(budget, passes, used, count) {
        return Err(End::Full);
    }
    settle(passes, sides, plane, &scratch.changed, marks, first, second);
    Ok(made)
}

// Whether a pass that changes `count` pixels is one that the budget does not allow.
fn is_over(budget: Budget, passes: usize, used: usize, count: usize) -> bool
    requires { used ≤ budget.room }
    ensures { result ≡ overruns budget passes used count }
{
    budget.most <= passes || budget.room - used < count
}

// After a pass that changed pixels: the new image goes to the other area, and the marks are made for the next pass.
fn settle(
    passes: usize,
    sides: Sides,
    plane: &[u8],
    changed: &[u8; ROWS],
    marks: &mut Marks,
    first: &mut [u8],
    second: &mut [u8],
)
    requires { (step * (sides.height + 2 * rim) ≤ length plane.now) × (sides.width * sides.height ≤ length first.old) × (sides.width * sides.height ≤ length second.old) }
    ensures { Settled passes sides.width sides.height plane.now changed.now marks.old.dirty marks.new.dirty marks.old.stale marks.new.stale
        first.old second.old first.new second.new }
{
    rows::join(changed, RIM, &mut marks.stale, sides.height);
    put(passes, sides, &marks.stale, plane, first, second);
    plane::copy(changed, RIM, &mut marks.stale, 0, sides.height);
    rows::spread(changed, sides.height, &mut marks.dirty);
}

// The marked rows go to the area that does not hold the image.
fn put(passes: usize, sides: Sides, marks: &[u8], plane: &[u8], first: &mut [u8], second: &mut [u8])
    requires { (sides.height ≤ length marks.now) × (step * (sides.height + 2 * rim) ≤ length plane.now)
        × (sides.width * sides.height ≤ length first.old) × (sides.width * sides.height ≤ length second.old) }
    ensures { Put passes sides.width sides.height marks.now plane.now first.old second.old
        first.new second.new }
{
    if passes % 2 == 0 {
        show::show(sides, marks, plane, second);
    } else {
        show::show(sides, marks, plane, first);
    }
}
