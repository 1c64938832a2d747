// One pass over the plane, block by block: at most 64 rows at a time, so that what is read stays near.
ghost use Rattle.std.specs.Prelude.{List, ℕ, ◌+◌, ◌*◌, ◌≤◌, ◌<◌, length};
ghost use Rattle.filter.specs.Applied.{switches};
ghost use Rattle.filter.specs.Code.Blocks.{Scene, Room, Untouched, Advanced};
ghost use Rattle.filter.specs.Code.Judge.{JudgedIn};
ghost use Rattle.filter.specs.Code.Turn.{Still, Judged};
ghost use Rattle.image.specs.Size.{max_pixels};
ghost use Rattle.table.specs.declared.Table.{Table};

use crate::masks::Masks;
use crate::plane::{RIM, STEP};
use crate::scratch::Scratch;
use crate::sides::Sides;
use crate::{Changes, candidate, judge, opening, plane, rows, turn};

// Room for the erosion and for the map of a block: four and two rows more above it, and as many below.
pub(crate) const SOLID: usize = (rows::BLOCK + 8) * STEP;

pub(crate) const MAP: usize = (rows::BLOCK + 4) * STEP;

// One pass: what changes is judged, counted, and turned in the plane. The rows in which pixels changed are marked.
pub(crate) fn advance(
    masks: &Masks<'_>,
    sides: Sides,
    dirty: &[u8],
    plane: &mut [u8],
    flips: &mut [u8],
    scratch: &mut Scratch,
) -> Changes
    requires { (sides.height ≤ length dirty.now) × Room sides.height plane.old flips.old }
    ensures { (result.added ≤ max_pixels) × (result.removed ≤ max_pixels)
        × ((t : Table) (img : List ℕ) → Scene t sides.width sides.height img masks.now.elements.now masks.now.persistents.now plane.old
        → Still (switches t sides.width sides.height img) sides.width sides.height 0 dirty.now
        → Advanced t sides.width sides.height img plane.new scratch.new.changed result.added result.removed) }
{
    judge(masks, sides, dirty, plane, flips, scratch);
    turn::turn(sides.height, flips, plane, &mut scratch.changed)
}

// Judges every row that is dirty; no pixel of another row changes.
fn judge(
    masks: &Masks<'_>,
    sides: Sides,
    dirty: &[u8],
    plane: &[u8],
    flips: &mut [u8],
    scratch: &mut Scratch,
)
    requires { (sides.height ≤ length dirty.now) × Room sides.height plane.now flips.old }
    ensures { Untouched 0 sides.height flips.old flips.new scratch.old.changed scratch.new.changed
        × ((t : Table) (img : List ℕ) → Scene t sides.width sides.height img masks.now.elements.now masks.now.persistents.now plane.now
        → Still (switches t sides.width sides.height img) sides.width sides.height 0 dirty.now
        → Judged (switches t sides.width sides.height img) sides.width sides.height img flips.new scratch.new.changed) }
{
    let height = sides.height;
    plane::fill(&mut scratch.changed, RIM, height, 0);
    let mut top = rows::next_marked(dirty, height, 0);
    // kept: the next run begins where the last one ended, and an iterator of runs would hold this loop
    while top < height {
        let end = rows::next_unmarked(dirty, height, top);
        block(masks, sides, plane, top, end - top, flips, scratch);
        top = rows::next_marked(dirty, height, end);
    }
}

// Judges `rows` rows from `top` on: their opening map, the candidates in it, and what the element test leaves of them.
fn block(
    masks: &Masks<'_>,
    sides: Sides,
    plane: &[u8],
    top: usize,
    rows: usize,
    flips: &mut [u8],
    scratch: &mut Scratch,
)
    requires { (1 ≤ rows) × (rows ≤ 64) × (top + rows ≤ sides.height) × Room sides.height plane.now flips.old }
    ensures { Untouched top rows flips.old flips.new scratch.old.changed scratch.new.changed
        × ((t : Table) (img : List ℕ) → Scene t sides.width sides.height img masks.now.elements.now masks.now.persistents.now plane.now
        → JudgedIn (switches t sides.width sides.height img) sides.width top (top + rows) img flips.new scratch.new.changed) }
{
    let Scratch {
        solid,
        map,
        changed,
    } = scratch;
    opening::open_block(masks.persistents, plane, sides, top, rows, solid, map);
    candidate::candidates(masks, rows * STEP - 4, map, solid);
    judge::confirm_rows(masks, solid, map, plane, top, rows, flips, changed);
}
