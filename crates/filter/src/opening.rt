// The opening map of a block of rows (01, One pass: which pixels are covered, for each value), extended by the edge rule.
ghost use Rattle.std.specs.Prelude.{List, [], ◌∷◌, ◌≡◌, ℕ, ◌+◌, ◌*◌, ◌≤◌, length};
ghost use Rattle.filter.specs.Code.Opening.{OpenedBy, Mapped};
ghost use Rattle.filter.specs.Code.Plane.{step, rim, Packed};
ghost use Rattle.operator.specs.Image.{IsImage};
ghost use Rattle.operator.specs.Pass.{opened};
ghost use Rattle.table.specs.declared.Table.{Table};
ghost use Rattle.table.specs.Record.{persistents};

use crate::plane::STEP;
use crate::sides::Sides;
use crate::sweep::SHIFTS;
use crate::{extend, plane, sweep};

const NEITHER: u8 = 0;

// The map of `rows` rows from `top` on, two above them and two below.
pub(crate) fn open_block(
    masks: &[u32],
    plane: &[u8],
    sides: Sides,
    top: usize,
    rows: usize,
    solid: &mut [u8],
    map: &mut [u8],
)
    requires { (1 ≤ rows) × (top + rows ≤ sides.height) × (step * (sides.height + 2 * rim) ≤ length plane.now)
        × (step * (rows + 8) ≤ length solid.old) × (step * (rows + 4) ≤ length map.old) }
    ensures { (t : Table) (img : List ℕ) → persistents t ≡ masks.now → IsImage sides.width sides.height img → Packed sides.width sides.height img plane.now
        → Mapped (opened t sides.width sides.height img) sides.width sides.height top rows map.new }
{
    plane::fill(map, 0, (rows + 4) * STEP, NEITHER);
    open_each(masks, plane, top, rows, solid, map);
    extend::extend(map, sides, top, rows);
}

// Adds to the map what is opened by each persistent element in turn.
fn open_each(masks: &[u32], plane: &[u8], top: usize, rows: usize, solid: &mut [u8], map: &mut [u8])
    requires { (step * (top + rows + 2 * rim) ≤ length plane.now) × (step * (rows + 8) ≤ length solid.old) × (step * (rows + 4) ≤ length map.old) }
    ensures { OpenedBy masks.now plane.now top rows map.old map.new }
{
    for mask in masks {
        open_for(*mask, plane, top, rows, solid, map);
    }
}

// Adds to the map what is opened by one persistent element.
fn open_for(mask: u32, plane: &[u8], top: usize, rows: usize, solid: &mut [u8], map: &mut [u8])
    requires { (step * (top + rows + 2 * rim) ≤ length plane.now) × (step * (rows + 8) ≤ length solid.old) × (step * (rows + 4) ≤ length map.old) }
    ensures { OpenedBy (mask ∷ []) plane.now top rows map.old map.new }
{
    let mut at = [0usize; SHIFTS];
    let n = sweep::shifts(mask, &mut at);
    sweep::erode(&at[..n], top * STEP, (rows + 8) * STEP - 4, plane, solid);
    sweep::dilate(&at[..n], (rows + 4) * STEP - 8, solid, map);
}
