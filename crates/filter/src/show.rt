// The plane's rows as pixels again.
ghost use Rattle.std.specs.Prelude.{List, ℕ, ◌+◌, ◌-◌, ◌*◌, ◌≤◌};
ghost use Rattle.std.proofs.Math.ListN.{length};
ghost use Rattle.filter.specs.Code.Plane.{band, step, rim, Packed, Shown};
ghost use Rattle.filter.specs.Code.Show.{unfolded};
ghost use Rattle.image.specs.Size.{max_side};
ghost use Rattle.operator.specs.Image.{IsImage};
ghost use Rattle.seq.specs.Loops.{Swept};

use crate::plane;
use crate::plane::{BAND, HALO, RIM, STEP};
use crate::sides::Sides;
use image::size::MAX_SIDE;

// The image's pixels in each row that is marked; all else stays.
pub(crate) fn show(sides: Sides, marks: &[u8], plane: &[u8], out: &mut [u8])
    requires { (sides.height ≤ length marks.now) × (step * (sides.height + 2 * rim) ≤ length plane.now) × (sides.width * sides.height ≤ length out.old) }
    ensures { (img : List ℕ) → IsImage sides.width sides.height img → Packed sides.width sides.height img plane.now
        → Shown sides.width sides.height img marks.now out.old out.new }
{
    let Sides { width, height } = sides;
    let mut from = RIM * STEP + HALO;
    let mut to = 0;
    for row in 0..height {
        if marks[row] != 0 {
            show_row(plane, from, width, out, to);
        }
        from += STEP;
        to += width;
    }
}

fn show_row(plane: &[u8], from: usize, width: usize, out: &mut [u8], to: usize)
    requires { (width ≤ max_side) × (from + band ≤ length plane.now) × (to + width ≤ length out.old) }
    ensures { Swept (λ j. unfolded plane.now from (j - to)) out.old out.new to (to + width) }
{
    if width == MAX_SIDE {
        unfold(plane, from, out, to);
    } else {
        let mut line = [0u8; MAX_SIDE];
        unfold(plane, from, &mut line, 0);
        plane::copy(&line, 0, out, to, width);
    }
}

// 64 bytes of codes as 256 pixels.
fn unfold(plane: &[u8], from: usize, out: &mut [u8], to: usize)
    requires { (from + band ≤ length plane.now) × (to + max_side ≤ length out.old) }
    ensures { Swept (λ j. unfolded plane.now from (j - to)) out.old out.new to (to + max_side) }
{
    for k in 0..BAND {
        let codes = plane[from + k];
        out[to + k] = (codes >> 1) % 2;
        out[to + 64 + k] = (codes >> 3) % 2;
        out[to + 128 + k] = (codes >> 5) % 2;
        out[to + 192 + k] = codes >> 7;
    }
}
