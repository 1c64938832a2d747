// The memory that passes work in, for the largest image and for one of a block's rows. Each by a call, so that a proof knows its length only.
ghost use Rattle.std.specs.Prelude.{ℕ, ◌*◌, ◌<◌, ◌≡◌, get_or};
ghost use Rattle.image.specs.Size.{max_side};

use crate::blocks::{MAP, SOLID};
use crate::plane::{BAND, RIM, STEP};
use crate::rows::BLOCK;
use image::size::MAX_SIDE;

// Rows with six more above and six below.
pub(crate) const ROWS: usize = MAX_SIDE + RIM + RIM;

pub(crate) const PLANE: usize = ROWS * STEP;

pub(crate) const FLIPS: usize = MAX_SIDE * BAND;

// For an image of at most a block's rows: less to clear.
pub(crate) const LOW_PLANE: usize = (BLOCK + RIM + RIM) * STEP;

pub(crate) const LOW_FLIPS: usize = BLOCK * BAND;

pub(crate) fn plane() -> [u8; PLANE] {
    [0u8; PLANE]
}

pub(crate) fn flips() -> [u8; FLIPS] {
    [0u8; FLIPS]
}

pub(crate) fn low_plane() -> [u8; LOW_PLANE] {
    [0u8; LOW_PLANE]
}

pub(crate) fn low_flips() -> [u8; LOW_FLIPS] {
    [0u8; LOW_FLIPS]
}

// What a pass makes of a block, and the marks of the rows that change.
#[derive(Drop)]
pub(crate) struct Scratch {
    pub solid: [u8; SOLID],
    pub map: [u8; MAP],
    pub changed: [u8; ROWS],
}

impl Scratch {
    pub(crate) fn new() -> Scratch {
        Scratch {
            solid: [0u8; SOLID],
            map: [0u8; MAP],
            changed: [0u8; ROWS],
        }
    }
}

// Rows to be judged, and rows to be written.
#[derive(Drop)]
pub(crate) struct Marks {
    pub dirty: [u8; MAX_SIDE],
    pub stale: [u8; MAX_SIDE],
}

impl Marks {
    pub(crate) fn all() -> Marks
        ensures { ((i : ℕ) → i < max_side → get_or result.dirty i 0 ≡ 1) × ((i : ℕ) → i < max_side → get_or result.stale i 0 ≡ 1) }
    {
        Marks {
            dirty: all_rows(),
            stale: all_rows(),
        }
    }
}

// Every row is marked.
pub(crate) fn all_rows() -> [u8; MAX_SIDE]
    ensures { (i : ℕ) → i < max_side → get_or result i 0 ≡ 1 }
{
    [1u8; MAX_SIDE]
}
