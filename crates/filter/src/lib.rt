// The modified switch operator on images.
#![tactic(auto)]

pub mod apply;
mod blocks;
mod candidate;
mod elements;
mod extend;
mod judge;
mod masks;
mod opening;
mod plane;
pub mod preview;
mod rows;
mod run;
mod scratch;
mod show;
mod sides;
pub mod strip;
mod sweep;
mod tally;
mod turn;
mod window;

use image::strip::PartCounts;
use verdict::Refusal;

// The pixels that went from 0 to 1 and from 1 to 0.
#[derive(Clone, Copy, PartialEq, Eq)]
pub struct Changes {
    pub added: usize,
    pub removed: usize,
}

// What one pass answers.
pub type Filtered = Result<Changes, Refusal>;

// What passes one after the other may do.
#[derive(Clone, Copy)]
pub struct Budget {
    pub limit: usize, // passes that change pixels, after which they stop
    pub most: usize, // passes that change pixels: one more is not made
    pub room: usize, // pixels that they change: a pass with which there are more is not made
}

// Why they end: nothing changes; the limit is reached; `most` or `room` would be exceeded.
#[derive(Clone, Copy, PartialEq, Eq)]
pub enum End {
    Stable,
    Limit,
    Full,
}

// The passes that changed pixels, and the pixels that went from 0 to 1 and from 1 to 0 in them.
#[derive(Clone, Copy)]
pub struct Repeated {
    pub passes: usize,
    pub added: usize,
    pub removed: usize,
    pub end: End,
}

// One pass over a strip: the pixels that went from 0 to 1 and from 1 to 0, in all and of each part, and how it ended. Where there is no room for it, all are 0.
#[derive(Clone, Copy)]
pub struct Crossed {
    pub added: usize,
    pub removed: usize,
    pub parts: PartCounts,
    pub end: End,
}
