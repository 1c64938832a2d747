// The job record, the quota and what the calls on a job answer. No code: the definitions of the calls and demand 3.
#![tactic(auto)]

use image::strip::{PartCounts, Strip};
use table::Table;
use verdict::Refusal;

// The C interface's record, so its stage is a number: 0 empty, 1 loaded, 2 stable (01: at rest). An empty record has every field zero. A single image
// has one part (02, T-08); places past the parts are 0.
#[repr(C)]
#[derive(Clone, Copy, PartialEq, Eq)]
pub struct Job {
    pub stage: u8,
    pub width: usize,
    pub height: usize,
    pub passes: usize,
    pub added: usize,
    pub removed: usize,
    pub table: Table,
    pub strip: Strip,
    pub counts: PartCounts,
}

// What a pass or a run did: 01's "changed" and "at rest".
#[derive(Clone, Copy, PartialEq, Eq)]
pub enum Effect {
    Changed,
    Stable,
}

pub type Passed = Result<Effect, Refusal>;

// Black now less black at load, and the black pixels in thousandths of all.
#[derive(Clone, Copy, PartialEq, Eq)]
pub struct Figures {
    pub balance: i64,
    pub cover: usize,
}

pub type Figured = Result<Figures, Refusal>;

pub const MAX_CHANNELS: usize = 4;

// An allowance of passes that up to four channels share (02, T-10: a round, its lanes). Each channel, counted from 1, has a reserve (02: its floor),
// of which `left` is left; what the reserves leave of the allowance is the pool. The C interface has the struct as it is.
#[repr(C)]
#[derive(Clone, Copy)]
pub struct Quota {
    pub channels: usize,
    pub allowance: usize,
    pub reserves: [usize; MAX_CHANNELS],
    pub left: [usize; MAX_CHANNELS],
    pub pool: usize,
}
