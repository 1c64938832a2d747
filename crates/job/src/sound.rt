// When a job record is unsound with its areas (01: 14), and ready for a call (14, 16).
ghost use Rattle.std.specs.Prelude.{not, ◌≡◌, ◌+◌, eqb, ltb};
ghost use Rattle.history.specs.State.{ready_verdict};
ghost use Rattle.job.specs.Core.{at};
ghost use Rattle.seq.specs.Lists.{any, all};

use crate::{area, parts};
use history::Job;
use verdict::{Rule, Verdict};

// The stages are numbers, since the C interface has the record as it is.
pub(crate) const EMPTY: u8 = 0;

pub(crate) const LOADED: u8 = 1;

pub(crate) const STABLE: u8 = 2;

// What pass, run, view and figures begin with: 14, 16.
pub(crate) fn ready(job: &Job, first: &[u8], second: &[u8]) -> Verdict
    ensures { result ≡ ready_verdict (at job.now first.now second.now) }
{
    if is_unsound(job, first, second) {
        return verdict::refused(Rule::Unsound, 0);
    }
    if job.stage == EMPTY {
        return verdict::refused(Rule::NothingLoaded, 0);
    }
    Ok(())
}

// 14, without its pass clause.
pub(crate) fn is_unsound(job: &Job, first: &[u8], second: &[u8]) -> bool
    ensures { result ≡ Rattle.history.specs.State.unsound (at job.now first.now second.now) }
{
    let stage = job.stage;
    if STABLE < stage {
        return true;
    }
    if stage == EMPTY {
        return is_nonzero(job);
    }
    is_inconsistent(job, first, second)
}

// What 14 asks at stage 1 and 2.
fn is_inconsistent(job: &Job, first: &[u8], second: &[u8]) -> bool
    ensures { result ≡ Rattle.history.specs.State.inconsistent (at job.now first.now second.now) }
{
    if parts::are_bad(job) {
        return true;
    }
    if let Err(_) = table::check(job.table) {
        return true;
    }
    let pixels = job.width * job.height;
    if first.len() < pixels {
        return true;
    }
    if second.len() < pixels {
        return true;
    }
    if any_above_one(area::image(job, first, second)) {
        return true;
    }
    if pixels < job.passes {
        return true;
    }
    is_sum_above(pixels, job.added, job.removed)
}

// Stage 0 with a nonzero field. The join of the numbers is 0 exactly when each of them is.
fn is_nonzero(job: &Job) -> bool
    ensures { result ≡ Rattle.history.specs.State.nonzero job.now }
{
    let sizes = job.width | job.height | job.passes;
    let counts = job.added | job.removed | job.table.count | job.table.ranks | job.strip.parts;
    if sizes | counts != 0 {
        return true;
    }
    if any_set(&job.table.persistents) {
        return true;
    }
    if any_set(&job.table.elements) {
        return true;
    }
    parts::any_past(job, 0)
}

// Beside `parts::any_set`, since masks are of another type: a generic one would need a trait with a zero, for one line.
fn any_set(masks: &[u32]) -> bool
    ensures { result ≡ not (all (eqb 0) masks.now) }
{
    masks.iter().any(|mask| *mask != 0)
}

// A byte is above 1. Without a way out of the loop, so that many bytes are joined at once.
fn any_above_one(bytes: &[u8]) -> bool
    ensures { result ≡ any (ltb 1) bytes.now }
{
    let mut seen: u8 = 0;
    for byte in bytes {
        seen |= *byte;
    }
    1 < seen
}

// added + removed is above the limit, without a sum that could wrap.
fn is_sum_above(limit: usize, added: usize, removed: usize) -> bool
    ensures { result ≡ ltb limit (added + removed) }
{
    if limit < added {
        return true;
    }
    limit - added < removed
}
