// Passes on a job (01, The job), on a single image or on a strip. The filter makes them, and only where 14's pass clause does not hold.
ghost use Rattle.std.specs.Prelude.{◌≡◌, ◌+◌, ◌≤◌};
ghost use Rattle.history.specs.State.{pixels};
ghost use Rattle.image.specs.Strip.{max_strip};
ghost use Rattle.job.specs.Core.{at};
ghost use Rattle.job.specs.Code.Passes.{made, at_most, allowed, answer_of, done_on_one, after_done, Fit, Made, Places, Running};

use crate::{cross, parts, sound};
use filter::{Budget, End, Repeated, apply};
use history::{Effect, Job, Passed};
use image::strip::PartCounts;
use verdict::Rule;

// What the filter did: the passes that changed pixels, the pixels in all and of each part, and why it ended.
#[derive(Clone, Copy)]
pub(crate) struct Done {
    pub passes: usize,
    pub added: usize,
    pub removed: usize,
    pub parts: PartCounts,
    pub end: End,
}

// More passes than 14's pass clause lets a sound record have.
pub(crate) fn most(job: &Job) -> usize
    ensures { pixels job.now ≤ max_strip → result ≡ pixels job.now + 1 }
{
    job.width.saturating_mul(job.height).saturating_add(1)
}

// 14, 16; then at stage 2 nothing, and at stage 1 at most `limit` passes that change pixels. The record is checked once.
pub(crate) fn passes(job: &mut Job, limit: usize, first: &mut [u8], second: &mut [u8]) -> Passed
    ensures { Made (at_most limit (at job.old first.old second.old)) result job.new first.new second.new }
{
    sound::ready(job, first, second)?;
    if job.stage == sound::STABLE {
        return Ok(Effect::Stable);
    }
    advance(job, limit, first, second)
}

// At stage 1.
pub(crate) fn advance(job: &mut Job, limit: usize, first: &mut [u8], second: &mut [u8]) -> Passed
    requires { Running (at job.old first.old second.old) }
    ensures { Made (made limit (at job.old first.old second.old)) result job.new first.new second.new }
{
    if job.strip.parts == 1 {
        repeat(job, limit, first, second)
    } else {
        cross::advance(job, limit, first, second)
    }
}

// A single image: all of them at once, from the area that holds it. The filter refuses none, since a sound record's size and areas fit.
fn repeat(job: &mut Job, limit: usize, first: &mut [u8], second: &mut [u8]) -> Passed
    requires { Running (at job.old first.old second.old) × (job.old.strip.parts ≡ 1) }
    ensures { Made (made limit (at job.old first.old second.old)) result job.new first.new second.new }
{
    let budget = allow(job, limit);
    if job.passes % 2 == 0 {
        let repeated = apply::repeat(job.table, job.width, job.height, budget, first, second)?;
        conclude(job, of_one(repeated))
    } else {
        let repeated = apply::repeat(job.table, job.width, job.height, budget, second, first)?;
        conclude(job, of_one(repeated))
    }
}

// The filter's passes on a single image.
fn of_one(repeated: Repeated) -> Done
    ensures { result ≡ done_on_one repeated }
{
    let end = repeated.end;
    Done {
        passes: repeated.passes,
        added: repeated.added,
        removed: repeated.removed,
        parts: parts::of_one(repeated.added, repeated.removed),
        end,
    }
}

// What 14's pass clause leaves: passes, and pixels that they change, up to the pixels of the image.
fn allow(job: &Job, limit: usize) -> Budget
    requires { (pixels job.now ≤ max_strip) × (job.now.passes ≤ pixels job.now) × (job.now.added + job.now.removed ≤ pixels job.now) }
    ensures { result ≡ allowed job.now limit }
{
    let pixels = job.width * job.height;
    Budget {
        limit,
        most: pixels - job.passes,
        room: pixels - (job.added + job.removed),
    }
}

// The record after the filter's passes: only rest alters the stage.
pub(crate) fn conclude(job: &mut Job, done: Done) -> Passed
    requires { (job.old.passes + done.passes ≤ max_strip) × (job.old.added + done.added ≤ max_strip) × (job.old.removed + done.removed ≤ max_strip)
        × Fit job.old.counts done.parts }
    ensures { (result ≡ answer_of done.end) × (job.new ≡ after_done job.old done) × Places job.old }
{
    job.passes += done.passes;
    job.added += done.added;
    job.removed += done.removed;
    job.counts = parts::summed(job.counts, done.parts);
    match done.end {
        End::Stable => {
            job.stage = sound::STABLE;
            Ok(Effect::Stable)
        }
        End::Limit => Ok(Effect::Changed),
        End::Full => verdict::refused(Rule::Unsound, 0),
    }
}
