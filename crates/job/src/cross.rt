// Passes over a strip at stage 1 (02, T-08), one after the other. Each is counted before a byte of an area is written, as far as 14's pass clause needs it.
ghost use Rattle.std.specs.Prelude.{◌≡◌, ◌+◌, ◌≤◌};
ghost use Rattle.history.specs.Pass.{pass_loaded};
ghost use Rattle.history.specs.State.{pixels};
ghost use Rattle.image.specs.Strip.{max_strip};
ghost use Rattle.job.specs.Core.{at};
ghost use Rattle.job.specs.Code.Passes.{made, room_of, done_on, Made, Running};

use crate::step;
use crate::step::Done;
use filter::{Crossed, End};
use history::{Effect, Job, Passed};

// At most `limit` passes that change pixels.
pub(crate) fn advance(job: &mut Job, limit: usize, first: &mut [u8], second: &mut [u8]) -> Passed
    requires { Running (at job.old first.old second.old) }
    ensures { Made (made limit (at job.old first.old second.old)) result job.new first.new second.new }
{
    for _passes in 0..limit {
        match pass(job, first, second)? {
            Effect::Changed => {}
            Effect::Stable => return Ok(Effect::Stable),
        }
    }
    Ok(Effect::Changed)
}

// One pass, from the area that holds the image. The filter refuses none, since a sound record's strip and areas fit.
fn pass(job: &mut Job, first: &mut [u8], second: &mut [u8]) -> Passed
    requires { Running (at job.old first.old second.old) }
    ensures { Made (pass_loaded (at job.old first.old second.old)) result job.new first.new second.new }
{
    let pixels = job.width * job.height;
    let room = room_of(job);
    if job.passes % 2 == 0 {
        let crossed = filter::strip::pass(job.table, job.strip, room, &first[..pixels], second)?;
        step::conclude(job, done(crossed))
    } else {
        let crossed = filter::strip::pass(job.table, job.strip, room, &second[..pixels], first)?;
        step::conclude(job, done(crossed))
    }
}

// The pixels that 14's pass clause lets a pass change: none where no pass is left.
fn room_of(job: &Job) -> usize
    requires { (pixels job.now ≤ max_strip) × (job.now.added + job.now.removed ≤ pixels job.now) }
    ensures { result ≡ room_of job.now }
{
    let pixels = job.width * job.height;
    if job.passes < pixels {
        return pixels - (job.added + job.removed);
    }
    0
}

// The filter's pass over the strip.
fn done(crossed: Crossed) -> Done
    ensures { result ≡ done_on crossed }
{
    let end = crossed.end;
    let parts = crossed.parts;
    let passes = match end {
        End::Limit => 1,
        End::Stable => 0,
        End::Full => 0,
    };
    Done {
        passes,
        added: crossed.added,
        removed: crossed.removed,
        parts,
        end,
    }
}
