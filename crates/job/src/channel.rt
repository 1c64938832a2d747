// A channel's pass and run (02, T-10: those of a lane), on a job whose passes at stage 1 a quota pays for. The quota goes in by value and comes back
// in the answer, also in a refused one: as it was, less the passes that a run finished.
ghost use Rattle.std.specs.Prelude.{◌≡◌};
ghost use Rattle.history.specs.Channel.{channel_pass_of, channel_run_of};
ghost use Rattle.history.specs.Quota.{channel_rule};
ghost use Rattle.history.specs.State.{ready_verdict};
ghost use Rattle.job.specs.Channels.{metered};
ghost use Rattle.job.specs.Code.Channels.{quietly, stopped_at, metering, metering_at_most, MadeBy};
ghost use Rattle.job.specs.Code.Passes.{Running};
ghost use Rattle.job.specs.Core.{at};
ghost use Rattle.verdict.specs.Rules.{or_else};

use crate::{quota, sound, step};
use history::{Effect, Job, Passed, Quota};
use verdict::{Rule, Verdict};

// No Result, since the quota comes back in a refused answer too (02, T-10).
#[derive(Clone, Copy)]
pub struct Metered {
    pub answer: Passed,
    pub quota: Quota,
}

// A channel's pass: 25, 14, 16; then at stage 1 24, and one pass.
pub fn pass(
    job: &mut Job,
    quota: Quota,
    channel: usize,
    first: &mut [u8],
    second: &mut [u8],
) -> Metered
    ensures { (result ≡ metered (channel_pass_of quota channel (at job.old first.old second.old)))
        × (job.new ≡ (channel_pass_of quota channel (at job.old first.old second.old)).state.job)
        × (first.new ≡ (channel_pass_of quota channel (at job.old first.old second.old)).state.first)
        × (second.new ≡ (channel_pass_of quota channel (at job.old first.old second.old)).state.second) }
{
    passes(job, quota, channel, 1, first, second)
}

// A channel's run: the same, with passes until one answers "at rest" or is refused. The finished ones stay.
pub fn run(
    job: &mut Job,
    quota: Quota,
    channel: usize,
    first: &mut [u8],
    second: &mut [u8],
) -> Metered
    ensures { (result ≡ metered (channel_run_of quota channel (at job.old first.old second.old)))
        × (job.new ≡ (channel_run_of quota channel (at job.old first.old second.old)).state.job)
        × (first.new ≡ (channel_run_of quota channel (at job.old first.old second.old)).state.first)
        × (second.new ≡ (channel_run_of quota channel (at job.old first.old second.old)).state.second) }
{
    let limit = step::most(job);
    passes(job, quota, channel, limit, first, second)
}

// What both do, with at most `limit` passes that change pixels.
fn passes(
    job: &mut Job,
    quota: Quota,
    channel: usize,
    limit: usize,
    first: &mut [u8],
    second: &mut [u8],
) -> Metered
    ensures { MadeBy (metering_at_most limit quota channel (at job.old first.old second.old)) result job.new first.new second.new }
{
    if let Err(refusal) = admit(job, quota, channel, first, second) {
        return Metered {
            answer: Err(refusal),
            quota,
        };
    }
    if job.stage == sound::STABLE {
        return Metered {
            answer: Ok(Effect::Stable),
            quota,
        };
    }
    advance(job, quota, channel, limit, first, second)
}

// 25, 14, 16.
fn admit(job: &Job, quota: Quota, channel: usize, first: &[u8], second: &[u8]) -> Verdict
    ensures { result ≡ or_else (channel_rule quota channel) (ready_verdict (at job.now first.now second.now)) }
{
    quota::check(quota, channel)?;
    sound::ready(job, first, second)
}

// At stage 1: no more passes than the channel has left. What they took is paid.
fn advance(
    job: &mut Job,
    quota: Quota,
    channel: usize,
    limit: usize,
    first: &mut [u8],
    second: &mut [u8],
) -> Metered
    requires { Running (at job.old first.old second.old) × (channel_rule quota channel ≡ Ok tt) }
    ensures { MadeBy (metering limit quota channel (at job.old first.old second.old)) result job.new first.new second.new }
{
    let allowed = quota::within(quota, channel, limit);
    let before = job.passes;
    let answer = step::advance(job, allowed, first, second);
    let spent = job.passes - before + quiet(answer);
    Metered {
        answer: stopped(allowed < limit, channel, answer),
        quota: quota::charge(quota, channel, spent),
    }
}

// The quiet pass of an answer: the record does not count it, and the quota does.
fn quiet(answer: Passed) -> usize
    ensures { result ≡ quietly answer }
{
    match answer {
        Ok(Effect::Stable) => 1,
        Ok(Effect::Changed) => 0,
        Err(_) => 0,
    }
}

// 24 where the passes ended for want of one.
fn stopped(is_short: bool, channel: usize, answer: Passed) -> Passed
    ensures { result ≡ stopped_at is_short channel answer }
{
    match answer {
        Ok(Effect::Stable) => Ok(Effect::Stable),
        Err(refusal) => Err(refusal),
        Ok(Effect::Changed) => {
            if is_short {
                return verdict::refused(Rule::AllowanceSpent, channel);
            }
            Ok(Effect::Changed)
        }
    }
}
