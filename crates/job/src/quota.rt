// A quota (02, T-10: a round): opening it, 25 where a call is handed one, and what a call may take from it and takes.
ghost use Rattle.std.specs.Prelude.{◌≡◌, ◌≤◌, ◌<◌, min, get_or};
ghost use Rattle.history.specs.Quota.{max_channels, kept, channel_rule, available, charged_for};
ghost use Rattle.job.specs.Channels.{opened};
ghost use Rattle.job.specs.Code.Channels.{opened_with};

use history::{MAX_CHANNELS, Quota};
use verdict::{Rule, Verdict};

// No Result, since a refused quota comes back too (02, T-10).
#[derive(Clone, Copy)]
pub struct Opened {
    pub answer: Verdict,
    pub quota: Quota,
}

// A first round is opened from a record that has its channels, allowance and reserves filled in, a new one from the last one (02: it restores the
// allowance). What the reserves leave is counted down, so that no sum of them wraps.
pub fn open(quota: Quota) -> Opened
    ensures { result ≡ opened quota }
{
    // A quota of 1 to 4 channels is one that has its last channel.
    if let Err(refusal) = check(quota, quota.channels) {
        return Opened {
            answer: Err(refusal),
            quota,
        };
    }
    let mut left = [0usize; MAX_CHANNELS];
    let mut pool = quota.allowance;
    for i in 0..MAX_CHANNELS {
        let reserve = reserve_at(quota, i);
        if pool < reserve {
            return Opened {
                answer: verdict::refused(Rule::QuotaRange, 0),
                quota,
            };
        }
        pool -= reserve;
        left[i] = reserve;
    }
    accepted(quota, left, pool)
}

// The quota with all of its allowance left.
fn accepted(quota: Quota, reserves: [usize; MAX_CHANNELS], pool: usize) -> Opened
    ensures { result ≡ opened_with quota reserves pool }
{
    Opened {
        answer: Ok(()),
        quota: Quota {
            channels: quota.channels,
            allowance: quota.allowance,
            reserves,
            left: reserves,
            pool,
        },
    }
}

// The reserve at a place; those past the channels are unread.
fn reserve_at(quota: Quota, i: usize) -> usize
    requires { i < max_channels }
    ensures { result ≡ get_or (kept quota) i 0 }
{
    if i < quota.channels {
        quota.reserves[i]
    } else {
        0
    }
}

// 25 where a call is handed a quota of too many channels, or one without this channel.
pub(crate) fn check(quota: Quota, channel: usize) -> Verdict
    ensures { result ≡ channel_rule quota channel }
{
    if MAX_CHANNELS < quota.channels || channel < 1 || quota.channels < channel {
        return verdict::refused(Rule::QuotaRange, 0);
    }
    Ok(())
}

// As many passes as the channel has left, and at most `limit`.
pub(crate) fn within(quota: Quota, channel: usize, limit: usize) -> usize
    requires { (1 ≤ channel) × (channel ≤ max_channels) }
    ensures { result ≡ min (available quota channel) limit }
{
    quota.left[channel - 1]
        .saturating_add(quota.pool)
        .min(limit)
}

// Passes are taken from the channel's reserve first, and the others from the pool.
pub(crate) fn charge(quota: Quota, channel: usize, passes: usize) -> Quota
    requires { (1 ≤ channel) × (channel ≤ max_channels) × (passes ≤ available quota channel) }
    ensures { result ≡ charged_for passes quota channel }
{
    let mut after = quota;
    let taken = after.left[channel - 1].min(passes);
    after.left[channel - 1] -= taken;
    after.pool -= passes - taken;
    after
}
