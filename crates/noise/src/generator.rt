// The numbers behind a trial sheet (02, T-11): an additive lagged Fibonacci generator. Numbers are 32 bits, and sums wrap.
ghost use Rattle.std.specs.Prelude.{◌≡◌, ◌+◌, ◌%◌, ◌<◌};
ghost use Rattle.noise.specs.Generator.{long_lag, seeded};
ghost use Rattle.seq.specs.Tab.{tab};

pub(crate) const LONG_LAG: usize = 55;

pub(crate) const SHORT_LAG: usize = 24;

const INCREMENT: u32 = 2654435769;

// The first 55 numbers.
pub(crate) fn seeds(seed: u32) -> [u32; LONG_LAG]
    ensures { result ≡ tab (seeded seed) long_lag }
{
    let mut numbers = [0u32; LONG_LAG];
    let mut next = seed;
    for number in numbers.iter_mut() {
        *number = next;
        next = next.wrapping_add(INCREMENT);
    }
    numbers
}

// The slot after this one, in a ring of 55.
pub(crate) fn after(slot: usize) -> usize
    requires { slot < long_lag }
    ensures { result ≡ (slot + 1) % long_lag }
{
    if slot + 1 < LONG_LAG { slot + 1 } else { 0 }
}
