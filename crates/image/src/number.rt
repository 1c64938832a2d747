// Decimal numbers in a header (01, The sheet): one to three digits, and no leading zero unless the number is 0. File and output come with a position, which
// the promises count in the whole of them: a cut slice is no plainer.
ghost use Rattle.std.specs.Prelude.{◌≡◌, ◌+◌, ◌-◌, ◌%◌, ◌≤◌, ◌<◌, length, get_or, take, drop};
ghost use Rattle.std.proofs.lemmas.List.Edits.{sets};
ghost use Rattle.std.specs.Char.{is_ascii_digit};
ghost use Rattle.std.specs.List.{prefix_len};
ghost use Rattle.image.specs.Code.Layout.{number_at};
ghost use Rattle.image.specs.Header.{is_digit, digits, decimal_value, strict, digit0, decimal};

use crate::size;

const DIGIT_0: u8 = b'0';

const RADIX: usize = 10;

const HUNDRED: usize = RADIX * RADIX;

pub(crate) const MAX_DIGITS: usize = 3;

// A number and the position after the byte that ends it.
#[derive(Clone, Copy)]
pub(crate) struct Number {
    pub(crate) value: usize,
    pub(crate) next: usize,
}

// The number at a position, which the byte `stop` ends.
pub(crate) fn read(file: &[u8], at: usize, stop: u8) -> Option<Number>
    requires { 0 < stop }
    ensures { result ≡ number_at file.now at stop }
{
    let end = at + digits(file, at);
    if !is_strict(file, at, end) || byte_at(file, end) != stop {
        return None;
    }
    Some(Number {
        value: value(&file[at..end]),
        next: end + 1,
    })
}

// The byte at a position, 0 past the end.
pub(crate) fn byte_at(file: &[u8], at: usize) -> u8
    ensures { result ≡ get_or file.now at 0 }
{
    file.get(at).copied().unwrap_or(0)
}

// The digits from `at` to `end` are one to three, and start with 0 only where it is the one digit.
fn is_strict(file: &[u8], at: usize, end: usize) -> bool
    requires { end ≡ at + digits (drop at file.now) }
    ensures { result ≡ strict (drop at file.now) }
{
    let count = end - at;
    size::is_within(MAX_DIGITS, count) && (count == 1 || byte_at(file, at) != DIGIT_0)
}

// How many digits stand from a position on.
fn digits(file: &[u8], at: usize) -> usize
    ensures { result ≡ prefix_len is_ascii_digit (drop at file.now) }
{
    file.iter()
        .skip(at)
        .take_while(|b| b.is_ascii_digit())
        .count()
}

// The number that digits make.
fn value(ds: &[u8]) -> usize
    requires { (digits ds.now ≡ length ds.now) × (length ds.now ≤ 3) }
    ensures { result ≡ decimal_value ds.now }
{
    let mut n: usize = 0;
    for d in ds {
        n = RADIX * n + usize::from(*d - DIGIT_0);
    }
    n
}

// How many digits a number has.
pub(crate) fn length_of(n: usize) -> usize
    ensures { result ≡ length (decimal n) }
{
    if n < RADIX {
        return 1;
    }
    if n < HUNDRED {
        return 2;
    }
    3
}

// Writes the digits of a number at a position, and answers the position after them.
pub(crate) fn write(n: usize, out: &mut [u8], at: usize) -> usize
    requires { at + length (decimal n) ≤ length out.old }
    ensures { (result ≡ at + length (decimal n)) × (out.new ≡ sets out.old at (decimal n)) }
{
    if n < RADIX {
        out[at] = digit(n);
        return at + 1;
    }
    if n < HUNDRED {
        out[at] = digit(n / RADIX);
        out[at + 1] = digit(n);
        return at + 2;
    }
    out[at] = digit(n / HUNDRED);
    out[at + 1] = digit(n / RADIX);
    out[at + 2] = digit(n);
    at + 3
}

// The lowest digit of a number.
fn digit(n: usize) -> u8
    ensures { result ≡ digit0 + n % 10 }
{
    DIGIT_0 + (n % RADIX) as u8
}
