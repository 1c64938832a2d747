// The figures of a job (01, The job).
ghost use Rattle.std.specs.Prelude.{true, ◌≡◌, ◌+◌, ◌≤◌, ◌<◌, leb, length};
ghost use Rattle.std.proofs.Math.IntN.{sub_ℕ};
ghost use Rattle.operator.specs.Image;
ghost use Rattle.history.specs.View;
ghost use Rattle.image.specs.Strip.{max_strip};
ghost use Rattle.seq.specs.Lists.{all};

const WHOLE: usize = 1000;

// Pixels that are summed at once: the sum of so many fits a byte.
const BLOCK: usize = 64;

// Thousandths of the pixels that are black: the nearest whole number, and of two the even one (02, T-05).
pub(crate) fn cover(black: usize, pixels: usize) -> usize
    requires { (0 < pixels) × (black ≤ max_strip) }
    ensures { result ≡ View.cover black pixels }
{
    let part = WHOLE * black;
    let low = part / pixels;
    let twice = 2 * (part % pixels);
    if twice < pixels {
        return low;
    }
    if pixels < twice {
        return low + 1;
    }
    low + low % 2
}

// How many pixels are 1: their sum, since each is 0 or 1.
pub(crate) fn black(bytes: &[u8]) -> usize
    requires { all (λ v. leb v 1) bytes.now ≡ true }
    ensures { result ≡ Image.black bytes.now }
{
    let blocks = bytes.chunks_exact(BLOCK);
    let rest = blocks.remainder();
    let mut ones: usize = 0;
    for block in blocks {
        ones += black_in(block) as usize;
    }
    ones + black_in(rest) as usize
}

// The same of few pixels. The sum is a byte, so that many bytes are added at once.
fn black_in(bytes: &[u8]) -> u8
    requires { (length bytes.now < 256) × (all (λ v. leb v 1) bytes.now ≡ true) }
    ensures { result ≡ Image.black bytes.now }
{
    let mut ones: u8 = 0;
    for byte in bytes {
        ones += *byte;
    }
    ones
}

// The signed difference of two small counts.
pub(crate) fn balance(added: usize, removed: usize) -> i64
    requires { added + removed ≤ max_strip }
    ensures { result ≡ sub_ℕ added removed }
{
    added as i64 - removed as i64
}
