// Pixel bytes in memory: 0 or 1 each, in row order.
ghost use Rattle.std.specs.List.{fold};
ghost use Rattle.std.specs.Prelude.{false, ◌||◌, ◌≡◌, ◌*◌, ◌/◌, ◌≤◌, ◌<◌, nat_lt, length};
ghost use Rattle.image.specs.Code.Rows.{too_large, piece_too_large};
ghost use Rattle.image.specs.File.{bytes_verdict};
ghost use Rattle.image.specs.Size.{max_side};
ghost use Rattle.image.specs.Strip.{max_rows};
ghost use Rattle.seq.specs.Tab.{first};
ghost use Rattle.verdict.specs.Rules.{refuse_at};
ghost use Rattle.verdict.specs.Writer.{over};

use crate::size::Size;
use verdict::{Rule, Verdict};

const BLACK: u8 = 1;

const BAND_ROWS: usize = 8;

// Judges the bytes of so many pixels: 11 (their count), 12 (a byte above 1, at its row).
pub(crate) fn check_bytes(pixels: &[u8], size: Size) -> Verdict
    requires { (1 ≤ size.width) × (size.width ≤ max_side) × (size.height ≤ max_rows) }
    ensures { result ≡ bytes_verdict size.width size.height pixels.now }
{
    if pixels.len() != size.width * size.height {
        return verdict::refused(Rule::RasterLength, 0);
    }
    check_values(pixels, size)
}

// Refuses the row of the first byte above 1.
fn check_values(pixels: &[u8], size: Size) -> Verdict
    requires { (1 ≤ size.width) × (size.width ≤ max_side) × (length pixels.now ≡ size.width * size.height) }
    ensures { result ≡ refuse_at (first (too_large pixels.now) (size.width * size.height)) Rule.PixelValue (λ i. i / size.width) }
{
    match row_above(pixels, size.width) {
        Some(row) => verdict::refused(Rule::PixelValue, row),
        None => Ok(()),
    }
}

// The row of the first byte above 1. Bands of rows are searched first, since a row of a narrow image is too short to look at many bytes at a time.
fn row_above(pixels: &[u8], width: usize) -> Option<usize>
    requires { (1 ≤ width) × (width ≤ max_side) }
    ensures { result ≡ piece_too_large pixels.now width }
{
    let band = piece_above(pixels, BAND_ROWS * width)?;
    let clean = BAND_ROWS * band;
    let row = piece_above(&pixels[clean * width..], width)?;
    Some(clean + row)
}

// The piece of the first byte above 1, where all are cut in pieces of `span` bytes.
fn piece_above(pixels: &[u8], span: usize) -> Option<usize>
    requires { 0 < span }
    ensures { result ≡ piece_too_large pixels.now span }
{
    pixels.chunks(span).position(|piece| exceeds(piece))
}

// There is a byte above 1. All are looked at, many at a time, where `any` would stop at the first.
fn exceeds(piece: &[u8]) -> bool
    ensures { result ≡ fold (λ above v. above || nat_lt 1 v) false piece.now }
{
    piece.iter().fold(false, |above, v| above | (BLACK < *v))
}

// The pixels to the front of an area.
pub(crate) fn copy(pixels: &[u8], area: &mut [u8])
    requires { length pixels.now ≤ length area.old }
    ensures { area.new ≡ over pixels.now area.old }
{
    // kept: `copy_from_slice` asks for memmove, and the archive for memcpy and memset alone
    for i in 0..pixels.len() {
        area[i] = pixels[i];
    }
}
