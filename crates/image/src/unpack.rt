// Unpacking a raster (01, The sheet): a byte gives up to eight pixels, the leftmost from the highest bit; unused bits give none.
ghost use Rattle.std.specs.Prelude.{◌≡◌, ◌*◌, ◌≤◌, length};
ghost use Rattle.image.specs.Code.Rows.{Sides, byte_pixel, row_pixel};
ghost use Rattle.image.specs.File.{pixels_of, area_rule, read_as};
ghost use Rattle.image.specs.Size.{row_bytes};
ghost use Rattle.seq.specs.Tab.{tab};
ghost use Rattle.verdict.specs.Writer.{output_of};

use crate::size;
use crate::size::{BYTE_PIXELS, LEFTMOST_BIT, Size};
use verdict::{Refusal, Rule};

// The image in the front of an area, or 13.
pub(crate) fn fill(raster: &[u8], size: Size, area: &mut [u8]) -> Result<Size, Refusal>
    requires { Sides size.width size.height × (length raster.now ≡ row_bytes size.width * size.height) }
    ensures { (result ≡ read_as (area_rule size.width size.height (length area.old)) size.width size.height)
        × (area.new
        ≡ output_of (area_rule size.width size.height (length area.old)) (pixels_of size.width size.height raster.now) area.old) }
{
    let count = size.width * size.height;
    if area.len() < count {
        return verdict::refused(Rule::AreaShort, 0);
    }
    image(raster, size, &mut area[..count]);
    Ok(size)
}

// All rows; `from` is the place of a row's first byte, `to` that of its first pixel.
fn image(raster: &[u8], size: Size, pixels: &mut [u8])
    requires { Sides size.width size.height × (length raster.now ≡ row_bytes size.width * size.height)
        × (length pixels.old ≡ size.width * size.height) }
    ensures { pixels.new ≡ pixels_of size.width size.height raster.now }
{
    let Size { width, height } = size;
    let bytes = size::row_bytes(width);
    let mut from = 0;
    let mut to = 0;
    for _row in 0..height {
        unpack_row(&raster[from..from + bytes], &mut pixels[to..to + width]);
        from += bytes;
        to += width;
    }
}

// One row, byte by byte.
fn unpack_row(bytes: &[u8], row: &mut [u8])
    requires { length bytes.now ≡ row_bytes (length row.old) }
    ensures { row.new ≡ tab (row_pixel bytes.now) (length row.old) }
{
    let whole = row.len() / BYTE_PIXELS;
    for i in 0..whole {
        let to = BYTE_PIXELS * i;
        unpack_byte(bytes[i], &mut row[to..to + BYTE_PIXELS]);
    }
    if whole < bytes.len() {
        unpack_byte(bytes[whole], &mut row[BYTE_PIXELS * whole..]);
    }
}

// The first pixels of a byte.
fn unpack_byte(byte: u8, pixels: &mut [u8])
    requires { length pixels.old ≤ 8 }
    ensures { pixels.new ≡ tab (byte_pixel byte) (length pixels.old) }
{
    for (k, pixel) in pixels.iter_mut().enumerate() {
        *pixel = (byte >> (LEFTMOST_BIT - k)) % 2;
    }
}
