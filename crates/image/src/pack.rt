// Packing pixels (01, The sheet): a byte for eight pixels of a row, the leftmost the highest bit; the unused bits of a row's last byte are zero.
ghost use Rattle.std.specs.Prelude.{◌≡◌, ◌*◌, length, get_or};
ghost use Rattle.image.specs.Code.Rows.{Sides, Binary, packed_row, raster_of};
ghost use Rattle.image.specs.File.{packed};
ghost use Rattle.image.specs.Size.{row_bytes};
ghost use Rattle.seq.specs.Tab.{tab};

use crate::size;
use crate::size::{BYTE_PIXELS, LEFTMOST_BIT, Size};

// Bits 0, 9, 18 to 63: what moves bit 8 * k to bit 63 - k.
const TO_HIGHEST_BYTE: u64 = 0x8040_2010_0804_0201;

const BELOW_HIGHEST_BYTE: u32 = 56;

// All rows; `from` is the place of a row's first pixel, `to` that of its first byte.
// That pixels are 0 or 1 stays in the contracts: a struct with this fact around each slice, cut anew for each byte, is no plainer.
pub(crate) fn image(pixels: &[u8], size: Size, raster: &mut [u8])
    requires { Sides size.width size.height × Binary pixels.now × (length pixels.now ≡ size.width * size.height)
        × (length raster.old ≡ row_bytes size.width * size.height) }
    ensures { raster.new ≡ raster_of size.width size.height pixels.now }
{
    let Size { width, height } = size;
    let bytes = size::row_bytes(width);
    let mut from = 0;
    let mut to = 0;
    for _row in 0..height {
        pack_row(&pixels[from..from + width], &mut raster[to..to + bytes]);
        from += width;
        to += bytes;
    }
}

// One row, byte by byte.
fn pack_row(row: &[u8], bytes: &mut [u8])
    requires { Binary row.now × (length bytes.old ≡ row_bytes (length row.now)) }
    ensures { bytes.new ≡ tab (packed_row row.now) (length bytes.old) }
{
    let whole = row.len() / BYTE_PIXELS;
    for i in 0..whole {
        let from = BYTE_PIXELS * i;
        bytes[i] = pack_byte(&row[from..from + BYTE_PIXELS]);
    }
    if whole < bytes.len() {
        bytes[whole] = pack_byte(&row[BYTE_PIXELS * whole..]);
    }
}

// The byte of the first eight of some pixels, 0 past them.
fn pack_byte(pixels: &[u8]) -> u8
    requires { Binary pixels.now }
    ensures { result ≡ packed (λ k. get_or pixels.now k 0) }
{
    if let Some(eight) = pixels.first_chunk::<BYTE_PIXELS>() {
        return pack_eight(*eight);
    }
    let mut byte: u8 = 0;
    for (k, pixel) in pixels.iter().enumerate() {
        byte += *pixel << (LEFTMOST_BIT - k);
    }
    byte
}

// The byte of eight pixels at once: as the bytes of one number, pixel k is its bit 8 * k, and the product has it at bit 63 - k.
fn pack_eight(pixels: [u8; BYTE_PIXELS]) -> u8
    requires { Binary pixels }
    ensures { result ≡ packed (λ k. get_or pixels k 0) }
{
    let spread = u64::from_le_bytes(pixels).wrapping_mul(TO_HIGHEST_BYTE);
    (spread >> BELOW_HIGHEST_BYTE) as u8
}
