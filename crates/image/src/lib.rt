// Image files (01: sheets): raw PBM in one strict form, read into a lent area of pixel bytes and written from pixel bytes. A pixel is 0 or 1,
// one byte in memory, in row order.
#![tactic(auto)]

ghost use Rattle.std.specs.Prelude.{◌≡◌, length};
ghost use Rattle.image.specs.File.{image_read, image_area, pixel_verdict, image_written, image_output};

use crate::size::Size;
use verdict::{Refusal, Rule, Verdict, Written};

mod file;
mod header;
mod layout;
pub mod majority;
mod number;
mod pack;
mod pixels;
pub mod size;
pub mod strip;
mod unpack;

// The most bytes of an image file.
pub const MAX_FILE: usize = header::MAX_LENGTH + size::MAX_RASTER;

// Reads an image file into the front of an area: 9, 10, 11, then 13; unused bits are ignored. All is judged before the first byte is stored.
pub fn read(file: &[u8], area: &mut [u8]) -> Result<Size, Refusal>
    ensures { (result ≡ image_read file.now (length area.old))
        × (area.new ≡ image_area file.now area.old) }
{
    let header = layout::read(file)?;
    unpack::fill(&file[header.start..], header.size, area)
}

// Judges pixel bytes as the writer does: 10, 11 (the count of bytes), 12 (a byte above 1, at its row).
pub fn check_pixels(width: usize, height: usize, pixels: &[u8]) -> Verdict
    ensures { result ≡ pixel_verdict width height pixels.now }
{
    if size::is_bad(width, height) {
        return verdict::refused(Rule::SizeRange, 0);
    }
    pixels::check_bytes(pixels, Size { width, height })
}

// Writes the file of an image to the front of an output: 10, 11, 12, then 13. All is judged before the first byte is stored.
pub fn write(width: usize, height: usize, pixels: &[u8], out: &mut [u8]) -> Written
    ensures { (result ≡ image_written width height pixels.now (length out.old))
        × (out.new ≡ image_output width height pixels.now out.old) }
{
    check_pixels(width, height, pixels)?;
    let size = Size { width, height };
    let length = file::length_of(size);
    if out.len() < length {
        return verdict::refused(Rule::AreaShort, 0);
    }
    file::put(size, pixels, out);
    Ok(length)
}
