// Strips (02, T-08): up to 16 images of one width, laid end to end. Their pixel bytes stand in part order.
ghost use Rattle.std.specs.List.{zip};
ghost use Rattle.std.specs.Prelude.{not, List, ◌≡◌, ◌==◌, ℕ, suc, ◌*◌, ◌≤◌, ◌<◌, length, slice_index, position, sum, IfSome};
ghost use Rattle.image.specs.Code.Rows.{Binary};
ghost use Rattle.image.specs.Code.Strip.{Heights};
ghost use Rattle.image.specs.File.{read_as};
ghost use Rattle.image.specs.Size.{extent, max_side, bad_size};
ghost use Rattle.image.specs.Strip.{max_parts, max_rows, heights_of, strip_width, strip_height, shape_verdict, strip_verdict, strip_read, strip_area, strip_bytes, strip_written, strip_output};
ghost use Rattle.seq.specs.Lists.{sum_of};
ghost use Rattle.verdict.specs.Rules.{refuse_at};
ghost use Rattle.verdict.specs.Writer.{over};

use crate::size::{MAX_SIDE, Size};
use crate::{file, pixels, size};
use verdict::{Refusal, Rule, Verdict, Written};

// The most parts of a strip, and the most rows of them together.
pub const MAX_PARTS: usize = 16;

pub const MAX_ROWS: usize = MAX_PARTS * MAX_SIDE;

// The number of parts, and the width and height of each. Places past the number are not looked at. The C interface has the struct as it is.
#[repr(C)]
#[derive(Clone, Copy, PartialEq, Eq)]
pub struct Strip {
    pub parts: usize,
    pub widths: [usize; MAX_PARTS],
    pub heights: [usize; MAX_PARTS],
}

impl Strip {
    fn part_heights(&self) -> &[usize]
        requires { self.now.parts ≤ max_parts }
        ensures { result.now ≡ heights_of self.now }
    {
        &self.heights[..self.parts]
    }
}

// Of each part, the pixels that went from 0 to 1 and from 1 to 0. The C interface has the struct as it is.
#[repr(C)]
#[derive(Clone, Copy, PartialEq, Eq)]
pub struct PartCounts {
    pub added: [usize; MAX_PARTS],
    pub removed: [usize; MAX_PARTS],
}

// Judges the parts: 23 (their number), 10 (the lowest part of a bad size), 23 (the lowest part of another width than the first).
pub fn check_shape(strip: Strip) -> Verdict
    ensures { result ≡ shape_verdict strip }
{
    let parts = strip.parts;
    if !size::is_within(MAX_PARTS, parts) {
        return verdict::refused(Rule::Parts, 0);
    }
    let widths = &strip.widths[..parts];
    refuse_part(bad_size(widths, strip.part_heights()), Rule::SizeRange)?;
    refuse_part(other_width(widths), Rule::Parts)
}

// Judges a strip with its pixel bytes: as `check_shape`, then 11 (the count of bytes), 12 (a byte above 1, at its row of the strip).
pub fn check(strip: Strip, pixels: &[u8]) -> Verdict
    ensures { result ≡ strip_verdict strip pixels.now }
{
    check_shape(strip)?;
    pixels::check_bytes(pixels, whole(strip))
}

// Judges a strip with its pixel bytes as `check` does, and answers its size as one image.
pub fn size_of(strip: Strip, pixels: &[u8]) -> Result<Size, Refusal>
    ensures { result ≡ read_as (strip_verdict strip pixels.now) (strip_width strip) (strip_height strip) }
{
    check(strip, pixels)?;
    Ok(whole(strip))
}

// Copies the pixels of a strip to the front of an area: as `check`, then 13. All is judged before the first byte is stored.
pub fn read(strip: Strip, pixels: &[u8], area: &mut [u8]) -> Result<Size, Refusal>
    ensures { (result ≡ strip_read strip pixels.now (length area.old))
        × (area.new ≡ strip_area strip pixels.now area.old) }
{
    check(strip, pixels)?;
    if area.len() < pixels.len() {
        return verdict::refused(Rule::AreaShort, 0);
    }
    pixels::copy(pixels, area);
    Ok(whole(strip))
}

// The size of a strip as one image.
fn whole(strip: Strip) -> Size
    requires { shape_verdict strip ≡ Ok tt }
    ensures { result ≡ extent (strip_width strip) (strip_height strip) }
{
    Size {
        width: strip.widths[0],
        height: rows(strip.part_heights()),
    }
}

// Writes the files of the parts, one after another, to the front of an output: as `check`, then 13 where it is shorter than all of them. All is
// judged before the first byte is stored.
pub fn write(strip: Strip, pixels: &[u8], out: &mut [u8]) -> Written
    ensures { (result ≡ strip_written strip pixels.now (length out.old))
        × (out.new ≡ strip_output strip pixels.now out.old) }
{
    check(strip, pixels)?;
    let heights = strip.part_heights();
    let width = strip.widths[0];
    let end = length_of(width, heights);
    if out.len() < end {
        return verdict::refused(Rule::AreaShort, 0);
    }
    write_parts(width, heights, pixels, out);
    Ok(end)
}

// The lowest part of a bad size.
fn bad_size(widths: &[usize], heights: &[usize]) -> Option<usize>
    ensures { result ≡ position (λ p. bad_size p.0 p.1) (zip widths.now heights.now) }
{
    widths
        .iter()
        .zip(heights)
        .position(|part| size::is_bad(*part.0, *part.1))
}

// The lowest part of another width than the first.
fn other_width(widths: &[usize]) -> Option<usize>
    requires { 0 < length widths.now }
    ensures { result ≡ position (λ w. not (w == slice_index widths.now 0)) widths.now }
{
    let first = widths[0];
    widths.iter().position(|width| *width != first)
}

// Refuses the part that a search found, counted from 1.
fn refuse_part(found: Option<usize>, rule: Rule) -> Verdict
    requires { IfSome found (λ i. i < max_parts) }
    ensures { result ≡ refuse_at found rule suc }
{
    match found {
        Some(i) => verdict::refused(rule, i + 1),
        None => Ok(()),
    }
}

// The rows of all parts.
fn rows(heights: &[usize]) -> usize
    requires { sum heights.now ≤ max_rows }
    ensures { result ≡ sum heights.now }
{
    heights.iter().sum()
}

// How many bytes the files of all parts have.
fn length_of(width: usize, heights: &[usize]) -> usize
    requires { (1 ≤ width) × (width ≤ max_side) × Heights heights.now }
    ensures { (px : List ℕ) → result ≡ length (strip_bytes width heights.now px) }
{
    let mut bytes: usize = 0;
    for height in heights {
        bytes += file::length_of(Size {
            width,
            height: *height,
        });
    }
    bytes
}

// The file of each part behind that of the part before; `from` is the place of a part's first pixel, `to` that of its file.
fn write_parts(width: usize, heights: &[usize], pixels: &[u8], out: &mut [u8])
    requires { (1 ≤ width) × (width ≤ max_side) × Heights heights.now × Binary pixels.now × (length pixels.now ≡ width * sum_of heights.now)
        × (length (strip_bytes width heights.now pixels.now) ≤ length out.old) }
    ensures { out.new ≡ over (strip_bytes width heights.now pixels.now) out.old }
{
    let mut from = 0;
    let mut to = 0;
    for height in heights {
        let size = Size {
            width,
            height: *height,
        };
        let pixel_end = from + width * *height;
        let file_end = to + file::length_of(size);
        file::put(size, &pixels[from..pixel_end], &mut out[to..file_end]);
        from = pixel_end;
        to = file_end;
    }
}
