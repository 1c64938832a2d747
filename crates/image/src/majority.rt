// Three files of one size (02, T-12: the pool): a pixel is black where at least two of them have it black.
ghost use Rattle.std.specs.Prelude.{◌&&◌, ◌≡◌, ◌≤◌, eqb, length, take};
ghost use Rattle.image.specs.Code.Three.{size_of, size_of_three, last_bytes, majority_byte, majority_bytes};
ghost use Rattle.image.specs.Majority.{majority_read, majority_area};
ghost use Rattle.image.specs.Size.{max_raster};
ghost use Rattle.verdict.specs.Writer.{over};

use crate::size::{MAX_RASTER, Size};
use crate::{layout, size, unpack};
use verdict::{Refusal, Rule};

const SECOND: usize = 2;

const THIRD: usize = 3;

// Reads three files into the front of an area: 9, 10, 11 on each in turn, then 26, then 13. All is judged before the first byte is stored.
pub fn read(one: &[u8], two: &[u8], three: &[u8], area: &mut [u8]) -> Result<Size, Refusal>
    ensures { (result ≡ majority_read one.now two.now three.now (length area.old))
        × (area.new ≡ majority_area one.now two.now three.now area.old) }
{
    let size = judge(one, two, three)?;
    let count = size::row_bytes(size.width) * size.height;
    let mut raster = [0u8; MAX_RASTER];
    let due = &mut raster[..count];
    combine(last(one, count), last(two, count), last(three, count), due);
    unpack::fill(due, size, area)
}

// The size that the three files share, or the refusal.
fn judge(one: &[u8], two: &[u8], three: &[u8]) -> Result<Size, Refusal>
    ensures { result ≡ size_of_three one.now two.now three.now }
{
    let first = size_of(one)?;
    let second = size_of(two)?;
    let third = size_of(three)?;
    if second != first {
        return verdict::refused(Rule::SizesDiffer, SECOND);
    }
    if third != first {
        return verdict::refused(Rule::SizesDiffer, THIRD);
    }
    Ok(first)
}

// The size of one file, or the refusal.
fn size_of(file: &[u8]) -> Result<Size, Refusal>
    ensures { result ≡ size_of file.now }
{
    let header = layout::read(file)?;
    Ok(header.size)
}

// The raster is what a file ends with.
fn last<'a>(file: &'a [u8], count: usize) -> &'a [u8]
    requires { count ≤ length file.now }
    ensures { result.now ≡ last_bytes count file.now }
{
    &file[file.len() - count..]
}

// Byte by byte, so eight pixels at a time.
fn combine(one: &[u8], two: &[u8], three: &[u8], out: &mut [u8])
    requires { (length one.now ≡ length out.old) × (length two.now ≡ length out.old) × (length three.now ≡ length out.old) }
    ensures { out.new ≡ majority_bytes one.now two.now three.now }
{
    for (i, byte) in out.iter_mut().enumerate() {
        *byte = majority(one[i], two[i], three[i]);
    }
}

fn majority(a: u8, b: u8, c: u8) -> u8
    ensures { result ≡ majority_byte a b c }
{
    (a & b) | (a & c) | (b & c)
}
