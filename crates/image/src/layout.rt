// How an image file is laid out, judged by rules 9 to 11 in order.
ghost use Rattle.std.specs.Prelude.{◌≡◌};
ghost use Rattle.image.specs.Code.Layout.{layout_of};

use crate::header::Header;
use crate::size::Size;
use crate::{header, size};
use verdict::{Refusal, Rule};

// The header, whose raster is as long as it is due, or the refusal.
pub(crate) fn read(file: &[u8]) -> Result<Header, Refusal>
    ensures { result ≡ layout_of file.now }
{
    let header = header::read(file).ok_or(verdict::refusal_of(Rule::HeaderForm, 0))?;
    let Size { width, height } = header.size;
    if size::is_bad(width, height) {
        return verdict::refused(Rule::SizeRange, 0);
    }
    if file.len() - header.start != size::row_bytes(width) * height {
        return verdict::refused(Rule::RasterLength, 0);
    }
    Ok(header)
}
