// The file of an image whose size and pixels are judged (01, The sheet).
ghost use Rattle.std.specs.Prelude.{List, ◌≡◌, ℕ, ◌*◌, ◌≤◌, length};
ghost use Rattle.image.specs.Code.Rows.{Sides, Binary};
ghost use Rattle.image.specs.File.{image_bytes};
ghost use Rattle.verdict.specs.Writer.{over};

use crate::size::Size;
use crate::{header, pack, size};

// How many bytes it has.
pub(crate) fn length_of(size: Size) -> usize
    requires { Sides size.width size.height }
    ensures { (px : List ℕ) → result ≡ length (image_bytes size.width size.height px) }
{
    header::length_of(size) + size::row_bytes(size.width) * size.height
}

// It goes to the front of an output.
pub(crate) fn put(size: Size, pixels: &[u8], out: &mut [u8])
    requires { Sides size.width size.height × Binary pixels.now × (length pixels.now ≡ size.width * size.height)
        × (length (image_bytes size.width size.height pixels.now) ≤ length out.old) }
    ensures { out.new ≡ over (image_bytes size.width size.height pixels.now) out.old }
{
    header::write(size, out);
    pack::image(
        pixels,
        size,
        &mut out[header::length_of(size)..length_of(size)],
    );
}
