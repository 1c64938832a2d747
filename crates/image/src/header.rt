// The header of an image file (01, The sheet): `P4`, line feed, width, one space, height, line feed.
ghost use Rattle.std.specs.Prelude.{◌≡◌, ◌≤◌, length};
ghost use Rattle.std.proofs.lemmas.List.Edits.{sets};
ghost use Rattle.image.specs.Code.Layout.{header_of};
ghost use Rattle.image.specs.Header.{starts_magic, header};

use crate::number;
use crate::size::Size;

const MAGIC: [u8; MAGIC_LENGTH] = *b"P4\n";

const SPACE: u8 = b' ';

const LINE_FEED: u8 = b'\n';

const MAGIC_LENGTH: usize = 3;

// Two numbers, and a byte behind each.
pub(crate) const MAX_LENGTH: usize = MAGIC_LENGTH + 2 * (number::MAX_DIGITS + 1);

// The size that a header states, and where the raster starts.
#[derive(Clone, Copy)]
pub(crate) struct Header {
    pub(crate) size: Size,
    pub(crate) start: usize,
}

pub(crate) fn read(file: &[u8]) -> Option<Header>
    ensures { result ≡ header_of file.now }
{
    if !starts_magic(file) {
        return None;
    }
    let width = number::read(file, MAGIC_LENGTH, SPACE)?;
    let height = number::read(file, width.next, LINE_FEED)?;
    Some(Header {
        size: Size {
            width: width.value,
            height: height.value,
        },
        start: height.next,
    })
}

fn starts_magic(file: &[u8]) -> bool
    ensures { result ≡ starts_magic file.now }
{
    file.starts_with(&MAGIC)
}

// How many bytes the header of a size has.
pub(crate) fn length_of(size: Size) -> usize
    ensures { result ≡ length (header size.width size.height) }
{
    MAGIC_LENGTH + number::length_of(size.width) + 1 + number::length_of(size.height) + 1
}

// Writes the header of a size to the front of the output.
pub(crate) fn write(size: Size, out: &mut [u8])
    requires { length (header size.width size.height) ≤ length out.old }
    ensures { out.new ≡ sets out.old 0 (header size.width size.height) }
{
    out[..MAGIC_LENGTH].copy_from_slice(&MAGIC);
    let middle = number::write(size.width, out, MAGIC_LENGTH);
    out[middle] = SPACE;
    let end = number::write(size.height, out, middle + 1);
    out[end] = LINE_FEED;
}
