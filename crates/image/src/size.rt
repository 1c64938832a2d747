// Sizes of images (01, The sheet): width and height are 1 to 256 each.
ghost use Rattle.std.specs.Prelude.{◌≡◌};
ghost use Rattle.image.specs.Size.{within, bad_size, row_bytes};

// Pixels of a row, and rows. No bound stands in the type: a header may state any size, and the rows of a strip are more than an image's.
#[derive(Clone, Copy, PartialEq, Eq)]
pub struct Size {
    pub width: usize,
    pub height: usize,
}

pub const MAX_SIDE: usize = 256;

pub const MAX_PIXELS: usize = MAX_SIDE * MAX_SIDE;

pub(crate) const BYTE_PIXELS: usize = 8;

pub(crate) const LEFTMOST_BIT: usize = BYTE_PIXELS - 1;

// The most bytes of a raster.
pub(crate) const MAX_RASTER: usize = MAX_PIXELS / BYTE_PIXELS;

pub fn is_bad(width: usize, height: usize) -> bool
    ensures { result ≡ bad_size width height }
{
    !(is_within(MAX_SIDE, width) && is_within(MAX_SIDE, height))
}

pub(crate) fn is_within(limit: usize, n: usize) -> bool
    ensures { result ≡ within limit n }
{
    (1..=limit).contains(&n)
}

// The bytes of a row in a file.
pub(crate) fn row_bytes(width: usize) -> usize
    ensures { result ≡ row_bytes width }
{
    width.div_ceil(BYTE_PIXELS)
}
