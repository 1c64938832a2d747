// Second implementation: the image file of some pixels (01, The sheet).
use crate::area::{AREA, Area, copy_to_front};
use crate::images::Image;
use std::fmt::InlineText;

// The bytes of a file, at the front of an area.
#[derive(Clone, Copy)]
pub(crate) struct File {
    area: Area,
    length: usize,
}

impl File {
    fn new(head: &[u8]) -> File {
        let mut area = [0; AREA];
        let length = copy_to_front(&mut area, head);
        File { area, length }
    }

    // One byte more, as far as the area goes.
    fn push(&mut self, byte: u8) {
        if self.length < AREA {
            self.area[self.length] = byte;
            self.length += 1;
        }
    }

    pub(crate) fn as_slice(&self) -> &[u8] {
        &self.area[..self.length.min(AREA)]
    }
}

// Each row begins with a byte of its own.
pub(crate) fn written(image: &Image) -> File {
    let size = image.size;
    let head = InlineText::<20>::of(format_args!("P4\n{} {}\n", size.width, size.height));
    let mut file = File::new(head.as_str().as_bytes());
    for row in image.pixels().chunks(usize::from(size.width).max(1)) {
        for pixels in row.chunks(8) {
            file.push(packed(pixels));
        }
    }
    file
}

// The leftmost of up to eight pixels is the highest bit.
fn packed(pixels: &[u8]) -> u8 {
    (0..8).fold(0, |byte, k| byte << 1 | pixels.get(k).copied().unwrap_or(0))
}
