// Images; generated ones: blocks of either colour, some as large as the image, with some pixels turned; and the majority of three images.
use crate::area::{AREA, Area};
use crate::generator;
use crate::grid::{Place, Size};

// An image of as many pixels as its size has, at the front of an area that has room for them.
#[derive(Clone, Copy)]
pub(crate) struct Image {
    pub size: Size,
    area: Area,
}

impl Image {
    // Each pixel has the value that a function gives for its place.
    pub(crate) fn new<F: FnMut(Place) -> u8>(size: Size, value: F) -> Image
        requires { (state : F) (place : _) → F.pre state place }
    {
        let mut area = [0; AREA];
        for (pixel, value) in area.iter_mut().zip(size.places().map(value)) {
            *pixel = value;
        }
        Image { size, area }
    }

    pub(crate) fn pixels(&self) -> &[u8] {
        &self.area[..self.size.pixels().min(AREA)]
    }

    // The value of a pixel, outside the image none.
    pub(crate) fn at(&self, place: Place) -> Option<u8> {
        self.area.get(self.size.index(place)?).copied()
    }
}

// Three images of one size.
pub(crate) fn three(seed: u32, size: Size) -> [Image; 3] {
    [
        drawn(seed, size),
        drawn(generator::draw(seed, 21), size),
        drawn(generator::draw(seed, 22), size),
    ]
}

// Second implementation (02, T-12): a pixel is black when at least two have it black.
pub(crate) fn majority(size: Size, images: &[Image; 3]) -> Image {
    Image::new(size, |place| u8::from(2 <= blacks(images, place)))
}

fn blacks(images: &[Image; 3], place: Place) -> usize {
    let black = images.iter().filter(|image| image.at(place) == Some(1));
    black.count()
}

pub(crate) fn drawn(seed: u32, size: Size) -> Image {
    Image::new(size, |place| pixel(seed, place))
}

fn pixel(seed: u32, place: Place) -> u8 {
    let row = u32::from(place.row);
    let col = u32::from(place.col);
    let shape = generator::draw(seed, 11);
    let block = spot(row >> (2 + shape % 6), col >> (2 + shape / 8 % 6));
    let turned = generator::draw(shape, spot(row, col)) % (5 + shape / 64 % 24) == 0;
    (generator::draw(seed, block) % 2) as u8 ^ u8::from(turned)
}

fn spot(row: u32, col: u32) -> u32 {
    1000 + (row % 512 * 512 + col % 512)
}
