// Second implementation: one pass, written from its definition (01, One pass).
use crate::grid::{Offset, Place};
use crate::images::Image;
use crate::shapes::{CENTRE, Positions};
use table::Table;

// The next image. Every pixel is judged on the image before.
pub(crate) fn next(table: &Table, image: &Image) -> Image {
    let judge = Judge { table, image };
    Image::new(image.size, |place| judge.after(place))
}

#[derive(Clone, Copy)]
struct Judge<'a> {
    table: &'a Table,
    image: &'a Image,
}

impl Judge<'_> {
    // The value of a pixel after the pass.
    fn after(&self, place: Place) -> u8 {
        let value = self.image.at(place).unwrap_or(0);
        value ^ u8::from(self.changes(place, value ^ 1))
    }

    // Some element has all its offsets, taken at the pixel, covered for the other value.
    fn changes(&self, place: Place, other: u8) -> bool {
        let mut elements = self.table.elements.iter().take(self.table.count);
        elements.any(|element| self.fits(*element, place, other))
    }

    fn fits(&self, element: u32, place: Place, value: u8) -> bool {
        let size = self.image.size;
        Positions::of(element).all(|to| {
            self.is_covered(size.nearest(place, Offset::between(CENTRE, to)), value)
        })
    }

    // Some translate of some persistent element (01 and 02: keeper) contains the pixel and has the value everywhere.
    fn is_covered(&self, place: Place, value: u8) -> bool {
        let mut persistents = self.table.persistents.iter().take(self.table.ranks);
        self.image.at(place) == Some(value)
            && persistents.any(|mask| {
                Positions::of(*mask).any(|from| self.is_solid(*mask, from, place, value))
            })
    }

    // The translate with this position on the pixel lies wholly inside and has the value everywhere.
    fn is_solid(&self, mask: u32, from: u8, place: Place, value: u8) -> bool {
        Positions::of(mask).all(|to| {
            self.value_at(place.moved(Offset::between(from, to))) == Some(value)
        })
    }

    fn value_at(&self, place: Option<Place>) -> Option<u8> {
        self.image.at(place?)
    }
}
