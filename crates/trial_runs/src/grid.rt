// The size of an image, and its places. These come in row order: row and column are carried along, never found by a division.
ghost use Rattle.std.specs.Prelude.{◌<◌};
ghost use Rattle.std.specs.Iterator.{at_most};

#[derive(Clone, Copy)]
pub(crate) struct Size {
    pub width: u16,
    pub height: u16,
}

#[derive(Clone, Copy)]
pub(crate) struct Place {
    pub row: u16,
    pub col: u16,
}

// From one place to another.
#[derive(Clone, Copy)]
pub(crate) struct Offset {
    pub down: i16,
    pub right: i16,
}

// The places of an image from one on, and how many these are.
#[derive(Clone, Copy)]
pub(crate) struct Places {
    width: u16,
    next: Place,
    left: usize,
}

impl Size {
    pub(crate) fn pixels(self) -> usize
        ensures { result < 4294967296 }
    {
        usize::from(self.width) * usize::from(self.height)
    }

    // The index of a place, outside the image none.
    pub(crate) fn index(self, place: Place) -> Option<usize> {
        if self.width <= place.col || self.height <= place.row {
            return None;
        }
        let row_start = usize::from(place.row) * usize::from(self.width);
        Some(row_start + usize::from(place.col))
    }

    pub(crate) fn places(self) -> Places {
        Places {
            width: self.width,
            next: Place { row: 0, col: 0 },
            left: self.pixels(),
        }
    }

    // The pixel that an offset stands for: row and column each cut to the range.
    pub(crate) fn nearest(self, place: Place, offset: Offset) -> Place {
        let row = place.row.saturating_add_signed(offset.down);
        let col = place.col.saturating_add_signed(offset.right);
        Place {
            row: row.min(self.height.saturating_sub(1)),
            col: col.min(self.width.saturating_sub(1)),
        }
    }
}

impl Place {
    pub(crate) fn moved(self, offset: Offset) -> Option<Place> {
        Some(Place {
            row: self.row.checked_add_signed(offset.down)?,
            col: self.col.checked_add_signed(offset.right)?,
        })
    }

    fn after(self, width: u16) -> Place {
        let col = self.col.saturating_add(1);
        if col < width {
            return Place { row: self.row, col };
        }
        Place {
            row: self.row.saturating_add(1),
            col: 0,
        }
    }
}

impl Offset {
    // Between two positions of a mask, whose rows have five.
    pub(crate) fn between(from: u8, to: u8) -> Offset {
        Offset {
            down: i16::from(to / 5) - i16::from(from / 5),
            right: i16::from(to % 5) - i16::from(from % 5),
        }
    }
}

impl Iterator for Places {
    type Item = Place;

    ghost remaining = { λ s. at_most s.left };

    fn next(&mut self) -> Option<Place> {
        if self.left == 0 {
            return None;
        }
        self.left -= 1;
        let place = self.next;
        self.next = place.after(self.width);
        Some(place)
    }
}
