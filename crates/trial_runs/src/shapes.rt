// Second implementation: the positions of a mask (01, The table).
ghost use Rattle.std.specs.Iterator.{at_most};

pub(crate) const CENTRE: u8 = 12;

// The positions of a mask, the lowest first. Those to come are the bits of `left`.
#[derive(Clone, Copy)]
pub(crate) struct Positions {
    left: u32,
}

impl Positions {
    pub(crate) fn of(mask: u32) -> Positions {
        Positions { left: mask }
    }
}

impl Iterator for Positions {
    type Item = u8;

    ghost remaining = { λ s. at_most s.left };

    fn next(&mut self) -> Option<u8> {
        if self.left == 0 {
            return None;
        }
        let position = self.left.trailing_zeros();
        self.left &= self.left - 1;
        Some(position as u8)
    }
}
