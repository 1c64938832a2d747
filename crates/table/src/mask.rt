// Masks of the 25 positions of a 5 × 5 window: bit n stands for position n (01, The table).
//
//      0  1  2  3  4
//      5  6  7  8  9
//     10 11 12 13 14      12 is the centre, the offset (0, 0)
//     15 16 17 18 19
//     20 21 22 23 24
ghost use Rattle.std.specs.Prelude.{not, ◌&&◌, ◌≡◌, ℕ, ◌<◌, ◌^◌};
ghost use Rattle.seq.specs.Bits.{bit};
ghost use Rattle.table.specs.Mask.{position_count, centre, valid_mask, sum_inside, sum, partner, unpartnered};
ghost use Rattle.table.specs.Code.Search.{leaves_centre, range_rule, bad_after};

use verdict::Rule;

// Which of a table's masks: structuring elements leave the centre out, persistent elements need not.
#[derive(Clone, Copy)]
pub(crate) enum Kind {
    Element,
    Persistent,
}

// A mask with no bit above position 24: of a persistent element, or of an element.
#[derive(Clone, Copy)]
pub(crate) struct Positions {
    pub(crate) mask: u32,
    ghost within: { mask < 2 ^ position_count },
}

const SIDE: usize = 5;

// The positions are the numbers below this one.
pub const POSITIONS: usize = 25;

const CENTRE: usize = 12;

// The mask of all positions.
pub const LARGEST_MASK: u32 = 33554431;

// The lowest bit of each of the five rows.
const EACH_ROW: u64 = 1082401;

// For each column of b the columns of the offsets a with b + a in the window, in each row.
const COLUMNS: [u64; 5] = [
    0b11100 * EACH_ROW,
    0b11110 * EACH_ROW,
    0b11111 * EACH_ROW,
    0b01111 * EACH_ROW,
    0b00111 * EACH_ROW,
];

// A mask that has a position, and no bit that is none.
pub fn is_valid(mask: u32) -> bool
    ensures { result ≡ valid_mask mask }
{
    1 <= mask && mask <= LARGEST_MASK
}

// The rule on such a mask, 4 or 6.
pub(crate) fn range_rule(kind: Kind) -> Rule
    ensures { result ≡ range_rule kind }
{
    match kind {
        Kind::Element => Rule::ElementRange,
        Kind::Persistent => Rule::PersistentRange,
    }
}

// That rule on a mask, after the mask before it (0 where there is none).
pub(crate) fn is_bad_after(kind: Kind, before: u32, mask: u32) -> bool
    ensures { result ≡ bad_after kind before mask }
{
    is_barred(kind, mask) || !is_valid(mask) || mask <= before
}

// An element with the centre.
fn is_barred(kind: Kind, mask: u32) -> bool
    ensures { result ≡ (leaves_centre kind && bit mask centre) }
{
    match kind {
        Kind::Element => (mask >> CENTRE) % 2 == 1,
        Kind::Persistent => false,
    }
}

impl Positions {
    // The lowest position of the persistent element that has no partner in the element.
    pub(crate) fn lowest_unpartnered(self, element: Positions) -> Option<usize>
        ensures { result ≡ unpartnered self.mask element.mask }
    {
        (0..POSITIONS).find(|b| self.lacks_partner(element, *b))
    }

    fn lacks_partner(self, element: Positions, b: usize) -> bool
        requires { b < position_count }
        ensures { result ≡ (bit self.mask b && not (partner self.mask element.mask b)) }
    {
        (self.mask >> b) % 2 == 1 && (element.mask as u64) & self.partners(b) == 0
    }

    // The offsets a with b + a in the persistent element: all of it moved by -b, without what would leave the window at a side.
    fn partners(self, b: usize) -> u64
        requires { b < position_count }
        ensures { (a : ℕ) → a < position_count → bit result a ≡ (sum_inside b a && bit self.mask (sum b a)) }
    {
        (((self.mask as u64) << CENTRE) >> b) & COLUMNS[b % SIDE]
    }
}
