// The element test on a window: some element has the wanted value's bit at all its positions.
ghost use Rattle.std.specs.Prelude.{true, ◌≡◌, ℕ, ◌<◌, eqb, get_or};
ghost use Rattle.std.specs.Int.Bits.{bit_and};
ghost use Rattle.filter.specs.Code.Elements.{matched};
ghost use Rattle.operator.specs.Preview.{from_bits};
ghost use Rattle.operator.specs.Window.{window_at};
ghost use Rattle.seq.specs.Bits.{bit};
ghost use Rattle.seq.specs.Lists.{any, all, one};
ghost use Rattle.seq.specs.Tab.{tab};
ghost use Rattle.table.specs.Mask.{position_count, valid_mask};

// The lowest bit of each of five bytes.
const EACH_BYTE: u64 = 4311810305;

// The product with it brings these bits together, from bit 28 on.
const TOGETHER: u64 = 270549121;

// The window becomes the mask of the positions that have the bit of the value, and each element is compared with it.
pub(crate) fn some_matches(elements: &[u32], win: [[u8; 5]; 5], value: u8) -> bool
    requires { (all valid_mask elements.now ≡ true) × (value < 2) }
    ensures { result ≡ matched elements.now win value }
{
    some_within(elements, mask_of(win, value))
}

// Without a way out of the loop, so that elements are compared side by side.
fn some_within(elements: &[u32], mask: u32) -> bool
    ensures { result ≡ any (λ e. eqb (bit_and e mask) e) elements.now }
{
    let mut seen: u8 = 0;
    for e in elements {
        if *e & mask == *e {
            seen = 1;
        }
    }
    seen == 1
}

// Which positions of the window have the bit of the value.
fn mask_of(win: [[u8; 5]; 5], value: u8) -> u32
    requires { value < 2 }
    ensures { (n : ℕ) → n < position_count → bit result n ≡ bit (window_at win n) value }
{
    let m = row_mask(win[0], value)
        + 32 * row_mask(win[1], value)
        + 1024 * row_mask(win[2], value)
        + 32768 * row_mask(win[3], value)
        + 1048576 * row_mask(win[4], value);
    m as u32
}

// Five bits: which values of a row have the bit.
fn row_mask(row: [u8; 5], value: u8) -> u64
    requires { value < 2 }
    ensures { (result ≡ from_bits (tab (λ x. one (bit (get_or row x 0) value)) 5)) × (result < 32) }
{
    let [a, b, c, d, e] = row;
    let five = u64::from(a)
        + 256 * u64::from(b)
        + 65536 * u64::from(c)
        + 16777216 * u64::from(d)
        + 4294967296 * u64::from(e);
    let bits = (five >> value) & EACH_BYTE;
    ((bits * TOGETHER) >> 28) % 32
}
