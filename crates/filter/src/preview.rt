// The preview (01, One pass): the 3 × 3 median.
ghost use Rattle.std.specs.Prelude.{[], ◌∷◌, ◌≡◌, ◌+◌, ◌*◌, ◌/◌, ◌%◌, ◌≤◌, ◌<◌, length, get_or, set};
ghost use Rattle.std.proofs.lemmas.List.Edits.{sets};
ghost use Rattle.operator.specs.Image.{IsImage};
ghost use Rattle.operator.specs.Preview.{from_bits, pattern, five_or_more, preview};
ghost use Rattle.filter.specs.Previewed.{preview_verdict, preview_area};
ghost use Rattle.operator.specs.Window.{window};
ghost use Rattle.seq.specs.Grid.{Cell};
ghost use Rattle.seq.specs.Tab.{tab};
ghost use Rattle.verdict.specs.Writer.{over};

use crate::window;
use image::size::Size;
use verdict::{Rule, Verdict};

// One answer for each pattern of nine pixels: 1 exactly when five or more bits are 1.
const ANSWERS: [u8; 512] =
    *b"\x00\x00\x00\x00\x00\x00\x00\x00\x00\x00\x00\x00\x00\x00\x00\x00\x00\x00\x00\x00\x00\x00\x00\x00\x00\x00\x00\x00\x00\x00\x00\x01\
\x00\x00\x00\x00\x00\x00\x00\x00\x00\x00\x00\x00\x00\x00\x00\x01\x00\x00\x00\x00\x00\x00\x00\x01\x00\x00\x00\x01\x00\x01\x01\x01\
\x00\x00\x00\x00\x00\x00\x00\x00\x00\x00\x00\x00\x00\x00\x00\x01\x00\x00\x00\x00\x00\x00\x00\x01\x00\x00\x00\x01\x00\x01\x01\x01\
\x00\x00\x00\x00\x00\x00\x00\x01\x00\x00\x00\x01\x00\x01\x01\x01\x00\x00\x00\x01\x00\x01\x01\x01\x00\x01\x01\x01\x01\x01\x01\x01\
\x00\x00\x00\x00\x00\x00\x00\x00\x00\x00\x00\x00\x00\x00\x00\x01\x00\x00\x00\x00\x00\x00\x00\x01\x00\x00\x00\x01\x00\x01\x01\x01\
\x00\x00\x00\x00\x00\x00\x00\x01\x00\x00\x00\x01\x00\x01\x01\x01\x00\x00\x00\x01\x00\x01\x01\x01\x00\x01\x01\x01\x01\x01\x01\x01\
\x00\x00\x00\x00\x00\x00\x00\x01\x00\x00\x00\x01\x00\x01\x01\x01\x00\x00\x00\x01\x00\x01\x01\x01\x00\x01\x01\x01\x01\x01\x01\x01\
\x00\x00\x00\x01\x00\x01\x01\x01\x00\x01\x01\x01\x01\x01\x01\x01\x00\x01\x01\x01\x01\x01\x01\x01\x01\x01\x01\x01\x01\x01\x01\x01\
\x00\x00\x00\x00\x00\x00\x00\x00\x00\x00\x00\x00\x00\x00\x00\x01\x00\x00\x00\x00\x00\x00\x00\x01\x00\x00\x00\x01\x00\x01\x01\x01\
\x00\x00\x00\x00\x00\x00\x00\x01\x00\x00\x00\x01\x00\x01\x01\x01\x00\x00\x00\x01\x00\x01\x01\x01\x00\x01\x01\x01\x01\x01\x01\x01\
\x00\x00\x00\x00\x00\x00\x00\x01\x00\x00\x00\x01\x00\x01\x01\x01\x00\x00\x00\x01\x00\x01\x01\x01\x00\x01\x01\x01\x01\x01\x01\x01\
\x00\x00\x00\x01\x00\x01\x01\x01\x00\x01\x01\x01\x01\x01\x01\x01\x00\x01\x01\x01\x01\x01\x01\x01\x01\x01\x01\x01\x01\x01\x01\x01\
\x00\x00\x00\x00\x00\x00\x00\x01\x00\x00\x00\x01\x00\x01\x01\x01\x00\x00\x00\x01\x00\x01\x01\x01\x00\x01\x01\x01\x01\x01\x01\x01\
\x00\x00\x00\x01\x00\x01\x01\x01\x00\x01\x01\x01\x01\x01\x01\x01\x00\x01\x01\x01\x01\x01\x01\x01\x01\x01\x01\x01\x01\x01\x01\x01\
\x00\x00\x00\x01\x00\x01\x01\x01\x00\x01\x01\x01\x01\x01\x01\x01\x00\x01\x01\x01\x01\x01\x01\x01\x01\x01\x01\x01\x01\x01\x01\x01\
\x00\x01\x01\x01\x01\x01\x01\x01\x01\x01\x01\x01\x01\x01\x01\x01\x01\x01\x01\x01\x01\x01\x01\x01\x01\x01\x01\x01\x01\x01\x01\x01";

// Fills the front of the area. Refused as the image writer refuses: 10, 11, 12, then 13.
pub fn preview(width: usize, height: usize, pixels: &[u8], area: &mut [u8]) -> Verdict
    ensures { (result ≡ preview_verdict width height pixels.now (length area.old))
        × (area.new ≡ preview_area width height pixels.now area.old) }
{
    image::check_pixels(width, height, pixels)?;
    if area.len() < width * height {
        return verdict::refused(Rule::AreaShort, 0);
    }
    fill(Size { width, height }, pixels, area);
    Ok(())
}

fn fill(size: Size, pixels: &[u8], area: &mut [u8])
    requires { IsImage size.width size.height pixels.now × (size.width * size.height ≤ length area.old) }
    ensures { area.new ≡ over (preview size.width size.height pixels.now) area.old }
{
    for row in 0..size.height {
        fill_row(size, pixels, row, area);
    }
}

fn fill_row(size: Size, pixels: &[u8], row: usize, area: &mut [u8])
    requires { IsImage size.width size.height pixels.now × (row < size.height) × (row * size.width + size.width ≤ length area.old) }
    ensures { area.new
        ≡ sets area.old (row * size.width) (tab (λ c. five_or_more (pattern (window size.width size.height pixels.now row c))) size.width) }
{
    let start = row * size.width;
    for col in 0..size.width {
        store(pixels, size, start + col, row, col, area);
    }
}

// The answer at an index goes to the area. Row and column are those of the index (02, T-03).
fn store(pixels: &[u8], size: Size, index: usize, row: usize, col: usize, area: &mut [u8])
    requires { IsImage size.width size.height pixels.now × Cell size.width size.height index row col × (index < length area.old) }
    ensures { area.new
        ≡ set area.old index (five_or_more (pattern (window size.width size.height pixels.now (index / size.width) (index % size.width)))) }
{
    area[index] = answer(window::gather(pixels, size, row, col));
}

// The median of the nine pixels in the middle of the window.
fn answer(win: [[u8; 5]; 5]) -> u8
    requires { pattern win < 512 }
    ensures { result ≡ five_or_more (pattern win) }
{
    let nine = three(win[1]) + 8 * three(win[2]) + 64 * three(win[3]);
    let table = answers();
    table[nine]
}

// The rule of the 512 answers, as one computed test over the table.
fn answers() -> [u8; 512]
    ensures { result ≡ tab five_or_more 512 }
{
    ANSWERS
}

// The three pixels in the middle of a row, as bits.
fn three(row: [u8; 5]) -> usize
    ensures { (result ≡ from_bits (get_or row 1 0 ∷ get_or row 2 0 ∷ get_or row 3 0 ∷ [])) × (result ≤ 1785) }
{
    usize::from(row[1]) + 2 * usize::from(row[2]) + 4 * usize::from(row[3])
}
