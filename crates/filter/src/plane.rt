// The image as packed codes: bytes to plane and back. specs/Code/Plane.antt has the layout. Functions of this crate take a plane or map whole and a place in
// it: promises (`Packed`, `Swept`) speak of its places, and a cut slice would move each of them.
ghost use Rattle.std.specs.Prelude.{◌≡◌, ℕ, ◌+◌, ◌-◌, ◌*◌, ◌/◌, ◌%◌, ◌≤◌, ◌<◌, length, get_or};
ghost use Rattle.filter.specs.Code.Plane.{band, halo, step, rim, quad, folded, Inside, White, Packed, Refreshed, RowPacked, RowsPacked};
ghost use Rattle.image.specs.Size.{max_side};
ghost use Rattle.operator.specs.Image.{IsImage};
ghost use Rattle.seq.specs.Bits.{bit};
ghost use Rattle.seq.specs.Loops.{Swept};

use crate::sides::Sides;
use image::size::MAX_SIDE;

// Columns of a band, columns beside it, bytes of a row, rows above and below the image.
pub(crate) const BAND: usize = 64;

pub(crate) const HALO: usize = 8;

pub(crate) const STEP: usize = BAND + HALO + HALO;

pub(crate) const RIM: usize = 6;

pub(crate) fn pack(pixels: &[u8], sides: Sides, plane: &mut [u8])
    requires { IsImage sides.width sides.height pixels.now × (step * (sides.height + 2 * rim) ≤ length plane.old) }
    ensures { Packed sides.width sides.height pixels.now plane.new }
{
    fill(plane, 0, RIM * STEP, 0);
    pack_rows(pixels, sides, plane);
    fill(plane, (RIM + sides.height) * STEP, RIM * STEP, 0);
}

pub(crate) fn fill(out: &mut [u8], from: usize, count: usize, value: u8)
    requires { from + count ≤ length out.old }
    ensures { Swept (λ j. value) out.old out.new from (from + count) }
{
    out[from..from + count].fill(value);
}

// Row by row; the places of a row's first pixel and of its first byte are carried along.
fn pack_rows(pixels: &[u8], sides: Sides, plane: &mut [u8])
    requires { IsImage sides.width sides.height pixels.now × (step * (sides.height + 2 * rim) ≤ length plane.old) }
    ensures { RowsPacked sides.width pixels.now sides.height plane.old plane.new }
{
    let Sides { width, height } = sides;
    let inside = inside(width);
    let mut line = [0u8; MAX_SIDE];
    let mut from = 0;
    let mut to = RIM * STEP;
    for row in 0..height {
        pack_row(pixels, from, width, &inside, &mut line, plane, to);
        from += width;
        to += STEP;
    }
}

// A row of full width is folded where it stands, another one by a line that is white behind it.
fn pack_row(
    pixels: &[u8],
    from: usize,
    width: usize,
    inside: &[u8; BAND],
    line: &mut [u8; MAX_SIDE],
    plane: &mut [u8],
    to: usize,
)
    requires { (from + width ≤ length pixels.now) × (width ≤ max_side) × (to + step ≤ length plane.old) × ((j : ℕ) → get_or pixels.now j 0 ≤ 1)
        × Inside width inside.now × White width line.old }
    ensures { RowPacked width pixels.now from plane.old plane.new to × White width line.new }
{
    if width == MAX_SIDE {
        fold(pixels, from, inside, plane, to + HALO);
    } else {
        copy(pixels, from, line, 0, width);
        fold(line, 0, inside, plane, to + HALO);
    }
    refresh(plane, to);
}

pub(crate) fn copy(source: &[u8], from: usize, out: &mut [u8], to: usize, count: usize)
    requires { (from + count ≤ length source.now) × (to + count ≤ length out.old) }
    ensures { Swept (λ j. get_or source.now (from + (j - to)) 0) out.old out.new to (to + count) }
{
    out[to..to + count].copy_from_slice(&source[from..from + count]);
}

// The code 1 in each band whose column lies inside.
fn inside(width: usize) -> [u8; BAND]
    ensures { Inside width result }
{
    let mut row = [0u8; BAND];
    for k in 0..BAND {
        row[k] = u8::from(k < width)
            + 4 * u8::from(64 + k < width)
            + 16 * u8::from(128 + k < width)
            + 64 * u8::from(192 + k < width);
    }
    row
}

// 256 pixels as 64 bytes of codes.
fn fold(source: &[u8], from: usize, inside: &[u8; BAND], out: &mut [u8], to: usize)
    requires { (from + max_side ≤ length source.now) × (to + band ≤ length out.old)
        × ((j : ℕ) → get_or source.now j 0 ≤ 1) × ((j : ℕ) → j < band → get_or inside.now j 0 ≤ 85) }
    ensures { Swept (λ j. folded source.now from (j - to) + get_or inside.now (j - to) 0)
        out.old out.new to (to + band) }
{
    for k in 0..BAND {
        out[to + k] = codes(
            source[from + k],
            source[from + 64 + k],
            source[from + 128 + k],
            source[from + 192 + k],
            inside[k],
        );
    }
}

// Four pixels' codes in a byte.
fn codes(a: u8, b: u8, c: u8, d: u8, inside: u8) -> u8
    requires { (a ≤ 1) × (b ≤ 1) × (c ≤ 1) × (d ≤ 1) × (inside ≤ 85) }
    ensures { result ≡ quad a b c d + inside }
{
    a + 4 * b + 16 * c + 64 * d + inside
}

// The columns beside the bands of the row that begins at `at`, from the bands' own bytes.
pub(crate) fn refresh(plane: &mut [u8], at: usize)
    requires { at + step ≤ length plane.old }
    ensures { Refreshed plane.old plane.new at }
{
    refresh_left(plane, at);
    refresh_right(plane, at);
}

// Before the bands: the last columns of the band before; none before the first band.
fn refresh_left(plane: &mut [u8], at: usize)
    requires { at + step ≤ length plane.old }
    ensures { Swept (λ j. get_or plane.old (j + band) 0 * 4 % 256) plane.old plane.new at (at + halo) }
{
    for k in 0..HALO {
        plane[at + k] = plane[at + BAND + k] << 2;
    }
}

// Behind the bands: the first columns of the band behind; none behind the last band.
fn refresh_right(plane: &mut [u8], at: usize)
    requires { at + step ≤ length plane.old }
    ensures { Swept (λ j. get_or plane.old (j - band) 0 / 4) plane.old plane.new (at + halo + band) (at + step) }
{
    for k in 0..HALO {
        plane[at + HALO + BAND + k] = plane[at + HALO + k] >> 2;
    }
}

// The codes of the other value.
pub(crate) fn other(codes: u8) -> u8
    ensures { (l v : ℕ) → l < 4 → v < 2 → bit result (2 * l + v) ≡ bit codes (2 * l + (1 - v)) }
{
    ((codes << 1) & 170) | ((codes >> 1) & 85)
}
