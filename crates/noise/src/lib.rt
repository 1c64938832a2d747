// Trial sheets (02, T-11): noise images that anyone can make from a seed, a width and a height.
#![tactic(auto)]

mod generator;

ghost use Rattle.std.specs.Prelude.{◌≡◌, length};
ghost use Rattle.noise.specs.Noise.{blackness, noise_pixel, noise_verdict, noise_area};
ghost use Rattle.seq.specs.Tab.{tab};

use crate::generator::{LONG_LAG, SHORT_LAG};
use verdict::{Rule, Verdict};

// The least number that is black.
const HALF: u32 = 2147483648;

// Fills the front of the area with the image of the seed: 10, then 13; every seed is good.
pub fn fill(seed: u32, width: usize, height: usize, area: &mut [u8]) -> Verdict
    ensures { (result ≡ noise_verdict width height (length area.old))
        × (area.new ≡ noise_area seed width height area.old) }
{
    if image::size::is_bad(width, height) {
        return verdict::refused(Rule::SizeRange, 0);
    }
    let count = width * height;
    if area.len() < count {
        return verdict::refused(Rule::AreaShort, 0);
    }
    draw(seed, &mut area[..count]);
    Ok(())
}

// The last 55 numbers stand in a ring. The next one takes the place of the oldest, 55 places earlier; the recent one is 24 places earlier.
fn draw(seed: u32, image: &mut [u8])
    ensures { image.new ≡ tab (noise_pixel seed) (length image.old) }
{
    let mut ring = generator::seeds(seed);
    let mut oldest = 0;
    let mut recent = LONG_LAG - SHORT_LAG;
    for pixel in image.iter_mut() {
        let number = ring[recent].wrapping_add(ring[oldest]);
        ring[oldest] = number;
        *pixel = black(number);
        oldest = generator::after(oldest);
        recent = generator::after(recent);
    }
}

fn black(number: u32) -> u8
    ensures { result ≡ blackness number }
{
    u8::from(HALF <= number)
}
