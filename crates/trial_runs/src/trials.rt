// 01's trials that are no proved cases, and generated pairs of table and image.
ghost use Rattle.std.specs.Prelude.{◌<◌};

use crate::grid::{Place, Size};
use crate::images::Image;
use crate::jobs::Trial;
use crate::library::Library;
use crate::report::Tally;
use crate::{files, generator, images, tables};
use std::io;
use table::Table;

const PAIRS: u16 = 2048;

// A white image of this width and of one row: the number that load refuses it by, or 0.
pub(crate) fn width(rt: &impl Print, width: u16) -> io::Result<()> {
    let white = Image::new(Size { width, height: 1 }, |_| 0);
    let loaded = loaded(tables::ring(), &white);
    let number = match loaded.side.answer {
        Ok(_) => 0,
        Err(refusal) => refusal.rule.number(),
    };
    println!(rt; "width {width}: refusal {number}")
}

// Median's 56 elements on 24 × 24, black only at columns 11 to 12, rows 9 to 14.
pub(crate) fn median(rt: &impl Print, tally: &mut Tally) -> io::Result<()> {
    let size = Size {
        width: 24,
        height: 24,
    };
    let bar = Image::new(size, |place| u8::from(is_in_bar(place)));
    let table = tables::median();
    let mut stable = loaded(table, &bar);
    stable.run();
    let job = stable.side.job;
    println!(rt;
        "median's {} elements on 24 x 24: {} passes, {} added, {} removed",
        job.table.count, job.passes, job.added, job.removed
    )?;
    Trial::new(0, table, bar).run(tally);
    Ok(())
}

fn is_in_bar(place: Place) -> bool {
    (9..15).contains(&place.row) && (11..13).contains(&place.col)
}

// What the library leaves of a load.
fn loaded(table: Table, image: &Image) -> Library {
    let file = files::written(image);
    let mut library = Library::new();
    library.load(table, file.as_slice());
    library
}

fn pair(tally: &mut Tally, seed: u32, size: Size) {
    let table = tables::generated(seed);
    Trial::new(seed, table, images::drawn(seed, size)).run(tally);
}

// The image is that of three files.
fn of_three(tally: &mut Tally, seed: u32, size: Size) {
    let table = tables::generated(seed);
    let drawn = images::three(seed, size);
    let image = images::majority(size, &drawn);
    let [one, two, three] = drawn;
    let one = files::written(&one);
    let two = files::written(&two);
    let three = files::written(&three);
    let files = [one.as_slice(), two.as_slice(), three.as_slice()];
    Trial::new(seed, table, image).run_three(tally, files);
}

// Pairs of every width up to one limit with every height up to another, again and again; in every fifth the image is that of three files.
pub(crate) fn generated(tally: &mut Tally, seed: u32, wide: u16, high: u16)
    requires { (0 < wide) × (0 < high) }
{
    for k in 0..PAIRS {
        let size = Size {
            width: 1 + k % wide,
            height: 1 + k / wide % high,
        };
        let drawn = generator::draw(seed, u32::from(k));
        if k % 5 == 4 {
            of_three(tally, drawn, size);
        } else {
            pair(tally, drawn, size);
        }
    }
}
