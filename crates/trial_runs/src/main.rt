// Trials against a second implementation (01, Trial sheets and tables): it and the library do the same jobs, and all that they leave is
// compared. It is written from 01, shares plain data types only, and stands in passes, shapes, files, images (the majority) and definition.
#![tactic(auto)]

mod area;
mod definition;
mod files;
mod generator;
mod grid;
mod images;
mod jobs;
mod library;
mod parts;
mod passes;
mod report;
mod shapes;
mod side;
mod tables;
mod trials;

use report::Tally;
use std::io;

fn main(rt: HostRuntime) -> io::Result<()> {
    trials::width(&rt, 256)?;
    trials::width(&rt, 257)?;
    let mut tally = Tally::new();
    trials::median(&rt, &mut tally)?;
    trials::generated(&mut tally, 1, 8, 8);
    trials::generated(&mut tally, 2, 33, 33);
    trials::generated(&mut tally, 3, 256, 4);
    trials::generated(&mut tally, 4, 4, 256);
    println!(rt; "{tally}")
}
