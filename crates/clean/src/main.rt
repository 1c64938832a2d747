// The cleaning program (01, Trial sheets and tables): table.mtb and sheet.pbm in, clean.pbm and one line out.
#![tactic(auto)]

mod files;
mod say;

use files::{Failure, Name};
use history::Job;
use image::size::MAX_PIXELS;
use say::Line;
use std::rt::Runtime;
use verdict::Refusal;

// One byte more than the longest accepted file, so that a longer one is refused as its whole self would be.
const TABLE_ROOM: usize = table::MAX_FILE + 1;

const SHEET_ROOM: usize = image::MAX_FILE + 1;

// Why there is no clean image.
#[derive(Drop)]
enum Trouble {
    Refused(Refusal),
    Failed(Failure),
}

impl From<Refusal> for Trouble {
    fn from(refusal: Refusal) -> Trouble {
        Trouble::Refused(refusal)
    }
}

impl From<Failure> for Trouble {
    fn from(failure: Failure) -> Trouble {
        Trouble::Failed(failure)
    }
}

fn main(rt: HostRuntime) {
    match clean(&rt) {
        Ok(job) => say::print(&rt, Line::Cleaned(job)),
        Err(Trouble::Refused(refusal)) => say::print(&rt, Line::Refused(refusal)),
        Err(Trouble::Failed(failure)) => {
            say::failure(&rt, &failure);
            files::clear(&rt, &failure);
        }
    }
}

// A whole job; the record is that of the job at rest.
fn clean<R: Runtime>(rt: &R) -> Result<Job, Trouble> {
    let mut file = [0u8; TABLE_ROOM];
    let table = table::read(files::read(rt, Name::Table, &mut file)?)?;
    let mut room = [0u8; SHEET_ROOM];
    let sheet = files::read(rt, Name::Sheet, &mut room)?;
    let mut first = [0u8; MAX_PIXELS];
    let mut second = [0u8; MAX_PIXELS];
    let mut job = job::empty();
    job::load(&mut job, table, sheet, &mut first, &second)?;
    job::run(&mut job, &mut first, &mut second)?;
    let stable = job;
    let mut out = [0u8; SHEET_ROOM];
    let length = job::collect(&mut job, &first, &second, &mut out)?;
    files::replace(rt, &out[..length.min(SHEET_ROOM)])?;
    Ok(stable)
}
