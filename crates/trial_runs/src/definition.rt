// Second implementation: the calls on a job, written from 01 (The job) for jobs that are not refused.
use crate::area::{AREA, copy_to_front};
use crate::grid::Size;
use crate::images::Image;
use crate::side::{Answer, SECOND, Side, empty};
use crate::{files, parts, passes};
use history::{Effect, Figures, Job};
use std::mem;
use table::Table;

// The stages of a record are numbers, since the C interface has the record.
const LOADED: u8 = 1;

const STABLE: u8 = 2;

// Here the area that holds the image stands first.
#[derive(Drop)]
pub(crate) struct Definition {
    table: Table,
    image: Image,
    side: Side,
}

impl Definition {
    // A job that has loaded an image.
    pub(crate) fn load(table: Table, image: Image) -> Definition {
        let width = usize::from(image.size.width);
        let height = usize::from(image.size.height);
        let mut side = Side::start();
        side.job = Job {
            stage: LOADED,
            width,
            height,
            table,
            strip: parts::whole(width, height),
            ..empty()
        };
        copy_to_front(&mut side.first, image.pixels());
        Definition { table, image, side }
    }

    // The areas where they are: the image is in the first one when passes is even, else in the second.
    pub(crate) fn side(&self) -> Side {
        let mut placed = self.side;
        if placed.job.passes % 2 == 1 {
            mem::swap(&mut placed.first, &mut placed.second);
        }
        placed
    }

    // The other area takes the next image, quiet or not. A pass that changed pixels is counted; after a quiet one the job is at rest.
    pub(crate) fn pass(&mut self) {
        let next = passes::next(&self.table, &self.image);
        let added = turned(&self.image, &next, 1);
        let removed = turned(&self.image, &next, 0);
        copy_to_front(&mut self.side.second, next.pixels());
        self.image = next;
        if added == 0 && removed == 0 {
            self.side.job.stage = STABLE;
            self.side.answered(Ok(Answer::Passed(Effect::Stable)));
        } else {
            self.count(added, removed);
            self.side.answered(Ok(Answer::Passed(Effect::Changed)));
        }
    }

    pub(crate) fn is_at_rest(&self) -> bool {
        self.side.job.stage == STABLE
    }

    fn count(&mut self, added: usize, removed: usize) {
        let side = &mut self.side;
        side.job.passes = side.job.passes.saturating_add(1);
        side.job.added = side.job.added.saturating_add(added);
        side.job.removed = side.job.removed.saturating_add(removed);
        side.job.counts = parts::counts(side.job.added, side.job.removed);
        mem::swap(&mut side.first, &mut side.second);
    }

    pub(crate) fn view(&mut self) {
        let mut out = [SECOND; AREA];
        let length = copy_to_front(&mut out, self.image.pixels());
        self.side.out = out;
        self.side.answer = Ok(Answer::Shown(length));
    }

    // Cover in thousandths; balance signed.
    pub(crate) fn figures(&mut self) {
        let job = self.side.job;
        let black = self.image.pixels().iter().filter(|value| **value == 1);
        let cover = thousandths(black.count(), self.image.size);
        self.side.answer = Ok(Answer::Told(Figures {
            balance: difference(job.added, job.removed),
            cover,
        }));
    }

    pub(crate) fn collect(&mut self) {
        let file = files::written(&self.image);
        let mut side = self.side();
        side.job = empty();
        side.out = [SECOND; AREA];
        side.answer = Ok(Answer::Collected(copy_to_front(&mut side.out, file.as_slice())));
        self.side = side;
    }
}

// How many pixels have this value, and had the other.
fn turned(before: &Image, after: &Image, value: u8) -> usize {
    let both = before.pixels().iter().zip(after.pixels().iter());
    both.filter(|(old, new)| **old == value ^ 1 && **new == value)
        .count()
}

// To the nearest: a half is added and the rest cut off. Nothing is left exactly where a half was added to a half; the even one is then this or
// the one before.
fn thousandths(black: usize, size: Size) -> usize {
    let pixels = u64::from(size.width) * u64::from(size.height);
    if pixels == 0 {
        return 0;
    }
    let sum = (black as u64).saturating_mul(2000).saturating_add(pixels);
    let near = sum / (2 * pixels);
    if sum % (2 * pixels) == 0 {
        return (near - near % 2) as usize;
    }
    near as usize
}

fn difference(a: usize, b: usize) -> i64 {
    a.cast_signed().saturating_sub(b.cast_signed()) as i64
}
