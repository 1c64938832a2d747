// The parts of a record (02, T-08): a single image is one part, and every place behind it is 0.
use image::strip::{MAX_PARTS, PartCounts, Strip};

pub(crate) fn whole(width: usize, height: usize) -> Strip {
    Strip {
        parts: 1,
        widths: first(width),
        heights: first(height),
    }
}

pub(crate) fn none() -> Strip {
    Strip {
        parts: 0,
        widths: first(0),
        heights: first(0),
    }
}

pub(crate) fn counts(added: usize, removed: usize) -> PartCounts {
    PartCounts {
        added: first(added),
        removed: first(removed),
    }
}

fn first(n: usize) -> [usize; MAX_PARTS] {
    let mut places = [0; MAX_PARTS];
    places[0] = n;
    places
}
