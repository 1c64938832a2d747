// The parts of a record (02, T-08): a single image is one part, and places past the parts are 0.
ghost use Rattle.std.specs.Prelude.{not, ◌&&◌, [], ◌∷◌, ◌≡◌, ℕ, ◌+◌, ◌≤◌, ◌<◌, eqb, length, get_or, take};
ghost use Rattle.history.specs.State.{part_fields, sums_to, bad_parts};
ghost use Rattle.image.specs.Answers.{read_width, read_height};
ghost use Rattle.image.specs.Strip.{max_parts, max_strip, padded, strip_width, strip_height, strip_of, no_counts};
ghost use Rattle.job.specs.Code.Parts.{set_from};
ghost use Rattle.job.specs.Code.Passes.{of_one, Fit};
ghost use Rattle.operator.specs.Parts;
ghost use Rattle.seq.specs.Lists.{any, all, sum_of};
ghost use Rattle.seq.specs.Tab.{tab};

use history::Job;
use image::size::Size;
use image::strip::{MAX_PARTS, PartCounts, Strip};
use verdict::Refusal;

pub(crate) fn none() -> PartCounts
    ensures { result ≡ no_counts }
{
    PartCounts {
        added: [0usize; MAX_PARTS],
        removed: [0usize; MAX_PARTS],
    }
}

// An image as one part; of a refused read nobody looks at it.
pub(crate) fn whole(read: Result<Size, Refusal>) -> Strip
    ensures { result ≡ strip_of (read_width read) (read_height read ∷ []) }
{
    match read {
        Ok(Size { width, height }) => alone(width, height),
        Err(_) => alone(0, 0),
    }
}

fn alone(width: usize, height: usize) -> Strip
    ensures { result ≡ strip_of width (height ∷ []) }
{
    Strip {
        parts: 1,
        widths: first(width),
        heights: first(height),
    }
}

// A number at the first place.
fn first(n: usize) -> [usize; MAX_PARTS]
    ensures { result ≡ padded (n ∷ []) }
{
    let mut places = [0usize; MAX_PARTS];
    places[0] = n;
    places
}

// What a single image gained and lost, as counts of its one part.
pub(crate) fn of_one(added: usize, removed: usize) -> PartCounts
    ensures { result ≡ of_one added removed }
{
    PartCounts {
        added: first(added),
        removed: first(removed),
    }
}

// A strip with zeros past its parts.
pub(crate) fn kept(strip: Strip) -> Strip
    ensures { result ≡ Rattle.image.specs.Strip.kept strip }
{
    Strip {
        parts: strip.parts,
        widths: front(&strip.widths, strip.parts),
        heights: front(&strip.heights, strip.parts),
    }
}

// The first numbers, and zeros past them.
fn front(numbers: &[usize; MAX_PARTS], count: usize) -> [usize; MAX_PARTS]
    ensures { result ≡ padded (take count numbers.now) }
{
    let mut places = [0usize; MAX_PARTS];
    for i in 0..MAX_PARTS {
        places[i] = front_at(numbers, count, i);
    }
    places
}

fn front_at(numbers: &[usize; MAX_PARTS], count: usize, i: usize) -> usize
    requires { i < max_parts }
    ensures { result ≡ get_or (take count numbers.now) i 0 }
{
    if i < count { numbers[i] } else { 0 }
}

// Part by part.
pub(crate) fn summed(counts: PartCounts, more: PartCounts) -> PartCounts
    requires { Fit counts more }
    ensures { result ≡ Parts.summed counts more }
{
    PartCounts {
        added: sums(&counts.added, &more.added),
        removed: sums(&counts.removed, &more.removed),
    }
}

fn sums(numbers: &[usize; MAX_PARTS], more: &[usize; MAX_PARTS]) -> [usize; MAX_PARTS]
    requires { (i : ℕ) → i < max_parts → get_or numbers.now i 0 + get_or more.now i 0 ≤ max_strip }
    ensures { result ≡ tab (λ i. get_or numbers.now i 0 + get_or more.now i 0) max_parts }
{
    let mut places = [0usize; MAX_PARTS];
    for i in 0..MAX_PARTS {
        places[i] = numbers[i] + more[i];
    }
    places
}

// What 14 asks of the parts at stage 1 and 2.
pub(crate) fn are_bad(job: &Job) -> bool
    ensures { result ≡ bad_parts job.now }
{
    if let Err(_) = image::strip::check_shape(job.strip) {
        return true;
    }
    if !is_size(job) {
        return true;
    }
    if any_past(job, job.strip.parts) {
        return true;
    }
    !are_counts(job)
}

// Width and height are those of the parts together.
fn is_size(job: &Job) -> bool
    requires { job.now.strip.parts ≤ max_parts }
    ensures { result ≡ (eqb job.now.width (strip_width job.now.strip) && eqb job.now.height (strip_height job.now.strip)) }
{
    job.width == job.strip.widths[0] && sums_to(&job.strip.heights[..job.strip.parts], job.height)
}

// The counts of the parts sum to the record's.
fn are_counts(job: &Job) -> bool
    ensures { result ≡ (sums_to job.now.added job.now.counts.added && sums_to job.now.removed job.now.counts.removed) }
{
    sums_to(&job.counts.added, job.added) && sums_to(&job.counts.removed, job.removed)
}

// A place from `parts` on is not zero, in a field that has one for each part.
pub(crate) fn any_past(job: &Job, parts: usize) -> bool
    requires { parts ≤ max_parts }
    ensures { result ≡ any (set_from parts) (part_fields job.now) }
{
    any_from(&job.strip.widths, parts)
        || any_from(&job.strip.heights, parts)
        || any_from(&job.counts.added, parts)
        || any_from(&job.counts.removed, parts)
}

// A number from place `from` on is not zero.
fn any_from(numbers: &[usize], from: usize) -> bool
    requires { from ≤ length numbers.now }
    ensures { result ≡ set_from from numbers.now }
{
    any_set(&numbers[from..])
}

fn any_set(numbers: &[usize]) -> bool
    ensures { result ≡ not (all (eqb 0) numbers.now) }
{
    numbers.iter().any(|number| *number != 0)
}

// The numbers sum to a total. What is left of it is counted down, so that nothing wraps.
fn sums_to(numbers: &[usize], total: usize) -> bool
    ensures { result ≡ eqb total (sum_of numbers.now) }
{
    let mut left = total;
    for number in numbers {
        if left < *number {
            return false;
        }
        left -= *number;
    }
    left == 0
}
