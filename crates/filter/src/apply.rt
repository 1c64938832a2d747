// Passes over slices (01, One pass): `pass` judges all that it is given; `again` is for callers that have judged the table; `repeat` makes several.
ghost use Rattle.filter.specs.Applied;
ghost use Rattle.std.specs.Prelude.{true, false, ◌≡◌, ◌*◌, ◌≤◌, length, take, slice_index, EachIndex, IsTrue, ◌↔◌};
ghost use Rattle.filter.specs.Applied.{pass_verdict, filtered_area, again_verdict, again_area, ranged};
ghost use Rattle.filter.specs.Code.Blocks.{Switched};
ghost use Rattle.operator.specs.Image.{IsImage};
ghost use Rattle.filter.specs.Repeated.{repeated, answer, leaves, first_area, second_area};
ghost use Rattle.image.specs.Size.{bad_size};
ghost use Rattle.seq.specs.Lists.{all};
ghost use Rattle.table.specs.declared.Table.{Table};
ghost use Rattle.table.specs.Mask.{valid_mask};
ghost use Rattle.table.specs.Record;
ghost use Rattle.table.specs.Record.{max_elements, masks};

use crate::candidate::PARTS;
use crate::masks::Masks;
use crate::scratch::Scratch;
use crate::sides::Sides;
use crate::{Budget, Changes, Filtered, Repeated, blocks, candidate, plane, run, scratch, show};
use table::{MAX_ELEMENTS, MAX_RANKS, Table};
use verdict::{Refusal, Rule, Verdict};

// The next image goes to the front of `next`. Refused as the table's check refuses, then by 10, 11, 12 (the pixel bytes) and 13.
pub fn pass(table: Table, width: usize, height: usize, pixels: &[u8], next: &mut [u8]) -> Filtered
    ensures { (result ≡ Applied.filtered table width height pixels.now (length next.old))
        × (next.new ≡ filtered_area table width height pixels.now next.old) }
{
    table::check(table)?;
    again(table, width, height, pixels, next)
}

// A pass with a table that was judged before. Of the table only the ranges are looked at; for an accepted one it is `pass`.
pub fn again(table: Table, width: usize, height: usize, pixels: &[u8], next: &mut [u8]) -> Filtered
    ensures { (result ≡ Applied.again table width height pixels.now (length next.old))
        × (next.new ≡ again_area table width height pixels.now next.old) }
{
    check(table, width, height, pixels, next.len())?;
    Ok(filtered(table, Sides { width, height }, pixels, next))
}

// Passes one after the other, from the image at the front of `first`, as long as they change pixels and the budget allows them. Afterwards the image stands
// in `first` where their number is even, else in `second`. Refused as `pass` refuses.
pub fn repeat(
    table: Table,
    width: usize,
    height: usize,
    budget: Budget,
    first: &mut [u8],
    second: &mut [u8],
) -> Result<Repeated, Refusal>
    ensures { (result ≡ answer (repeated table width height budget first.old second.old))
        × (first.new ≡ leaves first_area (repeated table width height budget first.old second.old) first.old)
        × (second.new ≡ leaves second_area (repeated table width height budget first.old second.old) second.old) }
{
    admit(table, width, height, first, second.len())?;
    Ok(run::run(
        &table.elements[..table.count],
        &table.persistents[..table.ranks],
        Sides { width, height },
        budget,
        first,
        second,
    ))
}

// What `repeat` refuses: as `pass` on the front of the first area.
fn admit(table: Table, width: usize, height: usize, first: &[u8], area: usize) -> Verdict
    ensures { result ≡ pass_verdict table width height (take (width * height) first.now) area }
{
    table::check(table)?;
    check(table, width, height, front(width, height, first), area)
}

// As many bytes as an image of a good size has, fewer where there are fewer.
fn front(width: usize, height: usize, area: &[u8]) -> &[u8]
    ensures { bad_size width height ≡ false → result.now ≡ take (width * height) area.now }
{
    if image::size::is_bad(width, height) {
        return &area[..0];
    }
    &area[..area.len().min(width * height)]
}

// What `again` refuses: a table that is out of range, by its own number; 10, 11, 12; 13.
fn check(table: Table, width: usize, height: usize, pixels: &[u8], area: usize) -> Verdict
    ensures { result ≡ again_verdict table width height pixels.now area }
{
    if !is_ranged(table) {
        return table::check(table);
    }
    image::check_pixels(width, height, pixels)?;
    if area < width * height {
        return verdict::refused(Rule::AreaShort, 0);
    }
    Ok(())
}

pub(crate) fn filtered(table: Table, sides: Sides, pixels: &[u8], next: &mut [u8]) -> Changes
    requires { (ranged table ≡ true) × IsImage sides.width sides.height pixels.now × (sides.width * sides.height ≤ length next.old) }
    ensures { Switched table sides.width sides.height pixels.now next.old next.new result.added result.removed }
{
    by_masks(
        &table.elements[..table.count],
        &table.persistents[..table.ranks],
        sides,
        pixels,
        next,
    )
}

// The image becomes a plane, one pass turns it, and it becomes pixels again.
fn by_masks(
    elements: &[u32],
    persistents: &[u32],
    sides: Sides,
    pixels: &[u8],
    next: &mut [u8],
) -> Changes
    requires { (all valid_mask elements.now ≡ true) × (length elements.now ≤ max_elements) × IsImage sides.width sides.height pixels.now
        × (sides.width * sides.height ≤ length next.old) }
    ensures { (t : Table) → masks t ≡ elements.now → Record.persistents t ≡ persistents.now
        → Switched t sides.width sides.height pixels.now next.old next.new result.added result.removed }
{
    let mut parts = [0usize; PARTS];
    let tests = candidate::parts_of(elements, &mut parts);
    let masks = Masks {
        elements,
        persistents,
        parts: &parts[..tests],
    };
    let mut plane = scratch::plane();
    let mut flips = scratch::flips();
    let mut scratch = Scratch::new();
    let all = scratch::all_rows();
    plane::pack(pixels, sides, &mut plane);
    let changes = blocks::advance(&masks, sides, &all, &mut plane, &mut flips, &mut scratch);
    show::show(sides, &all, &plane, next);
    changes
}

fn is_ranged(table: Table) -> bool
    ensures { result ≡ ranged table }
{
    if MAX_ELEMENTS < table.count || MAX_RANKS < table.ranks {
        return false;
    }
    are_valid(&table.elements[..table.count])
}

fn are_valid(elements: &[u32]) -> bool
    ensures { IsTrue result ↔ EachIndex elements.now (λ k. valid_mask (slice_index elements.now k) ≡ true) }
{
    elements.iter().all(|e| table::mask::is_valid(*e))
}
