// One pass over a strip (02, T-08), some rows at a time. A band is these rows with six more above and below them, as far as the strip has them: one pass
// looks no further (T-09), so in its inner rows the pass over the band is the pass over the strip. No memory grows with the strip.
ghost use Rattle.std.specs.Prelude.{cond, ◌≡◌, ◌+◌, ◌-◌, ◌*◌, ◌≤◌, length, sum};
ghost use Rattle.filter.specs.Code.Strip.{row_limit, Tall, BandMade, RowsChanged, RowsMade, totalled};
ghost use Rattle.filter.specs.Crossed.{cross_verdict, overfull, uncrossed, crossed_if, crossed, crossed_area};
ghost use Rattle.image.specs.File.{read_as};
ghost use Rattle.image.specs.Size.{max_side};
ghost use Rattle.image.specs.Strip.{max_parts, max_rows, strip_width, strip_height};
ghost use Rattle.operator.specs.Parts.{part_counts};
ghost use Rattle.operator.specs.Pass.{pass};
ghost use Rattle.seq.specs.Lists.{sum_of};
ghost use Rattle.verdict.specs.Writer.{over};

use crate::sides::Sides;
use crate::{Changes, Crossed, End, apply, plane, tally};
use image::size::{MAX_SIDE, Size};
use image::strip::{MAX_PARTS, PartCounts, Strip};
use table::Table;
use verdict::{Refusal, Rule};

// How far one pass looks.
const REACH: usize = 6;

// The rows that are taken at a time, and the pixels of a band of them.
const ROWS: usize = 128;

const BAND: usize = (ROWS + REACH + REACH) * MAX_SIDE;

// The strip after one pass goes to the front of `next`, unless more than `room` pixels change. Refused as the table's check refuses, then as `image::strip::check`
// refuses, and by 13.
pub fn pass(
    table: Table,
    strip: Strip,
    room: usize,
    pixels: &[u8],
    next: &mut [u8],
) -> Result<Crossed, Refusal>
    ensures { (result ≡ crossed table strip room pixels.now (length next.old))
        × (next.new ≡ crossed_area table strip room pixels.now next.old) }
{
    let size = admit(table, strip, pixels, next.len())?;
    let scene = Scene {
        table,
        width: size.width,
        height: size.height,
        pixels,
    };
    Ok(cross(&scene, strip, room, next))
}

// The size of the strip as one image, or what `pass` refuses.
fn admit(table: Table, strip: Strip, pixels: &[u8], area: usize) -> Result<Size, Refusal>
    ensures { result ≡ read_as (cross_verdict table strip pixels.now area) (strip_width strip) (strip_height strip) }
{
    table::check(table)?;
    let size = image::strip::size_of(strip, pixels)?;
    if area < size.width * size.height {
        return verdict::refused(Rule::AreaShort, 0);
    }
    Ok(size)
}

// The pass over an admitted strip.
fn cross(scene: &Scene<'_>, strip: Strip, room: usize, next: &mut [u8]) -> Crossed
    requires { (scene.now.width ≡ strip_width strip) × (scene.now.height ≡ strip_height strip) × (strip.parts ≤ max_parts)
        × (scene.now.width * scene.now.height ≤ length next.old) }
    ensures { (result ≡ crossed_if (overfull room scene.now.pixels.now (pass scene.now.table scene.now.width scene.now.height scene.now.pixels.now)) strip scene.now.pixels.now (pass scene.now.table scene.now.width scene.now.height scene.now.pixels.now))
        × (next.new ≡ cond (overfull room scene.now.pixels.now (pass scene.now.table scene.now.width scene.now.height scene.now.pixels.now)) next.old (over (pass scene.now.table scene.now.width scene.now.height scene.now.pixels.now) next.old)) }
{
    if scene.exceeds(room) {
        return unmade();
    }
    made(scene.write_parts(&strip.heights[..strip.parts], next))
}

// No pass is made, since there is no room for it.
fn unmade() -> Crossed
    ensures { result ≡ uncrossed }
{
    let parts = PartCounts {
        added: [0usize; MAX_PARTS],
        removed: [0usize; MAX_PARTS],
    };
    Crossed {
        added: 0,
        removed: 0,
        parts,
        end: End::Full,
    }
}

// A strip as one image, and the table of the pass over it.
#[derive(Clone, Copy)]
struct Scene<'a> {
    table: Table,
    width: usize,
    height: usize,
    pixels: &'a [u8],
    ghost tall: { Tall table width height pixels.now },
}

impl Scene<'_> {
    // Whether more than `room` pixels change. It need not count on once the rows that are left cannot have so many; nothing is written.
    fn exceeds(&self, room: usize) -> bool
        ensures { result ≡ overfull room self.now.pixels.now (pass self.now.table self.now.width self.now.height self.now.pixels.now) }
    {
        let mut counted: usize = 0;
        for from in (0..self.height).step_by(ROWS) {
            if counted + self.width * (self.height - from) <= room {
                return false;
            }
            let rows = ROWS.min(self.height - from);
            let changes = self.count_rows(from, rows);
            counted += changes.added + changes.removed;
        }
        room < counted
    }

    // The strip after the pass goes to the front of `next`, part by part.
    fn write_parts(&self, heights: &[usize], next: &mut [u8]) -> PartCounts
        requires { (self.now.height ≡ sum_of heights.now) × (length heights.now ≤ max_parts) × (self.now.width * self.now.height ≤ length next.old) }
        ensures { (result ≡ part_counts self.now.width heights.now self.now.pixels.now (pass self.now.table self.now.width self.now.height self.now.pixels.now))
            × (next.new ≡ over (pass self.now.table self.now.width self.now.height self.now.pixels.now) next.old) }
    {
        let mut added = [0usize; MAX_PARTS];
        let mut removed = [0usize; MAX_PARTS];
        let mut from = 0;
        for (i, rows) in heights.iter().enumerate() {
            let changes = self.write_part(from, *rows, next);
            added[i] = changes.added;
            removed[i] = changes.removed;
            from += *rows;
        }
        PartCounts { added, removed }
    }

    // Rows of the strip after the pass, to their own place in `next`.
    fn write_part(&self, from: usize, count: usize, next: &mut [u8]) -> Changes
        requires { (from + count ≤ self.now.height) × (self.now.width * self.now.height ≤ length next.old) }
        ensures { RowsMade self.now.table self.now.width self.now.height self.now.pixels.now from count next.old next.new result.added result.removed }
    {
        let mut added: usize = 0;
        let mut removed: usize = 0;
        for done in (0..count).step_by(ROWS) {
            let rows = ROWS.min(count - done);
            let changes = self.write_rows(from + done, rows, next);
            added += changes.added;
            removed += changes.removed;
        }
        Changes { added, removed }
    }

    // No more rows than a band has.
    fn write_rows(&self, from: usize, rows: usize, next: &mut [u8]) -> Changes
        requires { (1 ≤ rows) × (rows ≤ row_limit) × (from + rows ≤ self.now.height) × (self.now.width * self.now.height ≤ length next.old) }
        ensures { RowsMade self.now.table self.now.width self.now.height self.now.pixels.now from rows next.old next.new result.added result.removed }
    {
        let mut band = blank();
        let at = self.next_rows(from, rows, &mut band);
        plane::copy(&band, at, next, self.width * from, self.width * rows);
        tally::tally(self.pixels, self.width * from, &band, at, self.width * rows)
    }

    // What such rows change.
    fn count_rows(&self, from: usize, rows: usize) -> Changes
        requires { (1 ≤ rows) × (rows ≤ row_limit) × (from + rows ≤ self.now.height) }
        ensures { RowsChanged self.now.table self.now.width self.now.height self.now.pixels.now from rows result.added result.removed }
    {
        let mut band = blank();
        let at = self.next_rows(from, rows, &mut band);
        tally::tally(self.pixels, self.width * from, &band, at, self.width * rows)
    }

    // The pass over the band of some rows. They stand in it from the answer on.
    fn next_rows(&self, from: usize, rows: usize, band: &mut [u8; BAND]) -> usize
        requires { (1 ≤ rows) × (rows ≤ row_limit) × (from + rows ≤ self.now.height) }
        ensures { BandMade self.now.table self.now.width self.now.height self.now.pixels.now from rows band.new result }
    {
        let top = from.saturating_sub(REACH);
        let bottom = (from + rows + REACH).min(self.height);
        let start = self.width * top;
        let end = self.width * bottom;
        let sides = Sides {
            width: self.width,
            height: bottom - top,
        };
        apply::filtered(self.table, sides, &self.pixels[start..end], band);
        self.width * (from - top)
    }
}

// By a call, so that a proof knows its length only.
fn blank() -> [u8; BAND] {
    [0u8; BAND]
}

// The answer of a pass that was made: the parts' changes together, and whether anything changed.
fn made(parts: PartCounts) -> Crossed
    requires { sum_of parts.added + sum_of parts.removed ≤ max_side * max_rows }
    ensures { result ≡ totalled parts }
{
    let added = total(&parts.added);
    let removed = total(&parts.removed);
    let end = if added + removed == 0 {
        End::Stable
    } else {
        End::Limit
    };
    Crossed {
        added,
        removed,
        parts,
        end,
    }
}

fn total(values: &[usize]) -> usize
    requires { sum values.now ≤ max_side * max_rows }
    ensures { result ≡ sum values.now }
{
    values.iter().sum()
}
