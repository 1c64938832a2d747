// The table file, written. Output and position go from part to part: a struct of both would hold the lent slice, and each contract then say that it
// is the same slice still.
ghost use Rattle.std.specs.Prelude.{◌≡◌, ◌+◌, ◌*◌, ◌≤◌, length};
ghost use Rattle.std.proofs.lemmas.List.Edits.{sets};
ghost use Rattle.table.specs.File.{if_several, masks_bytes, table_bytes, written_table, table_output};
ghost use Rattle.table.specs.Record.{max_elements, max_ranks, record_verdict};
ghost use Rattle.verdict.specs.Writer.{over};

use crate::{Table, number};
use verdict::{Rule, Written};

// A record that the check accepts.
pub(crate) fn write_checked(table: Table, out: &mut [u8]) -> Written
    requires { record_verdict table ≡ Ok tt }
    ensures { (result ≡ written_table table (length out.old)) × (out.new ≡ table_output table out.old) }
{
    let length = file_length(table);
    if out.len() < length {
        return verdict::refused(Rule::AreaShort, 0);
    }
    put_table(table, out);
    Ok(length)
}

fn file_length(table: Table) -> usize
    requires { (table.count ≤ max_elements) × (table.ranks ≤ max_ranks) }
    ensures { result ≡ length (table_bytes table) }
{
    let elements = table.elements;
    let persistents = table.persistents;
    let masks = masks_length(&elements[..table.count]) + masks_length(&persistents[..table.ranks]);
    number_length(table, 0)
        + number::group_count(table.count as u32)
        + number_length(table, table.ranks as u32)
        + masks
}

// Of a number that stands in a file of several persistent elements only.
fn number_length(table: Table, n: u32) -> usize
    ensures { (result ≡ length (if_several table n)) × (result ≤ 4) }
{
    if table.ranks == 1 {
        return 0;
    }
    number::group_count(n)
}

fn masks_length(masks: &[u32]) -> usize
    requires { length masks.now ≤ max_elements }
    ensures { (result ≡ length (masks_bytes masks.now)) × (result ≤ 4 * max_elements) }
{
    masks.iter().map(|mask| number::group_count(*mask)).sum()
}

fn put_table(table: Table, out: &mut [u8])
    requires { (table.count ≤ max_elements) × (table.ranks ≤ max_ranks) × (length (table_bytes table) ≤ length out.old) }
    ensures { out.new ≡ over (table_bytes table) out.old }
{
    let elements = table.elements;
    let persistents = table.persistents;
    let count_at = put_number(table, out, 0, 0);
    let elements_at = number::put_at(out, count_at, table.count as u32);
    let ranks_at = put_masks(&elements[..table.count], out, elements_at);
    let persistents_at = put_number(table, out, ranks_at, table.ranks as u32);
    put_masks(&persistents[..table.ranks], out, persistents_at);
}

// A number that stands in a file of several persistent elements only.
fn put_number(table: Table, out: &mut [u8], at: usize, n: u32) -> usize
    requires { at + length (if_several table n) ≤ length out.old }
    ensures { (result ≡ at + length (if_several table n)) × (out.new ≡ sets out.old at (if_several table n)) }
{
    if table.ranks == 1 {
        return at;
    }
    number::put_at(out, at, n)
}

fn put_masks(masks: &[u32], out: &mut [u8], at: usize) -> usize
    requires { at + length (masks_bytes masks.now) ≤ length out.old }
    ensures { (result ≡ at + length (masks_bytes masks.now))
        × (out.new ≡ sets out.old at (masks_bytes masks.now)) }
{
    let mut next = at;
    for mask in masks {
        next = number::put_at(out, next, *mask);
    }
    next
}
