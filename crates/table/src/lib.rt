// A filter table: the record, its check, and the table file (01, The table).
#![tactic(auto)]

pub mod mask;
mod number;
mod reading;
mod record;
mod writing;

ghost use Rattle.std.specs.Prelude.{◌≡◌, length};
ghost use Rattle.table.specs.File.{read_table, written_table, table_output};
ghost use Rattle.table.specs.Record.{zero_table, record_verdict};

use mask::Kind;
use verdict::{Refusal, Rule, Verdict, Written};

// The most elements of a table, and the element places of a record.
pub const MAX_ELEMENTS: usize = 64;

// The most persistent elements of a table, and their places in a record.
pub const MAX_RANKS: usize = 4;

// The most bytes of a table file: the leading 0 and the two counts take one each, a mask up to four.
pub const MAX_FILE: usize = 3 + (MAX_ELEMENTS + MAX_RANKS) * number::MAX_GROUPS;

// The structuring elements and the persistent elements (02's keepers), as masks of positions. `ranks` is the number of persistent elements; a rank
// is the number of one of them, from 1. Places past the two counts are zero. It is the C interface's record: arrays with their counts beside them.
#[repr(C)]
#[derive(Clone, Copy, PartialEq, Eq)]
pub struct Table {
    pub count: usize,
    pub elements: [u32; MAX_ELEMENTS],
    pub ranks: usize,
    pub persistents: [u32; MAX_RANKS],
}

// A record without an element: every field zero.
pub fn empty() -> Table
    ensures { result ≡ zero_table }
{
    Table {
        count: 0,
        elements: [0; MAX_ELEMENTS],
        ranks: 0,
        persistents: [0; MAX_RANKS],
    }
}

// The record, by the rules 3, 4, 18, 6, 5, 7 in this order.
pub fn check(table: Table) -> Verdict
    ensures { result ≡ record_verdict table }
{
    if record::is_bad_count(table.count) {
        return verdict::refused(Rule::ElementCount, 0);
    }
    if let Some(k) = record::first_bad(Kind::Element, &table.elements, table.count) {
        return verdict::refused(Rule::ElementRange, k + 1);
    }
    record::check_persistents(table)
}

// A table file, by the rules 1, 2 and the range rules number by number, then 8, 5, 7.
pub fn read(file: &[u8]) -> Result<Table, Refusal>
    ensures { result ≡ read_table file.now }
{
    reading::read_file(file)
}

// The file of a record: what the record check refuses, then an output that is too short. A refusal writes nothing.
pub fn write(table: Table, out: &mut [u8]) -> Written
    ensures { (result ≡ written_table table (length out.old)) × (out.new ≡ table_output table out.old) }
{
    check(table)?;
    writing::write_checked(table, out)
}
