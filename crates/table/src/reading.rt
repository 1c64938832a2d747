// The table file, read number by number: each by the rules 1 and 2 and its range rule, then 8, 5 and 7 (01, Refused because of the input).
// Functions take file and position apart, and not a `Reader`: their contracts say of which of the file's bytes the position is, so the new form is no plainer.
ghost use Rattle.std.specs.Prelude.{◌≡◌, ◌+◌, ◌≤◌, drop};
ghost use Rattle.table.specs.Code.Reading.{Judged, NumberRead, FormRead, CountRead, RanksRead, MasksRead, masks_of};
ghost use Rattle.table.specs.File.{several, body, element_count, rank_bytes, count_rules, ranks_rules, read_table};
ghost use Rattle.table.specs.Number.{number_rules};
ghost use Rattle.table.specs.Record.{max_elements};

use crate::mask::Kind;
use crate::number::Number;
use crate::record::Ranged;
use crate::{MAX_ELEMENTS, MAX_RANKS, Table, mask, number, record};
use verdict::{Refusal, Rule};

// Where the element count stands, and whether the file has several persistent elements.
#[derive(Clone, Copy)]
struct Form {
    has_several: bool,
    at: usize,
}

// How many persistent elements follow, and where: the position of the first and its place.
#[derive(Clone, Copy)]
struct Ranks {
    count: usize,
    at: usize,
    place: usize,
}

// Masks of a file in the places of a table, and the position past them.
#[derive(Clone, Copy)]
struct Masks<const N: usize> {
    masks: [u32; N],
    at: usize,
}

// The record of a file.
pub(crate) fn read_file(file: &[u8]) -> Result<Table, Refusal>
    ensures { result ≡ read_table file.now }
{
    let form = read_form(file)?;
    let number = read_count(file, form.at)?;
    let count = number.value as usize;
    let elements = read_masks::<MAX_ELEMENTS>(file, Kind::Element, number.past, 1, count)?;
    let ranks = read_ranks(file, elements.at, form.has_several, count)?;
    let persistents = read_masks::<MAX_RANKS>(
        file,
        Kind::Persistent,
        ranks.at,
        ranks.place,
        ranks.count,
    )?;
    if persistents.at < file.len() {
        return verdict::refused(Rule::BytesLeft, ranks.place + ranks.count);
    }
    let element_masks = elements.masks;
    let persistent_masks = persistents.masks;
    let table = Table {
        count,
        elements: element_masks,
        ranks: ranks.count,
        persistents: persistent_masks,
    };
    Ranged { table }.relations()?;
    Ok(table)
}

// The number at a position, which has the place.
fn numbered(file: &[u8], at: usize, place: usize) -> Result<Number, Refusal>
    ensures { Judged result (number_rules place (drop at file.now)) (NumberRead file.now (drop at file.now)) }
{
    number::read_at(file, at).map_err(|rule| verdict::refusal_of(rule, place))
}

// A file that starts with 0 has several persistent elements, and its element count behind that.
fn read_form(file: &[u8]) -> Result<Form, Refusal>
    ensures { Judged result (number_rules 0 file.now) (FormRead file.now) }
{
    let first = numbered(file, 0, 0)?;
    if first.value == 0 {
        return Ok(Form {
            has_several: true,
            at: first.past,
        });
    }
    Ok(Form {
        has_several: false,
        at: 0,
    })
}

// The element count.
fn read_count(file: &[u8], at: usize) -> Result<Number, Refusal>
    requires { drop at file.now ≡ body file.now }
    ensures { Judged result (count_rules file.now) (CountRead file.now) }
{
    let number = numbered(file, at, 0)?;
    if record::is_bad_count(number.value as usize) {
        return verdict::refused(Rule::ElementCount, 0);
    }
    Ok(number)
}

// Masks that stand at a position, the first at a place of the table.
fn read_masks<const N: usize>(
    file: &[u8],
    kind: Kind,
    at: usize,
    place: usize,
    count: usize,
) -> Result<Masks<N>, Refusal>
    requires { (count ≤ N) × (count ≤ max_elements) × (place ≤ max_elements + 2) }
    ensures { Judged result (masks_of kind (drop at file.now) place count) (λ m. MasksRead file.now (drop at file.now) count N m.masks m.at) }
{
    let mut masks = [0u32; N];
    let mut before = 0;
    let mut next = at;
    for k in 0..count {
        let number = numbered(file, next, place + k)?;
        if mask::is_bad_after(kind, before, number.value) {
            return verdict::refused(mask::range_rule(kind), place + k);
        }
        masks[k] = number.value;
        before = number.value;
        next = number.past;
    }
    Ok(Masks { masks, at: next })
}

// A single persistent element follows the elements, or the number of several, at count + 1.
fn read_ranks(file: &[u8], at: usize, has_several: bool, count: usize) -> Result<Ranks, Refusal>
    requires { (drop at file.now ≡ rank_bytes file.now) × (has_several ≡ several file.now) × (count ≡ element_count file.now) × (count ≤ max_elements) }
    ensures { Judged result (ranks_rules file.now) (RanksRead file.now) }
{
    if !has_several {
        return Ok(Ranks {
            count: 1,
            at,
            place: count + 1,
        });
    }
    let number = numbered(file, at, count + 1)?;
    if record::is_bad_ranks(2, number.value as usize) {
        return verdict::refused(Rule::RankCount, count + 1);
    }
    Ok(Ranks {
        count: number.value as usize,
        at: number.past,
        place: count + 2,
    })
}
