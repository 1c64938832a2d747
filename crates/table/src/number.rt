// Numbers in groups of seven bits, lowest first; bit 7 of a byte is set when more groups follow (01, The table).
ghost use Rattle.std.specs.Prelude.{◌≡◌, ◌+◌, ◌*◌, ◌%◌, ◌≤◌, length, take, drop};
ghost use Rattle.std.proofs.lemmas.List.Edits.{sets};
ghost use Rattle.seq.specs.Lists.{one};
ghost use Rattle.table.specs.Code.Cursor.{number_at};
ghost use Rattle.table.specs.Number.{more, groups, group_count, number_bytes};

use verdict::Rule;

// What reading finds: the number, and the position past it.
#[derive(Clone, Copy)]
pub struct Number {
    pub value: u32,
    pub past: usize,
}

// The reader of seven-bit groups: the bytes, borrowed, and its position. It is thin, over functions on slice and position: 01 names the form.
#[derive(Clone, Copy)]
pub struct Reader<'a> {
    pub src: &'a [u8],
    pub at: usize,
}

pub(crate) const MAX_GROUPS: usize = 4;

// Values of a group; as a byte, bit 7.
const GROUP: u32 = 128;

// The least numbers of two, three and four groups.
const TWO_GROUPS: u32 = 128;

const THREE_GROUPS: u32 = 16384;

const FOUR_GROUPS: u32 = 2097152;

impl<'a> Reader<'a> {
    pub fn new(src: &'a [u8], at: usize) -> Reader<'a>
        ensures { (result.src ≡ src.entry) × (result.at ≡ at) }
    {
        Reader { src, at }
    }

    // The number at the reader's position, or the rule that refuses it, 1 or 2.
    pub fn next(self) -> Result<Number, Rule>
        ensures { result ≡ number_at self.entry.src.now self.entry.at }
    {
        number_at(self.src, self.at)
    }
}

// The number at a position of the bytes, through the reader. Its contract says nothing of the reader.
pub fn read_at(bytes: &[u8], at: usize) -> Result<Number, Rule>
    ensures { result ≡ number_at bytes.now at }
{
    Reader::new(bytes, at).next()
}

// The number that starts at a position of the bytes.
fn number_at(bytes: &[u8], at: usize) -> Result<Number, Rule>
    ensures { result ≡ number_at bytes.now at }
{
    if bytes.len() <= at {
        return Err(Rule::NumberEnds);
    }
    let more = more_at(bytes, at);
    if MAX_GROUPS <= more {
        return Err(Rule::NumberForm);
    }
    let last = at + more;
    if bytes.len() <= last {
        return Err(Rule::NumberEnds);
    }
    if 0 < more && bytes[last] == 0 {
        return Err(Rule::NumberForm);
    }
    Ok(Number {
        value: groups_at(bytes, at, more + 1),
        past: last + 1,
    })
}

// How many of the next four bytes, from the first on, have bit 7 set.
fn more_at(bytes: &[u8], at: usize) -> usize
    requires { at ≤ length bytes.now }
    ensures { result ≡ more (drop at bytes.now) }
{
    bytes[at..]
        .iter()
        .take(MAX_GROUPS)
        .take_while(|byte| GROUP <= u32::from(**byte))
        .count()
}

// The value of n groups.
fn groups_at(bytes: &[u8], at: usize, n: usize) -> u32
    requires { (n ≤ 4) × (at + n ≤ length bytes.now) }
    ensures { result ≡ groups (take n (drop at bytes.now)) }
{
    let mut value = 0;
    for j in (0..n).rev() {
        value = value * GROUP + u32::from(bytes[at + j]) % GROUP;
    }
    value
}

// How many groups a number needs.
pub(crate) fn group_count(n: u32) -> usize
    ensures { (result ≡ group_count n) × (result ≤ 4) }
{
    if n < TWO_GROUPS {
        return 1;
    }
    if n < THREE_GROUPS {
        return 2;
    }
    if n < FOUR_GROUPS {
        return 3;
    }
    4
}

// Writes the number at a position, and answers the position past it.
pub(crate) fn put_at(out: &mut [u8], at: usize, n: u32) -> usize
    requires { at + group_count n ≤ length out.old }
    ensures { (result ≡ at + group_count n) × (out.new ≡ sets out.old at (number_bytes n)) }
{
    let count = group_count(n);
    let mut left = n;
    for j in 0..count {
        out[at + j] = group_byte(left, j + 1 < count);
        left /= GROUP;
    }
    at + count
}

// The lowest group, with bit 7 where more follow.
fn group_byte(n: u32, more: bool) -> u8
    ensures { result ≡ n % 128 + 128 * one more }
{
    if more {
        (n % GROUP + GROUP) as u8
    } else {
        (n % GROUP) as u8
    }
}
