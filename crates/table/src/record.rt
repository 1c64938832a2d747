// The rules on a table record.
ghost use Rattle.std.specs.Prelude.{◌≡◌, ℕ, ◌≤◌, ◌<◌, ◌^◌, length};
ghost use Rattle.table.specs.Mask.{position_count};
ghost use Rattle.table.specs.Record.{max_elements, max_ranks, element, persistent_at, bad_count, bad_ranks, bad_place, disjoint_from, persistent_place, meet_rule, persist_rule};
ghost use Rattle.table.specs.Code.Search.{Misses, bad_of, lowest_bad, behind_elements};
ghost use Rattle.verdict.specs.Rules.{or_else, judge};

use crate::mask::{Kind, Positions};
use crate::{MAX_ELEMENTS, MAX_RANKS, Table, mask};
use verdict::{Rule, Verdict};

// Which persistent element misses an element, and its position without a partner.
#[derive(Clone, Copy)]
struct Miss {
    rank: usize,
    position: usize,
}

// A record with its counts and masks in range: no mask has a bit above position 24.
#[derive(Clone, Copy)]
pub(crate) struct Ranged {
    pub(crate) table: Table,
    ghost few: { table.count ≤ max_elements },
    ghost few_ranks: { table.ranks ≤ max_ranks },
    ghost element_lt: { (k : ℕ) → k < table.count → element table k < 2 ^ position_count },
    ghost persistent_lt: { (r : ℕ) → r < table.ranks → persistent_at table r < 2 ^ position_count },
}

// Rule 3.
pub(crate) fn is_bad_count(count: usize) -> bool
    ensures { result ≡ bad_count count }
{
    count < 1 || MAX_ELEMENTS < count
}

// The lowest place that breaks its rule, 4 or 6: of these `count` hold masks of the kind, and the others are zero.
pub(crate) fn first_bad(kind: Kind, masks: &[u32], count: usize) -> Option<usize>
    ensures { result ≡ lowest_bad kind masks.now count }
{
    (0..masks.len()).find(|k| is_bad_place(kind, masks, count, *k))
}

fn is_bad_place(kind: Kind, masks: &[u32], count: usize, k: usize) -> bool
    requires { k < length masks.now }
    ensures { result ≡ bad_place masks.now count (bad_of kind masks.now) k }
{
    if count <= k {
        return masks[k] != 0;
    }
    if k == 0 {
        return mask::is_bad_after(kind, 0, masks[k]);
    }
    mask::is_bad_after(kind, masks[k - 1], masks[k])
}

// Rules 18 and 6, then 5 and 7, of a record whose elements are in range.
pub(crate) fn check_persistents(table: Table) -> Verdict
    requires { (table.count ≤ max_elements) × ((k : ℕ) → k < table.count → element table k < 2 ^ position_count) }
    ensures { result ≡ judge (behind_elements table) }
{
    if is_bad_ranks(1, table.ranks) {
        return verdict::refused(Rule::RankCount, table.count + 1);
    }
    if let Some(r) = first_bad(Kind::Persistent, &table.persistents, table.ranks) {
        return verdict::refused(Rule::PersistentRange, persistent_place(table, r));
    }
    Ranged { table }.relations()
}

// Rule 18, where there are `least` or more.
pub(crate) fn is_bad_ranks(least: usize, ranks: usize) -> bool
    ensures { result ≡ bad_ranks least ranks }
{
    ranks < least || MAX_RANKS < ranks
}

// The only persistent element stands right behind the elements; several, and a record's places past them, stand behind their number.
fn persistent_place(table: Table, r: usize) -> usize
    requires { (table.count ≤ max_elements) × (r < max_ranks) }
    ensures { result ≡ persistent_place table r }
{
    if table.ranks == 1 && r == 0 {
        return table.count + 1;
    }
    table.count + 2 + r
}

impl Ranged {
    // Rules 5 and 7.
    pub(crate) fn relations(self) -> Verdict
        ensures { result ≡ or_else (meet_rule self.table) (persist_rule self.table) }
    {
        self.check_meeting()?;
        self.check_persistence()
    }

    // Rule 5.
    fn check_meeting(self) -> Verdict
        ensures { result ≡ meet_rule self.table }
    {
        for k in 0..self.table.count {
            if let Some(j) = self.disjoint_from(k) {
                return verdict::refused_for(Rule::ElementsDisjoint, k + 1, j + 1, 0);
            }
        }
        Ok(())
    }

    // The lowest earlier element that shares no position with element k.
    fn disjoint_from(self, k: usize) -> Option<usize>
        requires { k < self.table.count }
        ensures { result ≡ disjoint_from self.table k }
    {
        let element = self.table.elements[k];
        (0..k).find(|j| element & self.table.elements[*j] == 0)
    }

    // Rule 7.
    fn check_persistence(self) -> Verdict
        ensures { result ≡ persist_rule self.table }
    {
        for k in 0..self.table.count {
            if let Some(miss) = self.missed_by(k) {
                return verdict::refused_for(
                    Rule::NotPersistent,
                    k + 1,
                    miss.rank + 1,
                    miss.position,
                );
            }
        }
        Ok(())
    }

    // The lowest of the persistent elements that is not persistent for element k, and its lowest position that has no partner there.
    fn missed_by(self, k: usize) -> Option<Miss>
        requires { k < self.table.count }
        ensures { Misses self.table k result }
    {
        let element = Positions {
            mask: self.table.elements[k],
        };
        for rank in 0..self.table.ranks {
            let persistent = Positions {
                mask: self.table.persistents[rank],
            };
            if let Some(position) = persistent.lowest_unpartnered(element) {
                return Some(Miss { rank, position });
            }
        }
        None
    }
}
