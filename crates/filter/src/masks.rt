// The masks of a table, and what is swept of its elements to find candidates.
ghost use Rattle.std.specs.Prelude.{true, ◌≡◌};
ghost use Rattle.filter.specs.Code.Candidate.{Parts};
ghost use Rattle.filter.specs.Code.Sweep.{Fours};
ghost use Rattle.seq.specs.Lists.{all};
ghost use Rattle.table.specs.Mask.{valid_mask};

#[derive(Clone, Copy)]
pub(crate) struct Masks<'a> {
    pub elements: &'a [u32],
    pub persistents: &'a [u32],
    pub parts: &'a [usize],
    ghost valid: { all valid_mask elements.now ≡ true },
    ghost fours: { Fours parts.now },
    ghost swept: { ∥ Parts elements.now parts.now ∥₁ },
}
