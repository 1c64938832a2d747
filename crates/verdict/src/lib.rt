// What a check or a writer answers, and the rules of 01 by which it refuses.
#![tactic(auto)]

ghost use Rattle.std.specs.Prelude.{◌≡◌};
ghost use Rattle.verdict.specs.Rules;
ghost use Rattle.verdict.specs.Rules.{number};

// 01's rules, by which input and calls are refused, with their numbers.
#[derive(Clone, Copy, PartialEq, Eq)]
pub enum Rule {
    NumberEnds = 1,
    NumberForm = 2,
    ElementCount = 3,
    ElementRange = 4,
    ElementsDisjoint = 5,
    PersistentRange = 6,
    NotPersistent = 7,
    BytesLeft = 8,
    HeaderForm = 9,
    SizeRange = 10,
    RasterLength = 11,
    PixelValue = 12,
    AreaShort = 13,
    Unsound = 14,
    NotCollected = 15,
    NothingLoaded = 16,
    NotStable = 17,
    RankCount = 18,
    Parts = 23,
    AllowanceSpent = 24,
    QuotaRange = 25,
    SizesDiffer = 26,
}

impl Rule {
    pub fn number(self) -> u32
        ensures { result ≡ number self }
    {
        self as u32
    }
}

// A refusal: rule and place. Of 5 and 7 also where exactly the table is bad: the witness of 5 is an earlier element, that of 7 the rank of a
// persistent element, and the position is one of its positions. In every other refusal both are zero: C's answer has all four, and table/Witness speaks of them.
// The calls of this library name a rule; a caller's own refusal may name what it likes, such as a number alone.
#[derive(Clone, Copy, PartialEq, Eq)]
pub struct Refusal<R = Rule> {
    pub rule: R,
    pub place: usize,
    pub witness: usize,
    pub position: usize,
}

// Nothing is wrong, or the refusal.
pub type Verdict = Result<(), Refusal>;

// A writer's answer: the file's length, or the refusal.
pub type Written = Result<usize, Refusal>;

pub fn refusal_of<R>(rule: R, place: usize) -> Refusal<R>
    ensures { result ≡ Rules.refusal rule place }
{
    witnessed(rule, place, 0, 0)
}

fn witnessed<R>(rule: R, place: usize, witness: usize, position: usize) -> Refusal<R>
    ensures { result ≡ Rules.witnessed rule place witness position }
{
    Refusal {
        rule,
        place,
        witness,
        position,
    }
}

// The refusal as the answer of any check, reader or writer.
pub fn refused<T, R>(rule: R, place: usize) -> Result<T, Refusal<R>>
    ensures { result ≡ Err (Rules.refusal rule place) }
{
    Err(refusal_of(rule, place))
}

pub fn refused_for<T, R>(
    rule: R,
    place: usize,
    witness: usize,
    position: usize,
) -> Result<T, Refusal<R>>
    ensures { result ≡ Err (Rules.witnessed rule place witness position) }
{
    Err(witnessed(rule, place, witness, position))
}

#[cfg(test)]
mod tests {
    use super::*;

    // Whatever a caller has for a name: a number that is no rule's, and a rule.
    #[test]
    fn names_what_a_caller_names(rt: HostRuntime) {
        let other = refusal_of(27u32, 3);
        assert_eq!(rt;
            (other.rule, other.place, other.witness, other.position),
            (27, 3, 0, 0)
        );
        let none: Verdict = refused(Rule::Parts, 2);
        assert_eq!(rt; none.map_err(|refusal| refusal.rule.number()), Err(23));
        let with: Result<(), Refusal<u32>> = refused_for(u32::MAX, 4, 5, 6);
        assert_eq!(rt;
            with.map_err(|refusal| (refusal.rule, refusal.witness, refusal.position)),
            Err((u32::MAX, 5, 6))
        );
    }
}
