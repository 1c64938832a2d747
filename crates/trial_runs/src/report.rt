// What the trials found, counted and printed.
use history::Job;
use std::fmt;

const PRINTED: usize = 20;

// `wrong` has at its front the seeds of the jobs of the first disagreements.
#[derive(Drop)]
pub(crate) struct Tally {
    pairs: usize,
    calls: usize,
    passes: usize,
    pixels: usize,
    disagreements: usize,
    wrong: [u32; PRINTED],
}

impl Tally {
    pub(crate) fn new() -> Tally {
        Tally {
            pairs: 0,
            calls: 0,
            passes: 0,
            pixels: 0,
            disagreements: 0,
            wrong: [0; PRINTED],
        }
    }

    // One call more, on which both sides agree.
    pub(crate) fn add_call(&mut self) {
        self.calls = self.calls.saturating_add(1);
    }

    // One pair more, with the record of its job at rest.
    pub(crate) fn add_job(&mut self, job: &Job) {
        self.pairs = self.pairs.saturating_add(1);
        self.passes = self.passes.saturating_add(job.passes);
        let pixels = job.added.saturating_add(job.removed);
        self.pixels = self.pixels.saturating_add(pixels);
    }

    // One disagreement more, in the job of this seed.
    pub(crate) fn disagree(&mut self, seed: u32) {
        if self.disagreements < PRINTED {
            self.wrong[self.disagreements] = seed;
        }
        self.disagreements = self.disagreements.saturating_add(1);
    }
}

// Of the first few disagreements the job's seed, and the counts.
impl fmt::Display for Tally {
    fn fmt<W: fmt::Write>(&self, f: &mut fmt::Formatter<W>) -> fmt::Result {
        for seed in self.wrong.iter().take(self.disagreements) {
            writeln!(f, "disagreement in the job of seed {seed}")?;
        }
        writeln!(f, "pairs of table and image {}", self.pairs)?;
        writeln!(f, "calls compared {}", self.calls)?;
        writeln!(f, "passes that changed pixels {}", self.passes)?;
        writeln!(f, "pixels changed in them {}", self.pixels)?;
        write!(f, "disagreements {}", self.disagreements)
    }
}
