// What one side of a trial has after a call, the library's or the second implementation's, and what the call answered.
use crate::area::{AREA, Area};
use crate::parts;
use history::{Effect, Figures, Job};
use table::Table;
use verdict::Refusal;

#[derive(Clone, Copy, PartialEq)]
pub(crate) enum Answer {
    Loaded,
    Passed(Effect),
    Shown(usize),
    Told(Figures),
    Collected(usize),
}

// Record and areas, what the last view or collect wrote, and the last answer.
#[derive(Clone, Copy, PartialEq)]
pub(crate) struct Side {
    pub job: Job,
    pub first: Area,
    pub second: Area,
    pub out: Area,
    pub answer: Result<Answer, Refusal>,
}

// Before a job no byte of the areas and the output is zero or a pixel.
pub(crate) const FIRST: u8 = 165;

pub(crate) const SECOND: u8 = 90;

impl Side {
    // Before a load.
    pub(crate) fn start() -> Side {
        Side {
            job: empty(),
            first: [FIRST; AREA],
            second: [SECOND; AREA],
            out: [SECOND; AREA],
            answer: Ok(Answer::Loaded),
        }
    }

    // The answer to a call that may fill an area; the output is a new one.
    pub(crate) fn answered(&mut self, answer: Result<Answer, Refusal>) {
        self.out = [SECOND; AREA];
        self.answer = answer;
    }
}

// An empty record has every field zero.
pub(crate) fn empty() -> Job {
    let table = Table {
        count: 0,
        elements: [0; 64],
        ranks: 0,
        persistents: [0; 4],
    };
    Job {
        stage: 0,
        width: 0,
        height: 0,
        passes: 0,
        added: 0,
        removed: 0,
        table,
        strip: parts::none(),
        counts: parts::counts(0, 0),
    }
}
