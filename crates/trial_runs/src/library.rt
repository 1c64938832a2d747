// The library's calls on one side of a trial.
use crate::area::{AREA, copy_to_front};
use crate::side::{Answer, SECOND, Side};
use table::Table;

#[derive(Clone, Copy)]
pub(crate) struct Library {
    pub side: Side,
}

impl Library {
    pub(crate) fn new() -> Library {
        Library {
            side: Side::start(),
        }
    }

    pub(crate) fn load(&mut self, table: Table, file: &[u8]) {
        let side = &mut self.side;
        let verdict = job::load(&mut side.job, table, file, &mut side.first, &side.second);
        side.answered(verdict.map(|()| Answer::Loaded));
    }

    pub(crate) fn load_three(&mut self, table: Table, files: [&[u8]; 3]) {
        let side = &mut self.side;
        let [one, two, three] = files;
        let verdict = job::load_three(
            &mut side.job,
            table,
            one,
            two,
            three,
            &mut side.first,
            &side.second,
        );
        side.answered(verdict.map(|()| Answer::Loaded));
    }

    pub(crate) fn pass(&mut self) {
        let side = &mut self.side;
        let passed = job::pass(&mut side.job, &mut side.first, &mut side.second);
        side.answered(passed.map(Answer::Passed));
    }

    pub(crate) fn run(&mut self) {
        let side = &mut self.side;
        let passed = job::run(&mut side.job, &mut side.first, &mut side.second);
        side.answered(passed.map(Answer::Passed));
    }

    // What is shown is copied to the output.
    pub(crate) fn view(&mut self) {
        let mut out = [SECOND; AREA];
        let shown = job::view(self.side.job, &self.side.first, &self.side.second);
        let length = shown.len();
        copy_to_front(&mut out, shown);
        self.side.out = out;
        self.side.answer = Ok(Answer::Shown(length));
    }

    pub(crate) fn figures(&mut self) {
        let figured = job::figures(self.side.job, &self.side.first, &self.side.second);
        self.side.answer = figured.map(Answer::Told);
    }

    pub(crate) fn collect(&mut self) {
        let side = &mut self.side;
        side.out = [SECOND; AREA];
        let written = job::collect(&mut side.job, &side.first, &side.second, &mut side.out);
        side.answer = written.map(Answer::Collected);
    }
}
