// Whole jobs: each call is made by the library and by the second implementation, and all that the two leave is compared.
use crate::definition::Definition;
use crate::files::{self, File};
use crate::images::Image;
use crate::library::Library;
use crate::report::Tally;
use crate::side::Side;
use table::Table;

// More passes than a job of a trial has.
const MOST: usize = 2000;

// What the library leaves, what it is to leave, and the file of the image.
#[derive(Drop)]
pub(crate) struct Trial {
    seed: u32,
    table: Table,
    file: File,
    made: Library,
    meant: Definition,
}

impl Trial {
    // Before the library's load.
    pub(crate) fn new(seed: u32, table: Table, image: Image) -> Trial {
        Trial {
            seed,
            table,
            file: files::written(&image),
            made: Library::new(),
            meant: Definition::load(table, image),
        }
    }

    // A whole job from the file.
    pub(crate) fn run(&mut self, tally: &mut Tally) {
        self.made.load(self.table, self.file.as_slice());
        self.follow(tally);
    }

    // A whole job from three files, of whose images this is the majority.
    pub(crate) fn run_three(&mut self, tally: &mut Tally, files: [&[u8]; 3]) {
        self.made.load_three(self.table, files);
        self.follow(tally);
    }

    // From a load on: passes until nothing changes, then the rest.
    fn follow(&mut self, tally: &mut Tally) {
        self.compare(tally);
        for _ in 0..MOST {
            self.made.pass();
            self.meant.pass();
            self.compare(tally);
            if self.meant.is_at_rest() {
                return self.end(tally);
            }
        }
        tally.disagree(self.seed);
    }

    // View, figures, collect; and on the emptied record a load of the same file three times, and a run, which is to end as the passes did.
    fn end(&mut self, tally: &mut Tally) {
        let at_rest = self.meant.side();
        self.made.view();
        self.meant.view();
        self.compare(tally);
        self.made.figures();
        self.meant.figures();
        self.compare(tally);
        self.made.collect();
        self.meant.collect();
        self.compare(tally);
        let file = self.file.as_slice();
        self.made.load_three(self.table, [file, file, file]);
        self.made.run();
        self.compare_with(tally, &at_rest);
        tally.add_job(&at_rest.job);
    }

    fn compare(&self, tally: &mut Tally) {
        self.compare_with(tally, &self.meant.side());
    }

    // Counts a call, or a disagreement where the sides are not the same after it.
    fn compare_with(&self, tally: &mut Tally, meant: &Side) {
        if self.made.side == *meant {
            tally.add_call();
        } else {
            tally.disagree(self.seed);
        }
    }
}
