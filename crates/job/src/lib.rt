// The calls on a job (01, The job). Each promise says the answer, the record and both areas afterwards. Each call checks the record with its areas
// first (14), and a refused call alters nothing; a run that 14's pass clause stops keeps the passes before it.
#![tactic(auto)]

ghost use Rattle.std.specs.Fn.{FnOnceReturnsAtMut};
ghost use Rattle.std.specs.Prelude.{[], ◌∷◌, ◌≡◌, min, length};
ghost use Rattle.history.specs.Call.{view, figures, state_of};
ghost use Rattle.history.specs.Collect.{collect_written, collect_output, collect_state};
ghost use Rattle.history.specs.Load.{admit_rules, load_verdict, load_state};
ghost use Rattle.history.specs.Pass.{pass_of};
ghost use Rattle.history.specs.Run.{run_of};
ghost use Rattle.history.specs.Source.{from_file, from_three, from_strip};
ghost use Rattle.history.specs.State.{empty_job, ready_verdict};
ghost use Rattle.history.specs.View.{view_of, figures_of};
ghost use Rattle.image.specs.Answers.{read_width, read_height};
ghost use Rattle.image.specs.Strip.{strip_of};
ghost use Rattle.job.specs.Code.Loads.{entered, LoadedBy};
ghost use Rattle.job.specs.Core.{at};
ghost use Rattle.verdict.specs.Answers.{verdict_of};
ghost use Rattle.verdict.specs.Rules.{judge};

use history::{Effect, Figured, Figures, Job, Passed};
use image::size::Size;
use image::strip::{MAX_PARTS, Strip};
use table::Table;
use verdict::{Refusal, Rule, Verdict, Written};

// The two areas stand apart in each function, as 01 and C lend them; inner functions hand on what was lent, and their promises join it to one state by `at`.
mod area;
pub mod channel;
mod cross;
mod figure;
mod parts;
pub mod quota;
mod sound;
mod step;

// Load: 14, 15, table, sheet, 13. The image is read into the part of the first area that both areas have, so that 13 tests both.
pub fn load(job: &mut Job, table: Table, file: &[u8], first: &mut [u8], second: &[u8]) -> Verdict
    ensures { (result ≡ load_verdict table (from_file file.now) (at job.old first.old second.now))
        × (job.new ≡ (load_state table (from_file file.now) (at job.old first.old second.now)).job)
        × (first.new ≡ (load_state table (from_file file.now) (at job.old first.old second.now)).first)
        × ((load_state table (from_file file.now) (at job.old first.old second.now)).second ≡ second.now) }
{
    load_by(job, table, first, second, |area| {
        single(image::read(file, area))
    })
}

// Load from three files of one size, whose majority is the image (02, T-12): 14, 15, table, each sheet in turn, 26, 13.
pub fn load_three(
    job: &mut Job,
    table: Table,
    one: &[u8],
    two: &[u8],
    three: &[u8],
    first: &mut [u8],
    second: &[u8],
) -> Verdict
    ensures { (result ≡ load_verdict table (from_three one.now two.now three.now) (at job.old first.old second.now))
        × (job.new ≡ (load_state table (from_three one.now two.now three.now) (at job.old first.old second.now)).job)
        × (first.new ≡ (load_state table (from_three one.now two.now three.now) (at job.old first.old second.now)).first)
        × ((load_state table (from_three one.now two.now three.now) (at job.old first.old second.now)).second ≡ second.now) }
{
    load_by(job, table, first, second, |area| {
        single(image::majority::read(one, two, three, area))
    })
}

// Load of a strip (02, T-08), whose parts read as one image: 14, 15, table, 23, 10 for each part, 23, 11, 12, 13.
pub fn load_strip(
    job: &mut Job,
    table: Table,
    strip: Strip,
    pixels: &[u8],
    first: &mut [u8],
    second: &[u8],
) -> Verdict
    ensures { (result ≡ load_verdict table (from_strip strip pixels.now) (at job.old first.old second.now))
        × (job.new ≡ (load_state table (from_strip strip pixels.now) (at job.old first.old second.now)).job)
        × (first.new ≡ (load_state table (from_strip strip pixels.now) (at job.old first.old second.now)).first)
        × ((load_state table (from_strip strip pixels.now) (at job.old first.old second.now)).second ≡ second.now) }
{
    load_by(
        job,
        table,
        first,
        second,
        |area| Reading {
            read: image::strip::read(strip, pixels, area),
            parts: parts::kept(strip),
        },
    )
}

// What the reader of a source answers: the image, and its parts.
#[derive(Clone, Copy)]
struct Reading {
    read: Result<Size, Refusal>,
    parts: Strip,
}

fn single(read: Result<Size, Refusal>) -> Reading
    ensures { (result.read ≡ read) × (result.parts ≡ strip_of (read_width read) (read_height read ∷ [])) }
{
    Reading {
        read,
        parts: parts::whole(read),
    }
}

// What the loads do alike, whatever reads the source.
fn load_by<F: FnOnce(&mut [u8]) -> Reading>(
    job: &mut Job,
    table: Table,
    first: &mut [u8],
    second: &[u8],
    reader: F,
) -> Verdict
    requires { F.IsAlwaysCallable reader }
    ensures { LoadedBy (λ x r y. FnOnceReturnsAtMut F.FnOnce reader x r y) table (at job.old first.old second.now) result job.new first.new }
{
    admit(job, table, first, second)?;
    let both = common(first, second);
    let reading = reader(&mut first[..both]);
    enter(job, table, reading.parts, reading.read)
}

// What does not depend on the source of the image: 14, 15, table.
fn admit(job: &Job, table: Table, first: &[u8], second: &[u8]) -> Verdict
    ensures { result ≡ judge (admit_rules table (at job.now first.now second.now)) }
{
    if sound::is_unsound(job, first, second) {
        return verdict::refused(Rule::Unsound, 0);
    }
    if job.stage != sound::EMPTY {
        return verdict::refused(Rule::NotCollected, 0);
    }
    table::check(table)
}

// The record after the reader of a source, which has filled the area.
fn enter(job: &mut Job, table: Table, strip: Strip, read: Result<Size, Refusal>) -> Verdict
    ensures { (result ≡ verdict_of read) × (job.new ≡ entered job.old table strip read) }
{
    let Size { width, height } = read?;
    *job = Job {
        stage: sound::LOADED,
        width,
        height,
        passes: 0,
        added: 0,
        removed: 0,
        table,
        strip,
        counts: parts::none(),
    };
    Ok(())
}

// How many bytes both areas have: an image that fits so many fits both.
fn common(first: &[u8], second: &[u8]) -> usize
    ensures { result ≡ min (length first.now) (length second.now) }
{
    first.len().min(second.len())
}

// Pass: 14, 16; then the new image in the other area, unless 14's pass clause holds. At stage 2 nothing is altered.
pub fn pass(job: &mut Job, first: &mut [u8], second: &mut [u8]) -> Passed
    ensures { (result ≡ (pass_of (at job.old first.old second.old)).answer)
        × (job.new ≡ (pass_of (at job.old first.old second.old)).state.job)
        × (first.new ≡ (pass_of (at job.old first.old second.old)).state.first)
        × (second.new ≡ (pass_of (at job.old first.old second.old)).state.second) }
{
    step::passes(job, 1, first, second)
}

// Run: 14, 16; then passes until one answers "at rest" or is refused. The record is checked once.
pub fn run(job: &mut Job, first: &mut [u8], second: &mut [u8]) -> Passed
    ensures { (result ≡ (run_of (at job.old first.old second.old)).answer)
        × (job.new ≡ (run_of (at job.old first.old second.old)).state.job)
        × (first.new ≡ (run_of (at job.old first.old second.old)).state.first)
        × (second.new ≡ (run_of (at job.old first.old second.old)).state.second) }
{
    let limit = step::most(job);
    step::passes(job, limit, first, second)
}

// View: the present image; a refused view shows an empty part.
pub fn view<'a>(job: Job, first: &'a [u8], second: &'a [u8]) -> &'a [u8]
    ensures { (result.now ≡ view_of (at job first.now second.now))
        × (state_of view (at job first.now second.now) ≡ at job first.now second.now) }
{
    if let Err(_) = sound::ready(&job, first, second) {
        return &first[..0];
    }
    area::image(&job, first, second)
}

// Number and place of a refused view: 14, 16.
pub fn view_verdict<'a>(job: Job, first: &'a [u8], second: &'a [u8]) -> Verdict
    ensures { result ≡ ready_verdict (at job first.now second.now) }
{
    sound::ready(&job, first, second)
}

// Figures: 14, 16; balance signed, cover in thousandths.
pub fn figures<'a>(job: Job, first: &'a [u8], second: &'a [u8]) -> Figured
    ensures { (result ≡ figures_of (at job first.now second.now))
        × (state_of figures (at job first.now second.now) ≡ at job first.now second.now) }
{
    sound::ready(&job, first, second)?;
    let black = figure::black(area::image(&job, first, second));
    let balance = figure::balance(job.added, job.removed);
    let cover = figure::cover(black, job.width * job.height);
    Ok(Figures { balance, cover })
}

// Collect: 14, 16, 17, 13; then the file of each part in the output, and an empty record.
pub fn collect<'a>(job: &mut Job, first: &'a [u8], second: &'a [u8], out: &mut [u8]) -> Written
    ensures { (result ≡ collect_written (length out.old) (at job.old first.now second.now))
        × (job.new ≡ (collect_state (length out.old) (at job.old first.now second.now)).job)
        × (out.new ≡ collect_output out.old (at job.old first.now second.now))
        × ((collect_state (length out.old) (at job.old first.now second.now)).first ≡ first.now)
        × ((collect_state (length out.old) (at job.old first.now second.now)).second ≡ second.now) }
{
    sound::ready(job, first, second)?;
    if job.stage == sound::LOADED {
        return verdict::refused(Rule::NotStable, 0);
    }
    let length = image::strip::write(job.strip, area::image(job, first, second), out)?;
    *job = empty();
    Ok(length)
}

// An empty record: every field zero. What a job starts from.
pub fn empty() -> Job
    ensures { result ≡ empty_job }
{
    let strip = Strip {
        parts: 0,
        widths: [0usize; MAX_PARTS],
        heights: [0usize; MAX_PARTS],
    };
    Job {
        stage: sound::EMPTY,
        width: 0,
        height: 0,
        passes: 0,
        added: 0,
        removed: 0,
        table: table::empty(),
        strip,
        counts: parts::none(),
    }
}
