// The C interface: one function for each call of the libraries. include/mask_cleaner.h declares them.
#![tactic(auto)]

mod answers;

ghost use Rattle.std.specs.Prelude.{cond, ◌≡◌, length};
ghost use Rattle.capi.specs.Answers.{of_verdict, of_table_read, of_written, of_image_read, of_passed, of_figured, of_opened, of_metered};
ghost use Rattle.capi.specs.Part.{part_of, Shows};
ghost use Rattle.filter.specs.Previewed.{preview_verdict, preview_area};
ghost use Rattle.history.specs.Call.{view, figures, state_of};
ghost use Rattle.history.specs.Channel.{channel_pass_of, channel_run_of};
ghost use Rattle.history.specs.Collect.{collect_written, collect_output, collect_state};
ghost use Rattle.history.specs.Load.{load_verdict, load_state};
ghost use Rattle.history.specs.Pass.{pass_of};
ghost use Rattle.history.specs.Run.{run_of};
ghost use Rattle.history.specs.Source.{from_file, from_three, from_strip};
ghost use Rattle.history.specs.State.{even};
ghost use Rattle.history.specs.View.{figures_of};
ghost use Rattle.image.specs.File.{image_read, image_area, image_written, image_output};
ghost use Rattle.job.specs.Channels.{opened, metered};
ghost use Rattle.job.specs.Core.{at};
ghost use Rattle.table.specs.File.{read_table, written_table, table_output};
ghost use Rattle.table.specs.Record.{record_verdict};

use history::{Job, Quota};
use image::strip::Strip;
use table::Table;
use verdict::Verdict;

// What every answer for C starts with. Number 0 is "accepted"; else it is the refusal, and all that follows is zero,
// but for a quota.
#[repr(C)]
#[derive(Clone, Copy)]
pub struct Checked {
    pub number: u32,
    pub place: usize,
    pub witness: usize,
    pub position: usize,
}

#[repr(C)]
#[derive(Clone, Copy)]
pub struct TableAnswer {
    pub checked: Checked,
    pub table: Table,
}

#[repr(C)]
#[derive(Clone, Copy)]
pub struct ImageSize {
    pub checked: Checked,
    pub width: usize,
    pub height: usize,
}

#[repr(C)]
#[derive(Clone, Copy)]
pub struct FileLength {
    pub checked: Checked,
    pub length: usize,
}

// Stable is 1 for 01's "at rest", 0 for "changed".
#[repr(C)]
#[derive(Clone, Copy)]
pub struct Progress {
    pub checked: Checked,
    pub stable: u32,
}

// The first bytes of an area: 1 the first, 2 the second, 0 where it is refused.
#[repr(C)]
#[derive(Clone, Copy)]
pub struct Part {
    pub checked: Checked,
    pub area: u32,
    pub length: usize,
}

#[repr(C)]
#[derive(Clone, Copy)]
pub struct FiguresAnswer {
    pub checked: Checked,
    pub balance: i64,
    pub cover: usize,
}

// The quota afterwards comes back in every answer, also in a refused one (02, T-10).
#[repr(C)]
#[derive(Clone, Copy)]
pub struct QuotaAnswer {
    pub checked: Checked,
    pub quota: Quota,
}

#[repr(C)]
#[derive(Clone, Copy)]
pub struct ChannelProgress {
    pub checked: Checked,
    pub stable: u32,
    pub quota: Quota,
}

// How C is told the area.
const FIRST: u32 = 1;

const SECOND: u32 = 2;

#[unsafe(no_mangle)]
pub extern "C" fn mask_table_check(table: Table) -> Checked
    ensures { result ≡ of_verdict (record_verdict table) }
{
    answers::of_verdict(table::check(table))
}

#[unsafe(no_mangle)]
pub extern "C" fn mask_table_read(file: &[u8]) -> TableAnswer
    ensures { result ≡ of_table_read (read_table file.now) }
{
    answers::of_table_read(table::read(file))
}

#[unsafe(no_mangle)]
pub extern "C" fn mask_table_write(table: Table, out: &mut [u8]) -> FileLength
    ensures { (result ≡ of_written (written_table table (length out.old)))
        × (out.new ≡ table_output table out.old) }
{
    answers::of_written(table::write(table, out))
}

#[unsafe(no_mangle)]
pub extern "C" fn mask_image_read(file: &[u8], area: &mut [u8]) -> ImageSize
    ensures { (result ≡ of_image_read (image_read file.now (length area.old)))
        × (area.new ≡ image_area file.now area.old) }
{
    answers::of_image_read(image::read(file, area))
}

#[unsafe(no_mangle)]
pub extern "C" fn mask_image_write(
    width: usize,
    height: usize,
    pixels: &[u8],
    out: &mut [u8],
) -> FileLength
    ensures { (result ≡ of_written (image_written width height pixels.now (length out.old)))
        × (out.new ≡ image_output width height pixels.now out.old) }
{
    answers::of_written(image::write(width, height, pixels, out))
}

#[unsafe(no_mangle)]
pub extern "C" fn mask_preview(
    width: usize,
    height: usize,
    pixels: &[u8],
    area: &mut [u8],
) -> Checked
    ensures { (result ≡ of_verdict (preview_verdict width height pixels.now (length area.old)))
        × (area.new ≡ preview_area width height pixels.now area.old) }
{
    answers::of_verdict(filter::preview::preview(width, height, pixels, area))
}

#[unsafe(no_mangle)]
pub extern "C" fn mask_load(
    job: &mut Job,
    table: Table,
    file: &[u8],
    first: &mut [u8],
    second: &[u8],
) -> Checked
    ensures { (result ≡ of_verdict (load_verdict table (from_file file.now) (at job.old first.old second.now)))
        × (job.new ≡ (load_state table (from_file file.now) (at job.old first.old second.now)).job)
        × (first.new ≡ (load_state table (from_file file.now) (at job.old first.old second.now)).first)
        × ((load_state table (from_file file.now) (at job.old first.old second.now)).second ≡ second.now) }
{
    answers::of_verdict(job::load(job, table, file, first, second))
}

#[unsafe(no_mangle)]
pub extern "C" fn mask_load_three(
    job: &mut Job,
    table: Table,
    one: &[u8],
    two: &[u8],
    three: &[u8],
    first: &mut [u8],
    second: &[u8],
) -> Checked
    ensures { (result ≡ of_verdict (load_verdict table (from_three one.now two.now three.now) (at job.old first.old second.now)))
        × (job.new ≡ (load_state table (from_three one.now two.now three.now) (at job.old first.old second.now)).job)
        × (first.new ≡ (load_state table (from_three one.now two.now three.now) (at job.old first.old second.now)).first)
        × ((load_state table (from_three one.now two.now three.now) (at job.old first.old second.now)).second ≡ second.now) }
{
    answers::of_verdict(job::load_three(job, table, one, two, three, first, second))
}

#[unsafe(no_mangle)]
pub extern "C" fn mask_load_strip(
    job: &mut Job,
    table: Table,
    strip: Strip,
    pixels: &[u8],
    first: &mut [u8],
    second: &[u8],
) -> Checked
    ensures { (result ≡ of_verdict (load_verdict table (from_strip strip pixels.now) (at job.old first.old second.now)))
        × (job.new ≡ (load_state table (from_strip strip pixels.now) (at job.old first.old second.now)).job)
        × (first.new ≡ (load_state table (from_strip strip pixels.now) (at job.old first.old second.now)).first)
        × ((load_state table (from_strip strip pixels.now) (at job.old first.old second.now)).second ≡ second.now) }
{
    answers::of_verdict(job::load_strip(job, table, strip, pixels, first, second))
}

#[unsafe(no_mangle)]
pub extern "C" fn mask_pass(job: &mut Job, first: &mut [u8], second: &mut [u8]) -> Progress
    ensures { (result ≡ of_passed (pass_of (at job.old first.old second.old)).answer)
        × (job.new ≡ (pass_of (at job.old first.old second.old)).state.job)
        × (first.new ≡ (pass_of (at job.old first.old second.old)).state.first)
        × (second.new ≡ (pass_of (at job.old first.old second.old)).state.second) }
{
    answers::of_passed(job::pass(job, first, second))
}

#[unsafe(no_mangle)]
pub extern "C" fn mask_run(job: &mut Job, first: &mut [u8], second: &mut [u8]) -> Progress
    ensures { (result ≡ of_passed (run_of (at job.old first.old second.old)).answer)
        × (job.new ≡ (run_of (at job.old first.old second.old)).state.job)
        × (first.new ≡ (run_of (at job.old first.old second.old)).state.first)
        × (second.new ≡ (run_of (at job.old first.old second.old)).state.second) }
{
    answers::of_passed(job::run(job, first, second))
}

// The part is named, not lent: C has both areas.
#[unsafe(no_mangle)]
pub extern "C" fn mask_view<'a>(job: Job, first: &'a [u8], second: &'a [u8]) -> Part
    ensures { (result ≡ part_of (at job first.now second.now))
        × Shows result (at job first.now second.now)
        × (state_of view (at job first.now second.now) ≡ at job first.now second.now) }
{
    let checked = job::view_verdict(job, first, second);
    match checked {
        Err(refusal) => Part {
            checked: answers::of_verdict(Err(refusal)),
            area: 0,
            length: 0,
        },
        Ok(()) => Part {
            checked: answers::of_verdict(Ok(())),
            area: holder(job.passes),
            length: job.width * job.height,
        },
    }
}

// The number of the area that holds the image.
fn holder(passes: usize) -> u32
    ensures { result ≡ cond (even passes) 1 2 }
{
    if passes % 2 == 0 { FIRST } else { SECOND }
}

#[unsafe(no_mangle)]
pub extern "C" fn mask_figures<'a>(job: Job, first: &'a [u8], second: &'a [u8]) -> FiguresAnswer
    ensures { (result ≡ of_figured (figures_of (at job first.now second.now)))
        × (state_of figures (at job first.now second.now) ≡ at job first.now second.now) }
{
    answers::of_figured(job::figures(job, first, second))
}

#[unsafe(no_mangle)]
pub extern "C" fn mask_collect<'a>(
    job: &mut Job,
    first: &'a [u8],
    second: &'a [u8],
    out: &mut [u8],
) -> FileLength
    ensures { (result ≡ of_written (collect_written (length out.old) (at job.old first.now second.now)))
        × (job.new ≡ (collect_state (length out.old) (at job.old first.now second.now)).job)
        × (out.new ≡ collect_output out.old (at job.old first.now second.now))
        × ((collect_state (length out.old) (at job.old first.now second.now)).first ≡ first.now)
        × ((collect_state (length out.old) (at job.old first.now second.now)).second ≡ second.now) }
{
    answers::of_written(job::collect(job, first, second, out))
}

#[unsafe(no_mangle)]
pub extern "C" fn mask_quota_open(quota: Quota) -> QuotaAnswer
    ensures { result ≡ of_opened (opened quota) }
{
    answers::of_opened(job::quota::open(quota))
}

#[unsafe(no_mangle)]
pub extern "C" fn mask_channel_pass(
    job: &mut Job,
    quota: Quota,
    channel: usize,
    first: &mut [u8],
    second: &mut [u8],
) -> ChannelProgress
    ensures { (result ≡ of_metered (metered (channel_pass_of quota channel (at job.old first.old second.old))))
        × (job.new ≡ (channel_pass_of quota channel (at job.old first.old second.old)).state.job)
        × (first.new ≡ (channel_pass_of quota channel (at job.old first.old second.old)).state.first)
        × (second.new ≡ (channel_pass_of quota channel (at job.old first.old second.old)).state.second) }
{
    answers::of_metered(job::channel::pass(job, quota, channel, first, second))
}

#[unsafe(no_mangle)]
pub extern "C" fn mask_channel_run(
    job: &mut Job,
    quota: Quota,
    channel: usize,
    first: &mut [u8],
    second: &mut [u8],
) -> ChannelProgress
    ensures { (result ≡ of_metered (metered (channel_run_of quota channel (at job.old first.old second.old))))
        × (job.new ≡ (channel_run_of quota channel (at job.old first.old second.old)).state.job)
        × (first.new ≡ (channel_run_of quota channel (at job.old first.old second.old)).state.first)
        × (second.new ≡ (channel_run_of quota channel (at job.old first.old second.old)).state.second) }
{
    answers::of_metered(job::channel::run(job, quota, channel, first, second))
}
