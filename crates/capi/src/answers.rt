// The libraries' answers as C structs. Each starts with what is said of a refusal: number 0 is "accepted"; else all that follows is zero, but for
// a quota, which comes back also where it is refused. Functions, and not `From`: capi/Answers and `tests/wrappers` know each by its name.
ghost use Rattle.std.specs.Prelude.{◌≡◌};
ghost use Rattle.capi.specs.Answers.{of_verdict, of_table_read, of_written, of_image_read, of_passed, of_figured, of_opened, of_metered};

use crate::{
    ChannelProgress, Checked, FiguresAnswer, FileLength, ImageSize, Progress, QuotaAnswer,
    TableAnswer,
};
use history::{Effect, Figured, Passed};
use image::size::Size;
use job::channel::Metered;
use job::quota::Opened;
use table::Table;
use verdict::{Refusal, Verdict, Written};

// What C gets for an answer that refuses nothing, and for a pass that changed pixels or none.
const ACCEPTED: u32 = 0;

const CHANGED: u32 = 0;

const STABLE: u32 = 1;

pub(crate) fn of_verdict(verdict: Verdict) -> Checked
    ensures { result ≡ of_verdict verdict }
{
    match verdict {
        Ok(()) => Checked {
            number: ACCEPTED,
            place: 0,
            witness: 0,
            position: 0,
        },
        Err(refusal) => Checked {
            number: refusal.rule.number(),
            place: refusal.place,
            witness: refusal.witness,
            position: refusal.position,
        },
    }
}

pub(crate) fn of_table_read(read: Result<Table, Refusal>) -> TableAnswer
    ensures { result ≡ of_table_read read }
{
    match read {
        Ok(table) => TableAnswer {
            checked: of_verdict(Ok(())),
            table,
        },
        Err(refusal) => TableAnswer {
            checked: of_verdict(Err(refusal)),
            table: table::empty(),
        },
    }
}

pub(crate) fn of_written(written: Written) -> FileLength
    ensures { result ≡ of_written written }
{
    match written {
        Ok(bytes) => FileLength {
            checked: of_verdict(Ok(())),
            length: bytes,
        },
        Err(refusal) => FileLength {
            checked: of_verdict(Err(refusal)),
            length: 0,
        },
    }
}

pub(crate) fn of_image_read(read: Result<Size, Refusal>) -> ImageSize
    ensures { result ≡ of_image_read read }
{
    match read {
        Ok(size) => ImageSize {
            checked: of_verdict(Ok(())),
            width: size.width,
            height: size.height,
        },
        Err(refusal) => ImageSize {
            checked: of_verdict(Err(refusal)),
            width: 0,
            height: 0,
        },
    }
}

pub(crate) fn of_passed(passed: Passed) -> Progress
    ensures { result ≡ of_passed passed }
{
    match passed {
        Ok(Effect::Changed) => Progress {
            checked: of_verdict(Ok(())),
            stable: CHANGED,
        },
        Ok(Effect::Stable) => Progress {
            checked: of_verdict(Ok(())),
            stable: STABLE,
        },
        Err(refusal) => Progress {
            checked: of_verdict(Err(refusal)),
            stable: CHANGED,
        },
    }
}

pub(crate) fn of_figured(figured: Figured) -> FiguresAnswer
    ensures { result ≡ of_figured figured }
{
    match figured {
        Ok(figures) => FiguresAnswer {
            checked: of_verdict(Ok(())),
            balance: figures.balance,
            cover: figures.cover,
        },
        Err(refusal) => FiguresAnswer {
            checked: of_verdict(Err(refusal)),
            balance: 0,
            cover: 0,
        },
    }
}

pub(crate) fn of_opened(opened: Opened) -> QuotaAnswer
    ensures { result ≡ of_opened opened }
{
    let answer = opened.answer;
    let quota = opened.quota;
    QuotaAnswer {
        checked: of_verdict(answer),
        quota,
    }
}

pub(crate) fn of_metered(metered: Metered) -> ChannelProgress
    ensures { result ≡ of_metered metered }
{
    let answer = metered.answer;
    let quota = metered.quota;
    let progress = of_passed(answer);
    let checked = progress.checked;
    ChannelProgress {
        checked,
        stable: progress.stable,
        quota,
    }
}
