// The program's one line, and what is said of trouble.
use crate::files::{Failure, Name};
use history::Job;
use std::fmt;
use std::rt::Runtime;
use verdict::Refusal;

// An enum of its own, since the library prints no Result of ours.
#[derive(Clone, Copy)]
pub(crate) enum Line {
    Cleaned(Job),
    Refused(Refusal),
}

// Width, height, passes, added, removed; or the refusal's numbers.
impl fmt::Display for Line {
    fn fmt<W: fmt::Write>(&self, f: &mut fmt::Formatter<W>) -> fmt::Result {
        match self {
            Line::Cleaned(job) => write!(
                f,
                "{} {} {} {} {}",
                job.width, job.height, job.passes, job.added, job.removed
            ),
            Line::Refused(refusal) => write!(
                f,
                "refused {} {} {} {}",
                refusal.rule.number(),
                refusal.place,
                refusal.witness,
                refusal.position
            ),
        }
    }
}

pub(crate) fn print<R: Runtime>(rt: &R, line: Line) {
    if let Err(error) = println!(rt; "{line}") {
        failure(rt, &Failure::of(Name::Output, error));
    }
}

// What failed, and the system's words for it, without the number that std puts behind them.
pub(crate) fn failure<R: Runtime>(rt: &R, failure: &Failure) {
    let Failure { name, error, .. } = failure;
    let _ = match format!(in rt.alloc(); "{error}") {
        Ok(text) => eprintln!(rt; "{name}: {}", words(text.as_str())),
        Err(_) => eprintln!(rt; "{name}: {error}"),
    };
}

fn words(text: &str) -> &str {
    match text.split_once(" (os error ") {
        Some((words, _)) => words,
        None => text,
    }
}
