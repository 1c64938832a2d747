// Files by name, in the current folder, and what fails of them.
ghost use Rattle.std.specs.Prelude.{◌≡◌, ◌≤◌, length, IfOk};

use std::fmt::{self, InlineText};
use std::fs::{OpenFile, OpenOptions};
use std::io::{ErrorKind, Read, Write};
use std::rt::Runtime;
use std::{fs, io};

// What the program reads and writes; a part is a new image before it has its name.
#[derive(Clone, Copy)]
pub(crate) enum Name {
    Table,
    Sheet,
    Image,
    Part(u8),
    Output,
}

impl fmt::Display for Name {
    fn fmt<W: fmt::Write>(&self, f: &mut fmt::Formatter<W>) -> fmt::Result {
        match self {
            Name::Table => write!(f, "table.mtb"),
            Name::Sheet => write!(f, "sheet.pbm"),
            Name::Image => write!(f, "clean.pbm"),
            Name::Part(k) => write!(f, "clean.pbm.{k:02}.part"),
            Name::Output => write!(f, "standard output"),
        }
    }
}

impl Name {
    fn path(self) -> InlineText<20> {
        InlineText::of(self)
    }
}

// What failed, and the new file that it leaves behind.
#[derive(Drop)]
pub(crate) struct Failure {
    pub name: Name,
    pub error: io::Error,
    pub left: Option<Name>,
}

impl Failure {
    pub(crate) fn of(name: Name, error: io::Error) -> Failure {
        Failure {
            name,
            error,
            left: None,
        }
    }
}

// A new file, and the number in its name.
#[derive(Drop)]
struct Part<F: Drop> {
    file: F,
    name: Name,
}

// The bytes of a file, in the room for them and as far as it goes.
pub(crate) fn read<'a, R: Runtime>(
    rt: &R,
    name: Name,
    room: &'a mut [u8],
) -> Result<&'a [u8], Failure>
    ensures { IfOk result (λ bytes. length bytes.now ≤ length room.old) }
{
    match fill(rt, name, room) {
        Ok(count) => Ok(&room[..count]),
        Err(error) => Err(Failure::of(name, error)),
    }
}

fn fill<R: Runtime>(rt: &R, name: Name, room: &mut [u8]) -> io::Result<usize>
    ensures { IfOk result (λ count. count ≤ length room.new) }
{
    match fs::open(rt, name.path().as_str()) {
        Ok(mut file) => read_on(&mut file, room),
        Err(error) => unopened(error),
    }
}

// A missing file counts as empty (01).
fn unopened(error: io::Error) -> io::Result<usize>
    ensures { IfOk result (λ count. count ≡ 0) }
{
    if error.kind() == ErrorKind::NotFound {
        return Ok(0);
    }
    Err(error)
}

// Reads until the room is full or the file ends.
fn read_on<F: Read>(file: &mut F, room: &mut [u8]) -> io::Result<usize>
    ensures { IfOk result (λ count. count ≤ length room.new) }
{
    let mut count = 0;
    while count < room.len() {
        match file.read(&mut room[count..])? {
            0 => break,
            more => count += more,
        }
    }
    Ok(count)
}

// Writes the bytes to a new file and then gives it the name of the image, which is there whole or as it was.
pub(crate) fn replace<R: Runtime>(rt: &R, bytes: &[u8]) -> Result<(), Failure> {
    let Part { file, name } = create(rt)?;
    let moved = store(file, bytes).and_then(|()| {
        fs::rename(rt, name.path().as_str(), Name::Image.path().as_str())
    });
    moved.map_err(|error| Failure {
        name: Name::Image,
        error,
        left: Some(name),
    })
}

// What a failure leaves behind goes once it is said.
pub(crate) fn clear<R: Runtime>(rt: &R, failure: &Failure) {
    if let Some(name) = failure.left {
        let _ = fs::remove_file(rt, name.path().as_str());
    }
}

// The file is closed when this returns, and what a close would report is asked for before.
fn store<F: Write + OpenFile + Drop>(mut file: F, bytes: &[u8]) -> io::Result<()> {
    file.write_all(bytes)?;
    file.sync_data()
}

// The first of a hundred names that nothing has, not even a link.
fn create<R: Runtime>(rt: &R) -> Result<Part<R::File>, Failure> {
    let first = attempt(rt, 0);
    if !is_taken(&first) {
        return first;
    }
    (1..100)
        .map(|k| attempt(rt, k))
        .find(|part| !is_taken(part))
        .unwrap_or(first)
}

fn attempt<R: Runtime>(rt: &R, k: u8) -> Result<Part<R::File>, Failure> {
    let name = Name::Part(k);
    OpenOptions::new()
        .write(true)
        .create_new(true)
        .open(rt, name.path().as_str())
        .map(|file| Part { file, name })
        .map_err(|error| Failure::of(name, error))
}

fn is_taken<F: Drop>(part: &Result<Part<F>, Failure>) -> bool {
    matches!(part, Err(failure) if failure.error.kind() == ErrorKind::AlreadyExists)
}
