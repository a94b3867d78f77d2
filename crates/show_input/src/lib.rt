// What a program reads and writes, with no failure taken for an end. A read or a write that a signal interrupted before it moved a byte is
// taken up again. Every other failure is told on standard error: one of a descriptor that has nothing now (EAGAIN) too, for a proved loop has
// to end and cannot wait, and one of a pipe that nobody reads, for whose signal (SIGPIPE) no program of the kit is ended. Past a limit of a
// file's size (SIGXFSZ) the system ends the process, unless whoever started it said otherwise; then this is a failure as any other.
#![tactic(auto)]

mod reasons;

ghost use Rattle.std.specs.Prelude.{◌≤◌, length, IfOk, IfSome};

use show_pages::pages::{self, Page};
use std::env::{Env, FillError};
use std::fs::File;
use std::io::{Error, ErrorKind, Read, Write};

// Why not all was written: a call took nothing, or it failed.
#[derive(Clone, Copy)]
pub enum Unwritten {
    Stuck,
    Failed(Error),
}

// How many bytes one call moved, which lie within the part; 0 where a signal interrupted it, and none at an end.
fn moved(got: std::io::Result<usize>, part: &[u8]) -> Result<Option<usize>, Error>
    ensures { IfOk result (λ o. IfSome o (λ n. n ≤ length part.now)) }
{
    match got {
        Ok(0) => Ok(None),
        Ok(n) => Ok(Some(n.min(part.len()))),
        Err(error) if error.kind() == ErrorKind::Interrupted => Ok(Some(0)),
        Err(error) => Err(error),
    }
}

fn read_part<R: Read>(reader: &mut R, part: &mut [u8]) -> Result<Option<usize>, Error>
    ensures { IfOk result (λ o. IfSome o (λ n. n ≤ length part.new)) }
{
    let got = reader.read(part);
    moved(got, part)
}

fn write_part<W: Write>(writer: &mut W, part: &[u8]) -> Result<Option<usize>, Error>
    ensures { IfOk result (λ o. IfSome o (λ n. n ≤ length part.now)) }
{
    let got = writer.write(part);
    moved(got, part)
}

// The error where the turns of a loop are used up, which no run comes to.
fn no_end() -> Error {
    Error::other("no end after 18446744073709551615 calls")
}

// Everything from a reader, to its end or until the buffer is full: a full buffer is more than any text may have, and what would follow
// changes no answer. A proved loop has to end, so it counts its turns, up to a number that no run uses up.
pub fn read_all<'a, R: Read>(reader: &mut R, buffer: &'a mut [u8]) -> Result<&'a [u8], Error>
    ensures { IfOk result (λ s. length s.now ≤ length buffer.old) }
{
    let mut at = 0;
    for _ in 0..u64::MAX {
        if buffer.len() <= at {
            return Ok(buffer);
        }
        match read_part(reader, &mut buffer[at..])? {
            Some(n) => at += n,
            None => return Ok(&buffer[..at]),
        }
    }
    Err(no_end())
}

// All bytes, in as many calls as it takes.
pub fn write_all<W: Write>(writer: &mut W, bytes: &[u8]) -> Result<(), Unwritten> {
    let mut rest = bytes;
    for _ in 0..u64::MAX {
        if rest.is_empty() {
            return Ok(());
        }
        match write_part(writer, rest) {
            Ok(Some(n)) => rest = &rest[n..],
            Ok(None) => return Err(Unwritten::Stuck),
            Err(error) => return Err(Unwritten::Failed(error)),
        }
    }
    Err(Unwritten::Stuck)
}

// Bytes for a person. Where standard error fails there is nobody to tell.
pub fn tell_bytes(rt: &HostRuntime, bytes: &[u8]) {
    let mut errors = rt.stderr();
    let _ = write_all(&mut errors, bytes);
}

// What every failure's line begins with, so that a script can tell one: the program, and that it failed.
pub fn tell_failed(rt: &HostRuntime, program: &[u8]) {
    tell_bytes(rt, program);
    tell_bytes(rt, b"failed: ")
}

// Tells which program failed at what, and why.
pub fn tell(rt: &HostRuntime, program: &[u8], what: &[u8], error: Error) {
    tell_failed(rt, program);
    tell_bytes(rt, what);
    tell_bytes(rt, b": ");
    let mut text = [0; 256];
    tell_bytes(rt, reasons::put_reason(&mut text, error));
    tell_bytes(rt, b"\n")
}

// Everything from a reader, or why reading it failed, which is told.
fn read_told<'a, R: Read>(
    rt: &HostRuntime,
    program: &[u8],
    what: &[u8],
    reader: &mut R,
    buffer: &'a mut [u8],
) -> Result<&'a [u8], Error>
    ensures { IfOk result (λ s. length s.now ≤ length buffer.old) }
{
    match read_all(reader, buffer) {
        Ok(bytes) => Ok(bytes),
        Err(error) => {
            tell(rt, program, what, error);
            Err(error)
        }
    }
}

// Standard input; why reading failed is told.
pub fn read_input<'a>(
    rt: &HostRuntime,
    program: &[u8],
    buffer: &'a mut [u8],
) -> Result<&'a [u8], Error>
    ensures { IfOk result (λ s. length s.now ≤ length buffer.old) }
{
    read_told(rt, program, b"standard input", &mut rt.stdin(), buffer)
}

// A file by its name, opened for reading. std opens names in UTF-8 alone.
fn open(rt: &HostRuntime, path: &[u8]) -> std::io::Result<File> {
    match str::from_utf8(path) {
        Ok(name) => File::open(rt, name),
        Err(_) => Err(Error::new(
            ErrorKind::InvalidFilename,
            "a file whose name is not UTF-8 cannot be opened",
        )),
    }
}

// A file by its name, which is closed again: a number that stays open could be taken for standard input later. Why reading failed is told.
pub fn read_file<'a>(
    rt: &HostRuntime,
    program: &[u8],
    path: &[u8],
    buffer: &'a mut [u8],
) -> Result<&'a [u8], Error>
    ensures { IfOk result (λ s. length s.now ≤ length buffer.old) }
{
    match open(rt, path) {
        Ok(mut file) => read_told(rt, program, path, &mut file, buffer),
        Err(error) => {
            tell(rt, program, path, error);
            Err(error)
        }
    }
}

// The system's numbers of errors (EINVAL and ENAMETOOLONG), whose words are told.
const INVALID: i32 = 22;

const TOO_LONG: i32 = 36;

// Why an argument was not read: it is not there, or longer than the buffer.
fn no_argument(why: FillError) -> Error {
    match why {
        FillError::NotPresent => Error::from_raw_os_error(INVALID),
        FillError::TooLong => Error::from_raw_os_error(TOO_LONG),
    }
}

// An argument of the program, whole; why it was not read is told.
pub fn argument<'a>(
    rt: &HostRuntime,
    program: &[u8],
    index: usize,
    buffer: &'a mut [u8],
) -> Result<&'a [u8], Error>
    ensures { IfOk result (λ s. length s.now ≤ length buffer.old) }
{
    match rt.arg(index, buffer) {
        Ok(n) => Ok(pages::part(buffer, 0, n)),
        Err(why) => {
            let error = no_argument(why);
            tell(rt, program, b"an argument", error);
            Err(error)
        }
    }
}

// How many arguments there are, the program's own name among them.
pub fn argument_count(rt: &HostRuntime) -> usize {
    let mut byte = [0; 1];
    for index in 0..usize::MAX {
        if let Err(FillError::NotPresent) = rt.arg(index, &mut byte) {
            return index;
        }
    }
    usize::MAX
}

// An argument: no bytes where there is none, and none where it does not fit.
pub fn argument_or_empty<'a>(rt: &HostRuntime, index: usize, buffer: &'a mut [u8]) -> &'a [u8]
    ensures { length result.now ≤ length buffer.old }
{
    match rt.arg(index, buffer) {
        Ok(n) => pages::part(buffer, 0, n),
        Err(_) => pages::part(buffer, 0, 0),
    }
}

// The answer of a program, on standard output; that it was lost, in whole or in part, is told.
pub fn write_answer(rt: &HostRuntime, program: &[u8], answer: &[u8]) {
    match write_all(&mut rt.stdout(), answer) {
        Ok(()) => {}
        Err(Unwritten::Stuck) => {
            tell_failed(rt, program);
            tell_bytes(rt, b"standard output: takes no more bytes\n")
        }
        Err(Unwritten::Failed(error)) => tell(rt, program, b"standard output", error),
    }
}

// What a page has as the answer. One that is over-full has nothing whole, which is told, and nothing of it is written.
pub fn write_page(rt: &HostRuntime, program: &[u8], whole: Option<&[u8]>) {
    match whole {
        Some(answer) => write_answer(rt, program, answer),
        None => {
            tell_failed(rt, program);
            tell_bytes(rt, b"the answer is longer than its buffer\n")
        }
    }
}

// What a page has for a person.
pub fn write_message(rt: &HostRuntime, page: &Page) {
    tell_bytes(rt, page.kept())
}

// What the words before the others ask for: a ceiling for counts, and the index of the word behind `--ceiling N`.
#[derive(Clone, Copy)]
pub struct Ceiling {
    pub limit: u32,
    pub behind: usize,
}

// Where none is asked for: the source's limit.
const CEILING: Ceiling = Ceiling {
    limit: 64,
    behind: 1,
};

// Whether the argument at an index is this word, ignoring case.
pub fn is_word(rt: &HostRuntime, index: usize, name: &mut [u8], word: &[u8]) -> bool {
    index < argument_count(rt) && argument_or_empty(rt, index, name).eq_ignore_ascii_case(word)
}

// The ceiling that a number says.
fn ceiling_of(digits: &[u8]) -> Option<Ceiling> {
    let limit = counts::count_of(digits, u32::MAX)?;
    Some(Ceiling { limit, behind: 3 })
}

// The ceiling that the first two arguments ask for, or nothing where it is no number.
pub fn ceiling_words(rt: &HostRuntime, name: &mut [u8]) -> Option<Ceiling> {
    if !is_word(rt, 1, name, b"--ceiling") {
        Some(CEILING)
    } else if argument_count(rt) <= 2 {
        None
    } else {
        ceiling_of(argument_or_empty(rt, 2, name))
    }
}

// What `--version` writes: the product's line, and that of the kit by which it is proved.
pub fn write_version(rt: &HostRuntime, program: &[u8]) {
    write_answer(
        rt,
        program,
        b"dumachik 0.3\nrattle-kit-13f logic dac8208d650f15bf\n",
    )
}
