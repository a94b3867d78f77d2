// Why a call of the system failed, in the system's words.
ghost use Rattle.std.specs.Prelude.{◌≤◌, length};

use show_pages::pages;
use std::io::{Error, Write};

// What stands before the last `(` and the blank before it; all where there is none.
fn before_number(words: &[u8]) -> &[u8]
    ensures { length result.now ≤ length words.now }
{
    match words.iter().rposition(|byte| *byte == b'(') {
        Some(at) => pages::part(words, 0, at.saturating_sub(1)),
        None => words,
    }
}

// An error as std writes it, cut where the text is full.
fn put_error(text: &mut [u8], error: Error) -> &[u8]
    ensures { length result.now ≤ length text.old }
{
    let most = text.len();
    let mut rest: &mut [u8] = &mut text[..];
    let _ = write!(rest, "{error}");
    let left = rest.len();
    pages::part(text, 0, most.saturating_sub(left))
}

// The words of an error. Behind the system's own words std writes the error's number, `No such file or directory (os error 2)`, which is left out.
pub fn put_reason(text: &mut [u8], error: Error) -> &[u8]
    ensures { length result.now ≤ length text.old }
{
    let words = put_error(text, error);
    match error.raw_os_error() {
        Some(_) => before_number(words),
        None => words,
    }
}
