// Where an offset stands in a text, for a person: the line and the column as an editor counts them, from 1, a column a byte; and the line
// itself with a mark under the place.
ghost use Rattle.std.specs.Prelude.{◌≤◌, length};

use crate::pages::{self, Page};
use crate::visible::{self, Characters};

pub fn line_of(text: &[u8], offset: usize) -> usize {
    let before = pages::part(text, 0, offset);
    1 + before.iter().filter(|byte| **byte == b'\n').count()
}

// The offset of a line's first byte.
pub fn line_start(text: &[u8], offset: usize) -> usize
    ensures { result ≤ offset }
{
    let before = pages::part(text, 0, offset);
    match before.iter().rposition(|byte| *byte == b'\n') {
        Some(at) => at + 1,
        None => 0,
    }
}

// The offset behind a line's last byte.
pub fn line_end(text: &[u8], offset: usize) -> usize
    ensures { offset ≤ result }
{
    let rest = pages::part(text, offset, text.len());
    match rest.iter().position(|byte| *byte == b'\n') {
        Some(n) => offset + n,
        None => offset.max(text.len()),
    }
}

// The first offset, from one on, that is inside no character.
fn whole(text: &[u8], from: usize, end: usize) -> usize {
    let rest = pages::part(text, from, end);
    match rest.iter().position(|byte| !visible::is_inside(*byte)) {
        Some(n) => from + n,
        None => end,
    }
}

// What stands on the mark's line below a character: blanks as wide as it is shown, or a tab.
fn put_below(page: &mut Page, character: &[u8]) {
    if character.starts_with(b"\t") {
        page.put(b'\t');
    } else {
        for _ in 0..visible::columns_of(character) {
            page.put(b' ');
        }
    }
}

// What stands on the mark's line below a part of the text, before the mark.
fn put_before(page: &mut Page, before: &[u8]) {
    for character in Characters(before) {
        put_below(page, character);
    }
}

// The end of a line without a carriage return.
fn before_return(text: &[u8], start: usize, end: usize) -> usize {
    if pages::part(text, start, end).ends_with(b"\r") {
        end - 1
    } else {
        end
    }
}

// Where the shown part of a line starts and ends: a long line is cut around the place.
#[derive(Clone, Copy)]
struct Cut {
    from: usize,
    to: usize,
    ended: bool,
}

fn cut_around(text: &[u8], start: usize, offset: usize) -> Cut {
    let end = before_return(text, start, line_end(text, offset));
    let from = if start < offset && 60 < offset - start {
        whole(text, offset - 60, offset)
    } else {
        start
    };
    if offset < end && 60 < end - offset {
        Cut {
            from,
            to: whole(text, offset + 60, end),
            ended: false,
        }
    } else {
        Cut {
            from,
            to: end,
            ended: true,
        }
    }
}

// The line in which an offset stands, and the mark on a line below it.
pub fn put_marked(page: &mut Page, text: &[u8], offset: usize) {
    let start = line_start(text, offset);
    let cut = cut_around(text, start, offset);
    let whole = cut.from == start;
    page.put_str(if whole { "  " } else { "  .." });
    page.put_visible(pages::part(text, cut.from, cut.to));
    page.put_str(if cut.ended { "\n" } else { "..\n" });
    page.put_str(if whole { "  " } else { "    " });
    put_before(page, pages::part(text, cut.from, offset));
    page.put_str("^\n");
}

// `line L, column C: `.
pub fn put_place(page: &mut Page, text: &[u8], offset: usize) {
    page.put_str("line ");
    page.put_number(line_of(text, offset));
    page.put_str(", column ");
    page.put_number(column_of(text, offset));
    page.put_str(": ");
}

fn column_of(text: &[u8], offset: usize) -> usize {
    (offset - line_start(text, offset)).saturating_add(1)
}
