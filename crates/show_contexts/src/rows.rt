// The rows of a context file: a line that is not blank, up to a comment, and its first word.
ghost use Rattle.std.specs.Prelude.{◌≡◌, ◌≤◌, ◌<◌, ◌-◌, length, take, drop, IfSome};
ghost use Rattle.std.specs.Iterator.{at_most};

use crate::context_names::{LISTS, List};
use show_pages::{pages, places, strange};

// A word of the file, from one offset to another.
#[derive(Clone, Copy)]
pub struct Span {
    pub from: usize,
    pub to: usize,
}

impl Span {
    pub fn of(self, file: &[u8]) -> &[u8]
        ensures { result.now ≡ drop self.from (take self.to file.now) }
    {
        pages::part(file, self.from, self.to)
    }

    // What stands before and behind the first byte of a kind.
    pub fn split(self, file: &[u8], byte: u8) -> Option<(Span, Span)> {
        let mark = find_byte(file, self.from, self.to, byte)?;
        let before = Span {
            from: self.from,
            to: mark,
        };
        let behind = Span {
            from: mark.saturating_add(1),
            to: self.to,
        };
        Some((before, behind))
    }
}

// The list that a row's first word names, where it names one; that word; and where the row's bytes end.
#[derive(Clone, Copy)]
pub struct Row {
    pub list: Option<List>,
    pub word: Span,
    pub end: usize,
}

fn is_blank(byte: u8) -> bool {
    matches!(byte, b' ' | b'\t' | b'\r')
}

// The offset of a byte between two others.
pub fn find_byte(file: &[u8], from: usize, to: usize, byte: u8) -> Option<usize>
    ensures { IfSome result (λ n. (from ≤ n) × (n < to)) }
{
    let n = pages::part(file, from, to)
        .iter()
        .position(|other| *other == byte)?;
    Some(from + n)
}

// The offset of the first byte from one offset on that is a blank, or that is none; or the second offset.
fn pass(file: &[u8], from: usize, to: usize, blank: bool) -> usize
    ensures { from ≤ result }
{
    let bytes = pages::part(file, from, to);
    match bytes.iter().position(|byte| is_blank(*byte) == blank) {
        Some(n) => from + n,
        None => from.max(to),
    }
}

// The words between two offsets.
#[derive(Drop)]
pub struct Words<'a> {
    file: &'a [u8],
    at: usize,
    end: usize,
}

impl Iterator for Words<'_> {
    type Item = Span;

    ghost remaining = { λ s. at_most (s.end - s.at) };

    fn next(&mut self) -> Option<Span> {
        let from = pass(self.file, self.at, self.end, false);
        if self.end <= from {
            return None;
        }
        let to = pass(self.file, from, self.end, true);
        if to <= from {
            return None;
        }
        self.at = to;
        Some(Span { from, to })
    }
}

impl Row {
    // The words behind the first.
    pub fn entries(self, file: &[u8]) -> Words<'_> {
        Words {
            file,
            at: self.word.to,
            end: self.end,
        }
    }
}

// The end of the line on which an offset stands, without its comment.
fn comment_or_end(file: &[u8], at: usize) -> usize {
    let line = places::line_end(file, at);
    find_byte(file, at, line, b'#').unwrap_or(line)
}

// The word that starts at an offset; a comment is no part of it.
pub fn word_at(file: &[u8], at: usize) -> Span {
    Span {
        from: at,
        to: pass(file, at, comment_or_end(file, at), true),
    }
}

// The offset of the first strange byte of the word that starts at an offset.
pub fn strange_in(file: &[u8], at: usize) -> Option<usize> {
    let word = word_at(file, at);
    strange::find_strange(file, word.from, word.to)
}

// The word with which a list's row starts.
fn word_of(list: List) -> &'static [u8] {
    match list {
        List::Parameters => b"parameters",
        List::Iiv => b"iiv",
        List::Template => b"template",
        List::Declared => b"covariates",
        List::Columns => b"columns",
    }
}

// The list whose row starts with a word, ignoring case.
fn list_of(word: &[u8]) -> Option<List> {
    LISTS
        .iter()
        .copied()
        .find(|list| word.eq_ignore_ascii_case(word_of(*list)))
}

// The row of the line that starts at an offset, if it has a word.
fn row_at(file: &[u8], at: usize) -> Option<Row> {
    let end = comment_or_end(file, at);
    let word = Words { file, at, end }.next()?;
    Some(Row {
        list: list_of(word.of(file)),
        word,
        end,
    })
}

// The lines of a file, each as its row, if it has a word.
#[derive(Drop)]
pub struct Lines<'a> {
    file: &'a [u8],
    at: usize,
}

pub fn lines_of(file: &[u8]) -> Lines<'_> {
    Lines { file, at: 0 }
}

impl Iterator for Lines<'_> {
    type Item = Option<Row>;

    ghost remaining = { λ s. at_most (length s.file.now - s.at) };

    fn next(&mut self) -> Option<Option<Row>> {
        if self.file.len() <= self.at {
            return None;
        }
        let row = row_at(self.file, self.at);
        self.at = places::line_end(self.file, self.at).saturating_add(1);
        Some(row)
    }
}

// The first row of a list.
pub fn find_row(file: &[u8], list: List) -> Option<Row> {
    for line in lines_of(file) {
        if let Some(row) = line
            && row.list == Some(list)
        {
            return Some(row);
        }
    }
    None
}
