// The entries of a list, as numbers of the run and bytes of the block.
use crate::context_file::{Cause, Malformed};
use crate::context_names::{Context, List};
use crate::rows::{self, Span};
use resolve_context::Kind;
use show_pages::pages::{self, Page};

// The block of a context, and its run with so many numbers, as far as they were taken from a file.
#[derive(Drop)]
pub struct Taking<'a> {
    block: Page<'a>,
    run: &'a mut [u32],
    numbers: usize,
}

// How many bytes of the block and how many numbers of the run a context has that was taken from a file.
#[derive(Clone, Copy)]
pub struct Taken {
    pub bytes: usize,
    pub numbers: usize,
}

impl Taken {
    // The context that was taken, of the block and the run that were lent.
    pub fn context<'a>(self, block: &'a [u8], run: &'a [u32]) -> Context<'a> {
        Context {
            block: pages::part(block, 0, self.bytes),
            lists: run.get(..self.numbers).unwrap_or(&[]),
        }
    }
}

// The kind that a word says, ignoring case.
fn kind_of(word: &[u8]) -> Option<Kind> {
    if word.eq_ignore_ascii_case(b"continuous") {
        Some(Kind::Continuous)
    } else if word.eq_ignore_ascii_case(b"categorical") {
        Some(Kind::Categorical)
    } else {
        None
    }
}

// The place of a list's mark, which a template and declared covariates have.
fn mark_of(list: List) -> Option<usize> {
    match list {
        List::Template => Some(5),
        List::Declared => Some(6),
        _ => None,
    }
}

impl<'a> Taking<'a> {
    // Nothing of a file: five counts and two marks come before the lists.
    pub fn new(block: &'a mut [u8], run: &'a mut [u32]) -> Taking<'a> {
        Taking {
            block: Page::new(block),
            run,
            numbers: 7,
        }
    }

    // A number at a place of the run; and where the file has what it is of.
    fn set(&mut self, at: usize, value: usize, place: usize) -> Result<(), Malformed> {
        let Some(number) = self.run.get_mut(at) else {
            return Err(Cause::TooMuch.at(place));
        };
        let Ok(value) = u32::try_from(value) else {
            return Err(Cause::TooMuch.at(place));
        };
        *number = value;
        Ok(())
    }

    // One more number.
    fn take_number(&mut self, value: usize, place: usize) -> Result<(), Malformed> {
        self.set(self.numbers, value, place)?;
        self.numbers = self.numbers.saturating_add(1);
        Ok(())
    }

    // A name: its bytes go behind those that the block has.
    fn take_name(&mut self, file: &[u8], name: Span) -> Result<(), Malformed> {
        let offset = self.block.len();
        self.block.put_all(name.of(file));
        if self.block.whole().is_none() {
            return Err(Cause::TooMuch.at(name.from));
        }
        self.take_number(offset, name.from)?;
        self.take_number(name.of(file).len(), name.from)
    }

    // `role=VARIABLE`.
    fn take_binding(&mut self, file: &[u8], entry: Span) -> Result<(), Malformed> {
        let Some((role, variable)) = entry.split(file, b'=') else {
            return Err(Cause::NoVariable.at(entry.from));
        };
        self.take_name(file, role)?;
        self.take_name(file, variable)
    }

    // `NAME:continuous` or `NAME:categorical`.
    fn take_covariate(&mut self, file: &[u8], entry: Span) -> Result<(), Malformed> {
        let Some((name, word)) = entry.split(file, b':') else {
            return Err(Cause::NoKind.at(entry.from));
        };
        let Some(kind) = kind_of(word.of(file)) else {
            return Err(Cause::UnknownKind.at(word.from));
        };
        self.take_name(file, name)?;
        self.take_number(resolve_context::number_of(kind) as usize, entry.from)
    }

    fn take_entry(&mut self, file: &[u8], list: List, entry: Span) -> Result<(), Malformed> {
        match list {
            List::Template => self.take_binding(file, entry),
            List::Declared => self.take_covariate(file, entry),
            _ => self.take_name(file, entry),
        }
    }

    // A list of the context. One whose row is left out has no entries, and no mark.
    pub fn take_list(&mut self, file: &[u8], list: List) -> Result<(), Malformed> {
        let Some(row) = rows::find_row(file, list) else {
            return Ok(());
        };
        if let Some(mark) = mark_of(list) {
            self.set(mark, 1, row.word.from)?;
        }
        let mut entries = 0usize;
        for entry in row.entries(file) {
            self.take_entry(file, list, entry)?;
            entries = entries.saturating_add(1);
        }
        self.set(list as usize, entries, row.word.from)
    }

    // The context, as far as it was taken; more can be taken behind it.
    pub fn context(&self) -> Context<'_> {
        Context {
            block: self.block.kept(),
            lists: self.run.get(..self.numbers).unwrap_or(&[]),
        }
    }

    // How much was taken.
    pub fn taken(&self) -> Taken {
        Taken {
            bytes: self.block.len(),
            numbers: self.numbers,
        }
    }
}
