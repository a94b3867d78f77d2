// The names of a context as it is handed to Resolve, a block of bytes and a run of numbers, for messages and for lines of effects. What the run
// does not have is 0 or nothing, so that any context may be asked, one that is refused too.
use resolve_context::Kind;
use show_pages::pages::{self, Page};

// The lists of a context, in the order of the run.
#[derive(Clone, Copy, PartialEq, Eq)]
pub enum List {
    Parameters,
    Iiv,
    Template,
    Declared,
    Columns,
}

pub const LISTS: [List; 5] = [
    List::Parameters,
    List::Iiv,
    List::Template,
    List::Declared,
    List::Columns,
];

impl List {
    // How many numbers an entry has.
    fn step(self) -> usize {
        match self {
            List::Template => 4,
            List::Declared => 3,
            _ => 2,
        }
    }
}

// A context: its block and its run.
#[derive(Clone, Copy)]
pub struct Context<'a> {
    pub block: &'a [u8],
    pub lists: &'a [u32],
}

impl<'a> Context<'a> {
    // A number of the run.
    fn number(self, at: usize) -> usize {
        match self.lists.get(at) {
            Some(number) => *number as usize,
            None => 0,
        }
    }

    // How many entries a list has.
    pub fn count(self, list: List) -> usize {
        self.number(list as usize)
    }

    // Whether there is a template.
    pub fn has_template(self) -> bool {
        self.number(5) == 1
    }

    // Whether there is a block of declared covariates.
    pub fn has_block(self) -> bool {
        self.number(6) == 1
    }

    // The list that covariates are held to.
    pub fn covariates(self) -> List {
        if self.has_block() {
            List::Declared
        } else {
            List::Columns
        }
    }

    // The index of an entry's first number. The lists stand behind their five counts and two marks.
    fn entry(self, list: List, index: usize) -> usize {
        let mut at = 7usize;
        for before in LISTS.iter().take(list as usize) {
            at = at.saturating_add(self.count(*before).saturating_mul(before.step()));
        }
        at.saturating_add(index.saturating_mul(list.step()))
    }

    // The name whose offset and length stand at an index of the run.
    fn spelled(self, at: usize) -> &'a [u8] {
        let offset = self.number(at);
        let size = self.number(at.saturating_add(1));
        pages::part(self.block, offset, offset.saturating_add(size))
    }

    // The name of an entry: a binding's is its role.
    pub fn name(self, list: List, index: usize) -> &'a [u8] {
        self.spelled(self.entry(list, index))
    }

    // The variable of a binding.
    pub fn variable(self, index: usize) -> &'a [u8] {
        self.spelled(self.entry(List::Template, index).saturating_add(2))
    }

    // The kind of a declared covariate.
    pub fn kind(self, index: usize) -> Kind {
        let at = self.entry(List::Declared, index).saturating_add(2);
        match self.lists.get(at) {
            Some(number) => Kind::from(*number),
            None => Kind::Continuous,
        }
    }

    // Whether a list has a name, byte for byte.
    pub fn has_name(self, list: List, name: &[u8]) -> bool {
        (0..self.count(list)).any(|index| self.name(list, index) == name)
    }

    // Whether a list has a name, ignoring case.
    pub fn has_word(self, list: List, word: &[u8]) -> bool {
        (0..self.count(list)).any(|index| self.name(list, index).eq_ignore_ascii_case(word))
    }

    // The first name of a list that another list does not have.
    pub fn first_absent(self, list: List, other: List) -> Option<&'a [u8]> {
        for index in 0..self.count(list) {
            let name = self.name(list, index);
            if !self.has_name(other, name) {
                return Some(name);
            }
        }
        None
    }

    // All names of a list.
    pub fn put_names(self, page: &mut Page, list: List) {
        if self.count(list) == 0 {
            page.put_str("none");
        }
        for index in 0..self.count(list) {
            if 0 < index {
                page.put_str(", ");
            }
            page.put_all(self.name(list, index));
        }
    }
}
