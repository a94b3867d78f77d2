// What an operand of a text stands for in a context, for messages: the text's LETs and a COVARIATE? that has the operand are resolved by
// themselves. So what a message says of an operand is what Resolve says of it.
use crate::lets;
use read_forms::Refusal;
use show_contexts::context_names::{Context, List};
use show_pages::pages::Page;
use show_texts::scenes::Statement;

// The most entries that a list has.
const ENTRIES: usize = 64;

// The entries of a list that an operand stands for, as their indexes there: in an array with their count, as no message may run out of memory.
#[derive(Clone, Copy)]
pub struct Picked {
    entries: [u8; ENTRIES],
    count: usize,
}

impl Picked {
    fn new() -> Picked {
        Picked {
            entries: [0; ENTRIES],
            count: 0,
        }
    }

    pub fn entries(&self) -> &[u8] {
        self.entries.get(..self.count).unwrap_or(&[])
    }

    // One more, unless it is the last of them or there is no room.
    fn push(&mut self, entry: u8) {
        if self.entries().last().copied() != Some(entry)
            && let Some(place) = self.entries.get_mut(self.count)
        {
            *place = entry;
            self.count = self.count.saturating_add(1);
        }
    }
}

// An entry that an effect is of: its parameter, or its covariate.
#[derive(Clone, Copy)]
enum Of {
    Parameter,
    Covariate,
}

// The entries that effects are of: those of one entry stand side by side.
fn pick(effects: &[[u8; 5]], of: Of) -> Picked {
    let mut picked = Picked::new();
    for [parameter, covariate, ..] in effects {
        picked.push(match of {
            Of::Parameter => *parameter,
            Of::Covariate => *covariate,
        });
    }
    picked
}

// The most effects that a text has.
pub const EFFECTS: usize = 2048;

// A text in a context, and a page for what Resolve is asked about it: the text's LETs, and then a statement.
#[derive(Drop)]
pub struct Probe<'a> {
    pub text: &'a [u8],
    pub context: Context<'a>,
    page: Page<'a>,
    lets: usize,
}

impl<'a> Probe<'a> {
    pub fn new(text: &'a [u8], context: Context<'a>, buffer: &'a mut [u8]) -> Probe<'a> {
        let mut page = Page::new(buffer);
        lets::put_lets(&mut page, text);
        let lets = page.len();
        Probe {
            text,
            context,
            page,
            lets,
        }
    }

    // The first name of a list, or another operand where it has none.
    fn put_first(&mut self, list: List, other: &str) {
        if self.context.count(list) == 0 {
            self.page.put_str(other);
        } else {
            self.page.put_all(self.context.name(list, 0));
        }
    }

    // An operand as parameters, with the first covariate that there is.
    fn put_parameters(&mut self, operand: &[u8]) {
        self.page.truncate(self.lets);
        self.page.put_str("\nCOVARIATE?(");
        self.page.put_all(operand);
        self.page.put(b',');
        self.put_first(self.context.covariates(), "*");
        self.page.put_str(",*)");
    }

    // An operand as covariates, with the first parameter that there is.
    fn put_covariates(&mut self, operand: &[u8]) {
        self.page.truncate(self.lets);
        self.page.put_str("\nCOVARIATE?(");
        self.put_first(List::Parameters, "@PD");
        self.page.put(b',');
        self.page.put_all(operand);
        self.page.put_str(",*)");
    }

    // What the page resolves to, with room for any answer: how many effects there are, or why it is refused. An effect is five bytes, and a note
    // two, as the C interface has them.
    fn resolve(&self, effects: &mut [[u8; 5]]) -> Result<usize, Refusal> {
        let mut ground = [0; 16384];
        let mut notes = [[0; 2]; 257];
        let mut work = [0; 2048];
        match resolve_call::resolve(
            self.page.kept(),
            self.context.block,
            self.context.lists,
            &mut ground,
            effects,
            &mut notes,
            &mut work,
        ) {
            Err(refusal) => Err(refusal),
            Ok(lengths) => Ok(lengths.effects),
        }
    }

    // The entries of the effects that the page resolves to.
    fn resolve_entries(&self, of: Of) -> Result<Picked, Refusal> {
        let mut effects = [[0; 5]; EFFECTS];
        let count = self.resolve(&mut effects)?;
        Ok(pick(effects.get(..count).unwrap_or(&[]), of))
    }

    // The parameters that an operand stands for, or why it is refused.
    pub fn parameters(&mut self, operand: &[u8]) -> Result<Picked, Refusal> {
        self.put_parameters(operand);
        self.resolve_entries(Of::Parameter)
    }

    // The covariates that an operand stands for, or why it is refused.
    pub fn covariates(&mut self, operand: &[u8]) -> Result<Picked, Refusal> {
        self.put_covariates(operand);
        self.resolve_entries(Of::Covariate)
    }

    // The effects of a statement that is alone with the LETs: none where it is refused.
    pub fn effects<'b>(
        &mut self,
        statement: Statement,
        effects: &'b mut [[u8; 5]],
    ) -> &'b [[u8; 5]] {
        self.page.truncate(self.lets);
        self.page.put(b'\n');
        self.page.put_all(statement.of(self.text));
        let count = self.resolve(effects).unwrap_or(0);
        effects.get(..count).unwrap_or(&[])
    }
}

// The entries of what is asked of a probe; none where it is refused.
pub fn entries_or_none(asked: Result<Picked, Refusal>) -> Picked {
    asked.unwrap_or(Picked::new())
}
