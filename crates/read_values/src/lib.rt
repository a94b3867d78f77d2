// A statement of a text by value.
#![tactic(auto)]

ghost use Rattle.std.specs.Prelude.{◌≡◌};
ghost use Rattle.tokens.specs.Class.{class_table};
ghost use Rattle.read_forms.specs.Fits.{Listed};
ghost use Rattle.reading.specs.Calls.{stating};
ghost use Rattle.read_values.specs.Lists.{no_items, names_in, counts_in, found_lists};
ghost use Rattle.read_values.specs.Value.{value_as, Usable, Filled};

use read_forms::{Counts, Item, Items, Operand, Refusal, Statement};
use read_parts::Part;
use tokens::{Classes, Cursor};

// A statement, or why there is none, and its lists beside it: the names of its first argument, the names or a LET's values of its second, and
// the counts of its first. An array's entries past its list are left free.
#[derive(Clone, Copy)]
pub struct Value {
    pub found: Result<Statement, Refusal>,
    pub first: [Item; 64],
    pub second: [Item; 64],
    pub counts: [u32; 64],
}

// Where the lists of a statement stand in the text; a list that it does not have is empty.
#[derive(Clone, Copy)]
pub struct Lists {
    pub first: Items,
    pub second: Items,
    pub counts: Items,
}

fn no_items() -> Items
    ensures { result ≡ no_items }
{
    Items {
        first: Cursor::new(),
        count: 0,
    }
}

fn operand_names(operand: Operand) -> Items
    ensures { result ≡ names_in (Part.Operand operand) }
{
    match operand {
        Operand::Wildcard => no_items(),
        Operand::Symbol(_) => no_items(),
        Operand::Names(items) => items,
    }
}

// The names or values of an argument.
fn names_in(part: Part) -> Items
    ensures { result ≡ names_in part }
{
    match part {
        Part::Operand(operand) => operand_names(operand),
        Part::Values(items) => items,
        _ => no_items(),
    }
}

fn listed_counts(counts: Counts) -> Items
    ensures { result ≡ counts_in (Part.Counts counts) }
{
    match counts {
        Counts::Single(_) => no_items(),
        Counts::Range(_, _) => no_items(),
        Counts::List(items) => items,
    }
}

// The counts of an argument.
fn counts_in(part: Part) -> Items
    ensures { result ≡ counts_in part }
{
    match part {
        Part::Counts(counts) => listed_counts(counts),
        _ => no_items(),
    }
}

// The lists of what was found; a refusal has none.
fn found_lists(found: Result<Statement, Refusal>) -> Lists
    ensures { result ≡ found_lists found }
{
    match found {
        Ok(statement) => {
            let parts = read_parts::parts_of(statement);
            Lists {
                first: names_in(parts.first),
                second: names_in(parts.second),
                counts: counts_in(parts.first),
            }
        }
        Err(_) => {
            let none = no_items();
            Lists {
                first: none,
                second: none,
                counts: none,
            }
        }
    }
}

// What was found, with its lists beside it.
fn value_of(
    text: &[u8],
    classes: &Classes,
    found: Result<Statement, Refusal>,
    lists: Lists,
) -> Value
    requires { (classes.now ≡ class_table) × Listed text.now lists.first × Listed text.now lists.second × Listed text.now lists.counts }
    ensures { (result.found ≡ found) × Filled text.now lists result }
{
    Value {
        found,
        first: read_lists::items_of(text, classes, lists.first),
        second: read_lists::items_of(text, classes, lists.second),
        counts: read_lists::counts_of(text, classes, lists.counts),
    }
}

// The statement of a text at an index by value, or why it is refused.
pub fn value_under(text: &[u8], index: usize, limit: u32) -> Value
    ensures { (value_as text.now result ≡ stating limit text.now index) × Usable text.now result }
{
    let found = read_text::statement_under(text, index, limit);
    let classes = tokens::CLASSES;
    value_of(text, &classes, found, found_lists(found))
}
