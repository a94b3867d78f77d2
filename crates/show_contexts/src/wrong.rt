// The cause for which a context is refused: too many bytes, too many entries, or an entry that is no name.
use crate::context_names::{Context, List};
use crate::rows;
use show_pages::pages::Page;
use show_pages::{places, strange};
use show_texts::scenes;

// What can be wrong with a name.
#[derive(Clone, Copy)]
enum Fault {
    Empty,
    Long,
    NoName,
}

// What is checked of a context: the names of a list, or the variables of a template.
#[derive(Clone, Copy)]
enum Names {
    Of(List),
    Variables,
}

// In the order in which they are checked.
const CHECKED: [Names; 6] = [
    Names::Of(List::Parameters),
    Names::Of(List::Iiv),
    Names::Of(List::Template),
    Names::Variables,
    Names::Of(List::Declared),
    Names::Of(List::Columns),
];

impl Names {
    // The list whose row has the entries.
    fn list(self) -> List {
        match self {
            Names::Of(list) => list,
            Names::Variables => List::Template,
        }
    }

    fn name<'a>(self, context: Context<'a>, index: usize) -> &'a [u8] {
        match self {
            Names::Of(list) => context.name(list, index),
            Names::Variables => context.variable(index),
        }
    }
}

// Whether all the bytes together are one word or one number.
fn is_name(name: &[u8]) -> bool {
    let token = scenes::token_at(name, 0);
    token.kind <= tokens::NUMBER && token.start == 0 && token.next.at == name.len()
}

// What is wrong with a name of the block.
fn wrong_with(name: &[u8]) -> Option<Fault> {
    if name.is_empty() {
        Some(Fault::Empty)
    } else if 32 < name.len() {
        Some(Fault::Long)
    } else if is_name(name) {
        None
    } else {
        Some(Fault::NoName)
    }
}

// The offset of an entry in the file.
pub fn entry_place(file: &[u8], list: List, index: usize) -> usize {
    match rows::find_row(file, list) {
        Some(row) => match row.entries(file).nth(index) {
            Some(entry) => entry.from,
            None => row.end,
        },
        None => file.len(),
    }
}

fn said_of(fault: Fault) -> &'static str {
    match fault {
        Fault::Empty => " is empty; a name has at least one byte",
        Fault::Long => " has more than 32 bytes, the most of a name",
        Fault::NoName => " is not one word or one number",
    }
}

// An entry that is no name.
fn put_entry(page: &mut Page, file: &[u8], name: &[u8], place: usize, fault: Fault) {
    if let Some(odd) = rows::strange_in(file, place) {
        return strange::put_found(page, file, odd);
    }
    places::put_place(page, file, place);
    page.put_quoted(name);
    page.put_str(said_of(fault));
    page.put(b'\n');
    places::put_marked(page, file, place);
}

// A list with too many entries.
fn put_count(page: &mut Page, count: usize, list: List, file: &[u8]) {
    let place = match rows::find_row(file, list) {
        Some(row) => row.word.from,
        None => file.len(),
    };
    places::put_place(page, file, place);
    page.put_number(count);
    page.put_str(" entries; a list has at most 64\n");
    places::put_marked(page, file, place);
}

// What is wrong with the names of a list, and whether anything is.
fn put_names(page: &mut Page, context: Context, names: Names, file: &[u8]) -> bool {
    let list = names.list();
    let count = context.count(list);
    if 64 < count {
        put_count(page, count, list, file);
        return true;
    }
    for index in 0..count {
        let name = names.name(context, index);
        if let Some(fault) = wrong_with(name) {
            put_entry(page, file, name, entry_place(file, list, index), fault);
            return true;
        }
    }
    false
}

// Why a context that was read from a file is refused.
pub fn put_wrong(page: &mut Page, context: Context, file: &[u8]) {
    let bytes = context.block.len();
    if 16384 < bytes {
        page.put_number(bytes);
        page.put_str(" bytes of names; a context has at most 16384\n");
        return;
    }
    for names in CHECKED {
        if put_names(page, context, names, file) {
            return;
        }
    }
    page.put_str("a context that is not as it must be\n");
}
