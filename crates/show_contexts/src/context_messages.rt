// What is wrong with a context file, in words: a line that is malformed, or the cause for which Resolve refuses the context by 12.
use crate::context_file::{Cause, Malformed};
use crate::rows;
pub use crate::wrong::put_wrong;
use show_pages::pages::Page;
use show_pages::{places, strange};

// What is said of the word at the place.
fn said_of(cause: Cause) -> &'static str {
    match cause {
        Cause::UnknownRow => {
            " starts no line; a line starts with parameters, iiv, template, covariates or columns"
        }
        Cause::SecondRow => " starts a second line; all entries of a list stand on one line",
        Cause::NoVariable => " is no binding; a binding is a role and a parameter, as cl=CL",
        Cause::NoKind => {
            " has no kind; a covariate is written as WT:continuous or SEX:categorical"
        }
        Cause::UnknownKind => " is no kind; the kinds are continuous and categorical",
        Cause::TooMuch => " is more than a context can have",
    }
}

// A file that is malformed at a place. A strange byte of the word there is told before anything else.
pub fn put_malformed(page: &mut Page, file: &[u8], malformed: Malformed) {
    let place = malformed.place;
    if let Some(odd) = rows::strange_in(file, place) {
        return strange::put_found(page, file, odd);
    }
    places::put_place(page, file, place);
    page.put_quoted(rows::word_at(file, place).of(file));
    page.put_str(said_of(malformed.cause));
    page.put(b'\n');
    places::put_marked(page, file, place);
}
