// The symbols of a text and of a context, for messages: the LETs of the text, and the built-ins that the context has what they need for.
use crate::lets;
use show_contexts::context_names::Context;
use show_pages::pages::Page;

// Whether one of some words is this one, ignoring case.
fn has_word(words: &[&str], word: &[u8]) -> bool {
    words
        .iter()
        .any(|known| known.as_bytes().eq_ignore_ascii_case(word))
}

// The built-ins that a template has.
pub fn is_template(word: &[u8]) -> bool {
    has_word(
        &[
            "PK",
            "PK_IIV",
            "ABSORPTION",
            "ELIMINATION",
            "DISTRIBUTION",
            "BIOAVAIL",
        ],
        word,
    )
}

// The built-ins that declared covariates have.
pub fn is_declared(word: &[u8]) -> bool {
    has_word(&["CONTINUOUS", "CATEGORICAL"], word)
}

// All symbols that there are: the LETs', and the built-ins.
pub fn put_symbols(page: &mut Page, text: &[u8], context: Context) {
    lets::put_keys(page, text);
    page.put_str("@IIV, @PD, @PD_IIV");
    if context.has_template() {
        page.put_str(", @PK, @PK_IIV, @ABSORPTION, @ELIMINATION, @DISTRIBUTION, @BIOAVAIL");
    }
    if context.has_block() {
        page.put_str(", @CONTINUOUS, @CATEGORICAL");
    }
}
