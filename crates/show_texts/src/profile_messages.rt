// Why a text does not fit the PK-only profile, in words: the statement, and what of it is to blame. The call answers a number and the
// statement's index alone; the rest is looked up in the text.
use crate::keywords::Keyword;
use crate::{accepted, scenes};
use read_forms::{Fault, Refusal};
use show_pages::pages::Page;
use show_pages::places;
use tokens::Token;

// A feature that is none of the profile's.
fn put_outside(page: &mut Page, text: &[u8], start: usize) {
    places::put_place(page, text, start);
    accepted::put_keyword(page, scenes::keyword_at(text, start));
    page.put_str(" is outside the PK-only profile\n");
    places::put_marked(page, text, start);
    page.put_str("  outside: DIRECTEFFECT, EFFECTCOMP, INDIRECTEFFECT, METABOLITE\n");
}

// The offset of the first statement with a keyword, or the text's length.
fn first_of(text: &[u8], keyword: Option<Keyword>) -> usize {
    match scenes::statements_of(text).find(|statement| scenes::keyword_at(text, statement.start)
        == keyword)
    {
        Some(statement) => statement.start,
        None => text.len(),
    }
}

// A second statement of a feature of which there may be one.
fn put_second(page: &mut Page, text: &[u8], start: usize) {
    let keyword = scenes::keyword_at(text, start);
    places::put_place(page, text, start);
    accepted::put_keyword(page, keyword);
    page.put_str(" stands already, on line ");
    page.put_number(places::line_of(text, first_of(text, keyword)));
    page.put_str("; the PK-only profile has at most one\n");
    places::put_marked(page, text, start);
}

// Whether a token is a number above 10.
fn is_high(text: &[u8], token: Token) -> bool {
    if token.kind != tokens::NUMBER {
        return false;
    }
    counts::count_of(scenes::spelled(text, token), 10).is_none()
}

// A count above 10. The counts are the statement's first argument, so no other number comes before it.
fn put_high(page: &mut Page, text: &[u8], start: usize) {
    let from = scenes::argument_start(text, start, 0);
    let token = scenes::tokens_from(text, from)
        .find(|token| is_high(text, *token))
        .unwrap_or(scenes::token_at(text, from));
    places::put_place(page, text, token.start);
    page.put_quoted(scenes::spelled(text, token));
    page.put_str(" is above 10, the highest count of the PK-only profile\n");
    places::put_marked(page, text, token.start);
}

// A fault of the profile, with its statement's index.
pub fn put_fault(page: &mut Page, text: &[u8], refusal: Refusal) {
    let start = scenes::statement_start(text, refusal.place).unwrap_or(text.len());
    match refusal.fault {
        Fault::OutsideProfile => put_outside(page, text, start),
        Fault::SecondStatement => put_second(page, text, start),
        _ => put_high(page, text, start),
    }
}
