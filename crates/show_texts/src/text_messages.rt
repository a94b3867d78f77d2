// Why a text is refused, in words that a person can act on: the place, what was found there, and what would have been accepted. The call
// answers a number and a place alone; the rest is looked up in the text.
use crate::accepted::Wanted;
use crate::scenes::Inside;
use crate::{accepted, arguments, expected, found, scenes};
use read_forms::{Fault, Refusal};
use show_pages::pages::{self, Page};
use show_pages::{places, strange};

// A byte that starts no token.
fn put_stray(page: &mut Page, text: &[u8], place: usize) {
    match text.get(place) {
        None => {}
        Some(b'.') => page.put_str("a single point; a range has two, as 0..2"),
        Some(b'-') => {
            page.put_str("a hyphen with no word before it; there are no negative numbers");
        }
        Some(b' '..=b'~') => {
            page.put_quoted(pages::part(text, place, place.saturating_add(1)));
            page.put_str(" starts no word, number or mark");
        }
        Some(_) => strange::put_strange(page, text, place),
    }
}

// A count that is none: a number with a point, or one that is too great.
fn put_count(page: &mut Page, text: &[u8], place: usize) {
    let number = scenes::spelled(text, scenes::token_at(text, place));
    page.put_quoted(number);
    page.put_str(if number.contains(&b'.') {
        " is no whole number"
    } else {
        " is too great for a count"
    });
}

// A range whose ends stand the wrong way round.
fn put_range(page: &mut Page, text: &[u8], place: usize) {
    let low = scenes::token_at(text, place);
    let points = scenes::token_at(text, low.next.at);
    let high = scenes::token_at(text, points.next.at);
    page.put_str("the range ");
    page.put_quoted(pages::part(text, low.start, high.next.at));
    page.put_str(" runs backwards; its lesser end stands first");
}

// The word at the place, which is no keyword.
fn put_unknown(page: &mut Page, text: &[u8], place: usize) {
    found::put_found(page, text, place);
    page.put_str(" is no feature's keyword");
}

// The keyword at the place, as the table has it.
fn put_name(page: &mut Page, text: &[u8], place: usize) {
    accepted::put_keyword(page, scenes::keyword_at(text, place));
}

fn put_optional(page: &mut Page, text: &[u8], place: usize) {
    put_name(page, text, place);
    page.put_str(" takes no `?`");
}

// How many arguments there are, and what there should be.
fn put_arity(page: &mut Page, text: &[u8], place: usize) {
    let scene = scenes::scene_at(text, scenes::closing_of(text, place));
    put_name(page, text, place);
    page.put_str(" takes ");
    accepted::put_arguments(page, scene.keyword(text));
    page.put_str("; it has ");
    page.put_number(scene.arguments());
}

// A word or a number that is no mode, of which feature.
fn put_mode(page: &mut Page, text: &[u8], place: usize) {
    found::put_found(page, text, place);
    page.put_str(" is no mode of ");
    accepted::put_keyword(page, scenes::scene_at(text, place).keyword(text));
}

// What there is too much of.
fn put_crowd(page: &mut Page, text: &[u8], place: usize) {
    page.put_str(if scenes::scene_at(text, place).inside == Inside::Array {
        "a 65th entry; an array has at most 64"
    } else {
        "this stands behind 256 statements; a text has at most 256"
    });
}

// The cause.
fn put_cause(page: &mut Page, text: &[u8], refusal: Refusal) {
    let place = refusal.place;
    match refusal.fault {
        Fault::BadByte => put_stray(page, text, place),
        Fault::Unexpected => expected::put_expected(page, text, place),
        Fault::BadCount => put_count(page, text, place),
        Fault::Backwards => put_range(page, text, place),
        Fault::UnknownKeyword => put_unknown(page, text, place),
        Fault::NotOptional => put_optional(page, text, place),
        Fault::WrongNumber => put_arity(page, text, place),
        Fault::WrongArgument => arguments::put_wrong(page, text, place),
        Fault::UnknownMode => put_mode(page, text, place),
        _ => put_crowd(page, text, place),
    }
}

// The modes of the argument at the place.
fn put_modes(page: &mut Page, text: &[u8], place: usize) {
    let scene = scenes::scene_at(text, place);
    page.put_str("  known: ");
    if let Some(Wanted::Modes(family)) = accepted::wanted_of(scene.keyword(text), scene.commas) {
        accepted::put_modes(page, family);
    }
    page.put(b'\n');
}

fn put_keywords(page: &mut Page) {
    page.put_str("  known: ");
    accepted::put_keywords(page);
    page.put(b'\n');
}

// The counts that are accepted under a ceiling.
fn put_counts(page: &mut Page, ceiling: u32) {
    page.put_str("  accepted: whole numbers from 0 to ");
    page.put_number(ceiling as usize);
    page.put(b'\n');
}

// What would have been accepted, on a line of its own.
fn put_accepted(page: &mut Page, text: &[u8], refusal: Refusal, ceiling: u32) {
    match refusal.fault {
        Fault::BadByte => page.put_str(
            "  accepted: words, numbers, ( ) [ ] , * + ? @ .. ; and comments from # on\n",
        ),
        Fault::Unexpected => expected::put_hint(page, text, refusal.place),
        Fault::BadCount => put_counts(page, ceiling),
        Fault::UnknownKeyword => put_keywords(page),
        Fault::NotOptional => page.put_str(
            "  accepted: `?` behind COVARIATE, IIV, IOV and COVARIANCE\n",
        ),
        Fault::UnknownMode => put_modes(page, text, refusal.place),
        _ => {}
    }
}

// The fault of a text that is too long.
fn put_length(page: &mut Page, text: &[u8]) {
    page.put_str("the text has ");
    if 65535 < text.len() {
        page.put_str("at least ");
    }
    page.put_number(text.len());
    page.put_str(" bytes; a text has at most 16384\n");
}

// The fault of a text at its place.
fn put_placed(page: &mut Page, text: &[u8], refusal: Refusal, ceiling: u32) {
    places::put_place(page, text, refusal.place);
    put_cause(page, text, refusal);
    page.put(b'\n');
    places::put_marked(page, text, refusal.place);
    put_accepted(page, text, refusal, ceiling);
}

// The fault of a text, where counts have a ceiling.
pub fn put_fault(page: &mut Page, text: &[u8], refusal: Refusal, ceiling: u32) {
    match refusal.fault {
        Fault::TooLong => put_length(page, text),
        Fault::CeilingTooHigh => page.put_str("a ceiling for counts is at most 256\n"),
        _ => put_placed(page, text, refusal, ceiling),
    }
}
