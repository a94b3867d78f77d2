// Why a text is refused in a context, in words, whatever the number: the causes of 13 to 18 are looked for by resolving parts of the text.
use crate::probes::Probe;
use crate::{culprits, kinds, names, pair_messages, symbols};
use read_forms::{Fault, Refusal};
use show_contexts::context_names::Context;
use show_pages::pages::Page;
use show_texts::{scenes, text_messages};

// A symbol that is unknown.
fn put_unknown(page: &mut Page, probe: &mut Probe, start: usize, refusal: Refusal) {
    let operand = culprits::refused_of(probe, start, refusal);
    symbols::put_unknown(page, probe.text, probe.context, operand.from);
}

// A name that is missing.
fn put_missing(page: &mut Page, probe: &mut Probe, start: usize, refusal: Refusal) {
    let operand = culprits::refused_of(probe, start, refusal);
    let place = culprits::missing_place(probe, operand, refusal);
    names::put_missing(page, probe.text, probe.context, operand, place);
}

// An effect against its covariate's kind.
fn put_against(page: &mut Page, probe: &mut Probe, start: usize) {
    let entry = culprits::against_entry(probe, start);
    kinds::put_against(page, probe.text, probe.context, start, entry);
}

// The fault of a statement, at its index.
fn put_statement(page: &mut Page, text: &[u8], context: Context, refusal: Refusal) {
    let index = refusal.place;
    let start = scenes::statement_start(text, index).unwrap_or(text.len());
    let mut buffer = io::large_buffer();
    let mut probe = Probe::new(text, context, &mut buffer);
    match refusal.fault {
        Fault::SecondLet => symbols::put_second(page, text, start),
        Fault::UnknownSymbol => put_unknown(page, &mut probe, start, refusal),
        Fault::UnknownName => put_missing(page, &mut probe, start, refusal),
        Fault::WrongKind => put_against(page, &mut probe, start),
        Fault::ForcedTwice => pair_messages::put_forced(page, &mut probe, index, start),
        _ => pair_messages::put_large(page, &mut probe),
    }
}

// The fault of a text in a context, where counts have a ceiling.
pub fn put_fault(page: &mut Page, text: &[u8], context: Context, refusal: Refusal, ceiling: u32) {
    match refusal.fault {
        Fault::WrongContext
        | Fault::SecondLet
        | Fault::UnknownSymbol
        | Fault::UnknownName
        | Fault::WrongKind
        | Fault::ForcedTwice
        | Fault::TooLarge
        | Fault::TooShort
        | Fault::NoStatement
        | Fault::OutsideProfile
        | Fault::SecondStatement
        | Fault::CountAboveTen => put_statement(page, text, context, refusal),
        _ => text_messages::put_fault(page, text, refusal, ceiling),
    }
}
