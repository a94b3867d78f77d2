// Effects that give way in merging, in words: a line for each statement that loses some, with the pairs and the lines that have them.
use crate::losses::{Loss, Losses};
use crate::probes::Probe;
use crate::{losses, pair_messages};
use show_contexts::context_names::Context;
use show_pages::pages::{self, Page};
use show_pages::places;
use show_texts::scenes;

// The statement that starts at an offset, behind a word.
fn put_statement(page: &mut Page, text: &[u8], start: usize, word: &[u8]) {
    page.put_all(word);
    page.put_str("line ");
    page.put_number(places::line_of(text, start));
    page.put_str(": ");
    let end = scenes::closing_of(text, start).saturating_add(1);
    page.put_quoted(pages::part(text, start, end));
    page.put_str(" gives way where a statement names the parameter, and loses its effects on ");
}

// `CL-WT (line 2)`.
fn put_pair(page: &mut Page, text: &[u8], context: Context, loss: &Loss) {
    pair_messages::put_pair(page, context, loss.pair);
    page.put_str(" (line ");
    page.put_number(places::line_of(text, loss.owner));
    page.put(b')');
}

// All of them, a line for each statement.
fn put_all(page: &mut Page, text: &[u8], context: Context, losses: &[Loss], word: &[u8]) {
    let mut before = None;
    for loss in losses {
        if before == Some(loss.start) {
            page.put_str(", ");
        } else {
            if before.is_some() {
                page.put(b'\n');
            }
            put_statement(page, text, loss.start, word);
        }
        put_pair(page, text, context, loss);
        before = Some(loss.start);
    }
    if before.is_some() {
        page.put(b'\n');
    }
}

// What the statements of a text lose, given the effects that it is answered by, a line each, behind a word.
pub fn put_losses(page: &mut Page, text: &[u8], context: Context, answer: &[[u8; 5]], word: &[u8]) {
    let mut buffer = io::large_buffer();
    let mut probe = Probe::new(text, context, &mut buffer);
    let mut losses = Losses::new();
    losses::find_losses(&mut losses, &mut probe, answer);
    put_all(page, text, context, losses.all(), word);
}
