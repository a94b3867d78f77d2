// What is lawful and yet lost: what of the context comes to nothing, and the effects that give way.
use crate::loss_messages;
use show_contexts::context_names::Context;
use show_contexts::losses;
use show_pages::pages::Page;

// All warnings about a text that is answered by these effects, a line each, behind a word.
pub fn put_warnings(
    page: &mut Page,
    text: &[u8],
    context: Context,
    file: &[u8],
    answer: &[[u8; 5]],
    word: &[u8],
) {
    losses::put_losses(page, context, file, word);
    loss_messages::put_losses(page, text, context, answer, word);
}
