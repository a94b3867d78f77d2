// What stands at a place, as it is quoted.
use crate::scenes;
use show_pages::pages::Page;

// A separator is a line's end or a `;`.
fn put_separator(page: &mut Page, text: &[u8], place: usize) {
    match text.get(place) {
        Some(b';') => page.put_str("`;`"),
        Some(_) => page.put_str("the end of the line"),
        None => {}
    }
}

// The token at a place.
pub fn put_found(page: &mut Page, text: &[u8], place: usize) {
    let token = scenes::token_at(text, place);
    match token.kind {
        tokens::END => page.put_str("the end of the text"),
        b';' => put_separator(page, text, token.start),
        _ => page.put_quoted(scenes::spelled(text, token)),
    }
}
