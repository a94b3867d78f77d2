// The LETs of a text.
use show_pages::pages::Page;
use show_texts::keywords::Keyword;
use show_texts::scenes;

fn is_let(text: &[u8], start: usize) -> bool {
    scenes::keyword_at(text, start) == Some(Keyword::Let)
}

// The name of the LET that starts at an offset.
fn key_of(text: &[u8], start: usize) -> &[u8] {
    let token = scenes::token_at(text, scenes::argument_start(text, start, 0));
    scenes::spelled(text, token)
}

// The offset of the first LET of a name, ignoring case.
pub fn find_let(text: &[u8], word: &[u8]) -> Option<usize> {
    for statement in scenes::statements_of(text) {
        let start = statement.start;
        if is_let(text, start) && key_of(text, start).eq_ignore_ascii_case(word) {
            return Some(start);
        }
    }
    None
}

// The names of all LETs, each with an `@` before it and a comma behind it.
pub fn put_keys(page: &mut Page, text: &[u8]) {
    for statement in scenes::statements_of(text) {
        if is_let(text, statement.start) {
            page.put(b'@');
            page.put_all(key_of(text, statement.start));
            page.put_str(", ");
        }
    }
}

// All LETs of a text, a line each.
pub fn put_lets(page: &mut Page, text: &[u8]) {
    for statement in scenes::statements_of(text) {
        if is_let(text, statement.start) {
            page.put(b'\n');
            page.put_all(statement.of(text));
        }
    }
}
