// Why an argument is refused by 9, which has several causes.
use crate::accepted::Wanted;
use crate::keywords::Keyword;
use crate::scenes::Scene;
use crate::{accepted, found, scenes};
use show_pages::pages::Page;
use tokens::Token;

// The first word of an array, from behind its `[` on.
fn put_word(page: &mut Page, text: &[u8], from: usize) {
    if let Some(token) = scenes::tokens_from(text, from).find(|token| token.kind == tokens::WORD) {
        page.put_quoted(scenes::spelled(text, token));
    }
}

// The token behind another.
fn behind(text: &[u8], token: Token) -> Token {
    scenes::token_at(text, token.next.at)
}

// The first argument of a statement, behind its keyword, its `?` and its `(`.
fn first_argument(text: &[u8], scene: Scene) -> Token {
    let mark = scenes::token_at(text, scene.end);
    let first = behind(text, mark);
    if mark.kind == b'?' {
        behind(text, first)
    } else {
        first
    }
}

// Whether a token is the word N.
fn is_n(text: &[u8], token: Token) -> bool {
    token.kind == tokens::WORD && scenes::spelled(text, token).eq_ignore_ascii_case(b"N")
}

// What was found where something else is wanted.
fn put_kind(page: &mut Page, text: &[u8], place: usize, want: Option<Wanted>) {
    page.put_str("found ");
    if scenes::token_at(text, place).kind == b'[' {
        page.put_str("an array");
    } else {
        found::put_found(page, text, place);
    }
    page.put_str("; accepted: ");
    accepted::put_wanted(page, want);
}

// An array that is empty, or has a word among its counts, or stands where none may.
fn put_array(page: &mut Page, text: &[u8], token: Token, want: Option<Wanted>) {
    if behind(text, token).kind == b']' {
        page.put_str("an empty array; it must have an entry");
    } else if let Some(Wanted::Counts | Wanted::CountsOrN) = want {
        put_word(page, text, token.next.at);
        page.put_str(" is no count; this array has whole numbers");
    } else {
        put_kind(page, text, token.start, want);
    }
}

// Whether this is a second argument behind N.
fn follows_n(text: &[u8], scene: Scene, keyword: Option<Keyword>) -> bool {
    keyword == Some(Keyword::Transits)
        && scene.commas != 0
        && is_n(text, first_argument(text, scene))
}

// Whether this is a `*` for the effects of a COVARIATE without `?`.
fn is_star(scene: Scene, keyword: Option<Keyword>, token: Token) -> bool {
    keyword == Some(Keyword::Covariate)
        && scene.commas == 2
        && !scene.optional
        && token.kind == b'*'
}

fn put_argument(page: &mut Page, text: &[u8], scene: Scene, token: Token) {
    let keyword = scene.keyword(text);
    if follows_n(text, scene, keyword) {
        return page.put_str("TRANSITS(N) takes no second argument");
    }
    if is_star(scene, keyword, token) {
        return page.put_str(
            "`*` needs `COVARIATE?`; a COVARIATE that is no choice has its effects by name",
        );
    }
    let want = accepted::wanted_of(keyword, scene.commas);
    if token.kind == b'[' {
        put_array(page, text, token, want);
    } else {
        put_kind(page, text, token.start, want);
    }
}

// Which argument of which feature, and why.
pub fn put_wrong(page: &mut Page, text: &[u8], place: usize) {
    let scene = scenes::scene_at(text, place);
    page.put_str("argument ");
    page.put_number(scene.commas.saturating_add(1));
    page.put_str(" of ");
    accepted::put_keyword(page, scene.keyword(text));
    page.put_str(": ");
    put_argument(page, text, scene, scenes::token_at(text, place));
}
