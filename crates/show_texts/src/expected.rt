// What may stand at a place where a token is not allowed.
use crate::keywords::Keyword;
use crate::scenes::{Inside, Scene};
use crate::{accepted, found, scenes};
use show_pages::pages::Page;

// Before the `(` of a statement.
fn before_arguments(before: u8, lets: bool) -> &'static str {
    match before {
        b';' => "a feature's keyword or LET",
        b'?' => "`(`",
        _ if lets => "`(`",
        _ => "`(` or `?`",
    }
}

// Between the parentheses of a LET: a name, a comma, a value.
fn in_let(before: u8, commas: usize) -> &'static str {
    match before {
        b'(' => "the name of a symbol",
        _ if commas == 0 => "a comma",
        b',' => "a name, a number, or an array of them",
        _ => "`)`",
    }
}

// Between the parentheses of a feature.
fn in_feature(before: u8) -> &'static str {
    match before {
        b'(' => "an argument or `)`",
        b',' => "an argument: a word, a number, an array, `@SYMBOL`, `*` or `+`",
        _ => "a comma or `)`",
    }
}

// Behind a mark that asks for one thing, in any statement; or between its parentheses.
fn in_arguments(scene: Scene, lets: bool) -> &'static str {
    match scene.before {
        b'@' => "the name of a symbol",
        b'.' => "a number, the range's other end",
        before if lets => in_let(before, scene.commas),
        before => in_feature(before),
    }
}

fn in_array(before: u8) -> &'static str {
    match before {
        b'[' | b',' => "a name or a number",
        _ => "a comma or `]`",
    }
}

fn expected_at(scene: Scene, lets: bool) -> &'static str {
    match scene.inside {
        Inside::Before => before_arguments(scene.before, lets),
        Inside::Arguments => in_arguments(scene, lets),
        Inside::Array => in_array(scene.before),
        Inside::Behind => "`;` or a new line behind the statement",
    }
}

// `expected .., found ..`.
pub fn put_expected(page: &mut Page, text: &[u8], place: usize) {
    let scene = scenes::scene_at(text, place);
    let keyword = scene.keyword(text);
    if keyword.is_some() && scene.inside != Inside::Behind {
        page.put_str("in ");
        accepted::put_keyword(page, keyword);
        page.put_str(": ");
    }
    page.put_str("expected ");
    page.put_str(expected_at(scene, keyword == Some(Keyword::Let)));
    page.put_str(", found ");
    found::put_found(page, text, place);
}

// Where a line ends inside a statement: that it may not.
pub fn put_hint(page: &mut Page, text: &[u8], place: usize) {
    let token = scenes::token_at(text, place);
    let ends = text.get(token.start).is_some_and(|byte| *byte != b';');
    if token.kind == b';' && ends {
        page.put_str("  a statement stands on one line, up to its `)`\n");
    }
}
