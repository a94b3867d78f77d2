// A LET that is the second of its name, and a symbol that stands for nothing that there is.
use crate::{lets, symbol_words};
use show_contexts::context_names::Context;
use show_pages::pages::Page;
use show_pages::places;
use show_texts::scenes;
use tokens::Token;

// A second LET of a name.
pub fn put_second(page: &mut Page, text: &[u8], start: usize) {
    let token = scenes::token_at(text, scenes::argument_start(text, start, 0));
    let name = scenes::spelled(text, token);
    let first = lets::find_let(text, name).unwrap_or(text.len());
    places::put_place(page, text, token.start);
    page.put_quoted(name);
    page.put_str(" has a LET already, on line ");
    page.put_number(places::line_of(text, first));
    page.put_str("; a symbol has one, whatever the case of its letters\n");
    places::put_marked(page, text, token.start);
}

// Why there is no such symbol.
fn put_reason(page: &mut Page, word: &[u8]) {
    page.put_str(if symbol_words::is_template(word) {
        " is of the template, and the context has no line template; name the parameters, or define the symbol by a LET"
    } else if symbol_words::is_declared(word) {
        " is of the declared covariates, and the context has no line covariates; name them, or define the symbol by a LET"
    } else {
        " is no symbol: no LET defines it, and it is no built-in"
    });
}

// A symbol, or the `*` that stands for one.
fn put_symbol(page: &mut Page, text: &[u8], sign: Token) {
    if sign.kind == b'*' {
        page.put_str("`*` stands for `@PK` here, which");
        return put_reason(page, b"PK");
    }
    let word = scenes::spelled(text, scenes::token_at(text, sign.next.at));
    page.put_str("`@");
    page.put_all(word);
    page.put(b'`');
    put_reason(page, word);
}

// An unknown symbol, or one whose template or block is missing, at its place.
pub fn put_unknown(page: &mut Page, text: &[u8], context: Context, place: usize) {
    let sign = scenes::token_at(text, place);
    places::put_place(page, text, sign.start);
    put_symbol(page, text, sign);
    page.put(b'\n');
    places::put_marked(page, text, sign.start);
    page.put_str("  known: ");
    symbol_words::put_symbols(page, text, context);
    page.put(b'\n');
}
