// The tokens of a text as an answer.
ghost use Rattle.std.specs.Prelude.{◌≡◌, ◌<◌, length};
ghost use Rattle.tokens.specs.Class.{class_table};

use crate::output::Output;
use tokens::{Classes, Cursor, Lexed};

// A word or a number with its bytes, behind a letter for its kind.
fn put_text(out: &mut Output, kind: u8, bytes: &[u8]) {
    out.put(b' ');
    out.put(kind);
    out.put(b':');
    out.put_hex(bytes);
}

// A mark as it is written; `..` is the mark of its point.
fn put_mark(out: &mut Output, mark: u8) {
    out.put(b' ');
    out.put(mark);
    if mark == b'.' {
        out.put(mark);
    }
}

// The first token from an offset on, and where the text goes on behind it. Where there is none, nothing is left of the text.
fn put_token(text: &[u8], classes: &Classes, at: usize, out: &mut Output) -> usize
    requires { (classes.now ≡ class_table) × (at < length text.now) }
    ensures { at < result }
{
    match (Cursor { at }).next(text, classes) {
        Lexed::Word { start, next } => {
            put_text(out, b'W', &text[start..next.at]);
            next.at
        }
        Lexed::Number { start, next } => {
            put_text(out, b'N', &text[start..next.at]);
            next.at
        }
        Lexed::Mark {
            mark,
            start: _,
            next,
        } => {
            put_mark(out, mark);
            next.at
        }
        Lexed::Bad { start: _ } | Lexed::End => text.len(),
    }
}

fn put_tokens(text: &[u8], classes: &Classes, out: &mut Output)
    requires { classes.now ≡ class_table }
{
    let mut at = 0;
    while at < text.len() {
        at = put_token(text, classes, at, out);
    }
}

pub fn answer_tokens(text: &[u8], out: &mut Output) {
    let classes = tokens::CLASSES;
    match tokens::scan(text, &classes) {
        Some(at) => out.put_refused(2, at),
        None => {
            out.put_all(b"ok");
            put_tokens(text, &classes, out);
        }
    }
}
