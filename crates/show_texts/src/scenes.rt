// What surrounds a place of a text, found by going over its tokens from the start: for messages, where a call tells the place alone. All that
// stands before the place of a fault is in order, so its marks alone say where in a statement the place is.
ghost use Rattle.std.specs.Prelude.{◌≡◌, ◌-◌, length, take, drop};
ghost use Rattle.std.specs.Iterator.{at_most};

use crate::keywords::{self, Keyword};
use show_pages::pages;
use tokens::{Cursor, Token};

// Where in a statement a place is: before its `(`, between its parentheses, in an array there, or behind its `)`.
#[derive(Clone, Copy, PartialEq, Eq)]
pub enum Inside {
    Before,
    Arguments,
    Array,
    Behind,
}

// The statement's keyword from one offset to another; whether a `?` follows it; how many commas of its arguments were passed; where in it the
// place is; and the kind of the token before, `;` at the start.
#[derive(Clone, Copy)]
pub struct Scene {
    pub start: usize,
    pub end: usize,
    pub optional: bool,
    pub commas: usize,
    pub inside: Inside,
    pub before: u8,
}

// The token at an offset or behind the blanks there.
pub fn token_at(text: &[u8], at: usize) -> Token {
    Cursor { at }.token_after_blanks(text, &tokens::CLASSES)
}

// The bytes of a token.
pub fn spelled(text: &[u8], token: Token) -> &[u8]
    ensures { result.now ≡ drop token.start (take token.next.at text.now) }
{
    pages::part(text, token.start, token.next.at)
}

// The tokens of a text from an offset on, up to its end or the first byte that starts none.
#[derive(Drop)]
pub struct Tokens<'a> {
    text: &'a [u8],
    at: usize,
}

pub fn tokens_from(text: &[u8], at: usize) -> Tokens<'_> {
    Tokens { text, at }
}

// The same up to another offset, where a token ends.
pub fn tokens_between(text: &[u8], from: usize, to: usize) -> Tokens<'_> {
    Tokens {
        text: pages::part(text, 0, to),
        at: from,
    }
}

impl Iterator for Tokens<'_> {
    type Item = Token;

    ghost remaining = { λ s. at_most (length s.text.now - s.at) };

    fn next(&mut self) -> Option<Token> {
        if self.text.len() <= self.at {
            return None;
        }
        let token = token_at(self.text, self.at);
        if token.next.at <= self.at {
            return None;
        }
        self.at = token.next.at;
        Some(token)
    }
}

impl Scene {
    // At the start of a statement.
    fn new() -> Scene {
        Scene {
            start: 0,
            end: 0,
            optional: false,
            commas: 0,
            inside: Inside::Before,
            before: b';',
        }
    }

    // Behind a separator, which ends a statement, if there is one.
    fn behind_separator(self) -> Scene {
        if self.inside == Inside::Before {
            self
        } else {
            Scene::new()
        }
    }

    // Behind a word, which before the `(` is the keyword; or behind a mark.
    fn behind_token(self, token: Token) -> Scene {
        let mut next = self;
        next.before = token.kind;
        match token.kind {
            tokens::WORD if self.inside == Inside::Before => {
                next.start = token.start;
                next.end = token.next.at;
            }
            b'?' => next.optional = true,
            b'(' | b']' => next.inside = Inside::Arguments,
            b')' => next.inside = Inside::Behind,
            b'[' => next.inside = Inside::Array,
            b',' if self.inside == Inside::Arguments => {
                next.commas = self.commas.saturating_add(1);
            }
            _ => {}
        }
        next
    }

    // Behind a token.
    fn behind(self, token: Token) -> Scene {
        if token.kind == b';' {
            self.behind_separator()
        } else {
            self.behind_token(token)
        }
    }

    // How many arguments the statement has, at whose `)` this is.
    pub fn arguments(self) -> usize {
        if self.before == b'(' {
            0
        } else {
            self.commas.saturating_add(1)
        }
    }

    // The statement's keyword.
    pub fn keyword(self, text: &[u8]) -> Option<Keyword> {
        keywords::keyword_of(pages::part(text, self.start, self.end))
    }
}

// The scene at a place, which the tokens before it make.
pub fn scene_at(text: &[u8], place: usize) -> Scene {
    let mut scene = Scene::new();
    for token in tokens_from(text, 0) {
        if place <= token.start {
            return scene;
        }
        scene = scene.behind(token);
    }
    scene
}

// The offset of the `)` that ends the statement from an offset on, or of what stands in its way.
pub fn closing_of(text: &[u8], from: usize) -> usize {
    match tokens_from(text, from).find(|token| matches!(token.kind, b')' | b';')) {
        Some(token) => token.start,
        None => text.len(),
    }
}

// A statement: where it starts, and the offset behind its `)`.
#[derive(Clone, Copy)]
pub struct Statement {
    pub start: usize,
    pub end: usize,
}

impl Statement {
    pub fn of(self, text: &[u8]) -> &[u8]
        ensures { result.now ≡ drop self.start (take self.end text.now) }
    {
        pages::part(text, self.start, self.end)
    }
}

// The statements of a text that is in order.
#[derive(Drop)]
pub struct Statements<'a> {
    text: &'a [u8],
    at: usize,
}

pub fn statements_of(text: &[u8]) -> Statements<'_> {
    Statements { text, at: 0 }
}

impl Iterator for Statements<'_> {
    type Item = Statement;

    ghost remaining = { λ s. at_most (length s.text.now - s.at) };

    fn next(&mut self) -> Option<Statement> {
        if self.text.len() <= self.at {
            return None;
        }
        let first = tokens_from(self.text, self.at).find(|token| token.kind != b';')?;
        let end = closing_of(self.text, first.start).saturating_add(1);
        if first.kind == tokens::END || end <= self.at {
            return None;
        }
        self.at = end;
        Some(Statement {
            start: first.start,
            end,
        })
    }
}

// The offset at which the statement at an index starts.
pub fn statement_start(text: &[u8], index: usize) -> Option<usize> {
    let statement = statements_of(text).nth(index)?;
    Some(statement.start)
}

// The keyword of the statement that starts at an offset.
pub fn keyword_at(text: &[u8], start: usize) -> Option<Keyword> {
    keywords::keyword_of(spelled(text, token_at(text, start)))
}

// The offset at which an argument of a statement starts, by the statement's own start and the argument's place from 0. That of none is the text's
// length: no Option, as each caller goes on to read the token there, which is then the text's end.
pub fn argument_start(text: &[u8], start: usize, argument: usize) -> usize {
    let mut scene = Scene::new();
    for token in tokens_from(text, start) {
        if scene.inside == Inside::Arguments && scene.commas == argument {
            return token.start;
        }
        scene = scene.behind(token);
    }
    text.len()
}

// The offset behind the last token of the argument that starts at an offset: if it is an array, that is its `]`.
pub fn argument_end(text: &[u8], from: usize) -> usize {
    let mut scene = Scene::new();
    let mut end = from;
    for token in tokens_from(text, from) {
        if scene.inside != Inside::Array && matches!(token.kind, b',' | b')') {
            return end;
        }
        scene = scene.behind(token);
        end = token.next.at;
    }
    end
}

// The argument of a statement at a place from 0.
pub fn argument(text: &[u8], start: usize, argument: usize) -> &[u8] {
    let from = argument_start(text, start, argument);
    pages::part(text, from, argument_end(text, from))
}
