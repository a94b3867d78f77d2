// The tokens of a text: a cursor that answers the next token, and a scan for the first byte that starts none.
#![tactic(auto)]

ghost use Rattle.std.specs.Prelude.{◌≡◌, ◌+◌, ◌≤◌, ◌<◌, length, drop, get_or};
ghost use Rattle.text.specs.Bytes.{span};
ghost use Rattle.tokens.specs.Class.{class_table, class_between, class_number, number, hyphen, letter};
ghost use Rattle.tokens.specs.Lex.{tokens_at, tokens, number_rest};
ghost use Rattle.tokens.specs.Next.{cursor, first, token_at, scanned, Passed, PointAt, ScansOn, Skippable, Skipped};

// The classes of bytes: separators, marks, what is skipped, what starts no token, and what words and numbers are made of, each side by side.
pub const NEWLINE: u8 = 0;

pub const SEMICOLON: u8 = 1;

pub const MARK: u8 = 2;

pub const DOT: u8 = 3;

pub const BLANK: u8 = 4;

pub const HASH: u8 = 5;

pub const OTHER: u8 = 6;

pub const HYPHEN: u8 = 7;

pub const DIGIT: u8 = 8;

pub const LETTER: u8 = 9;

// A class for each byte.
pub type Classes = [u8; 256];

// The class of each byte, sixteen bytes a row. A call that reads a text makes this table a local once and lends it to every function below.
pub const CLASSES: Classes = *b"\
    \x06\x06\x06\x06\x06\x06\x06\x06\x06\x04\x00\x06\x06\x04\x06\x06\
    \x06\x06\x06\x06\x06\x06\x06\x06\x06\x06\x06\x06\x06\x06\x06\x06\
    \x04\x06\x06\x05\x06\x06\x06\x06\x02\x02\x02\x02\x02\x07\x03\x06\
    \x08\x08\x08\x08\x08\x08\x08\x08\x08\x08\x06\x01\x06\x06\x06\x02\
    \x02\x09\x09\x09\x09\x09\x09\x09\x09\x09\x09\x09\x09\x09\x09\x09\
    \x09\x09\x09\x09\x09\x09\x09\x09\x09\x09\x09\x02\x06\x02\x06\x09\
    \x06\x09\x09\x09\x09\x09\x09\x09\x09\x09\x09\x09\x09\x09\x09\x09\
    \x09\x09\x09\x09\x09\x09\x09\x09\x09\x09\x09\x06\x06\x06\x06\x06\
    \x06\x06\x06\x06\x06\x06\x06\x06\x06\x06\x06\x06\x06\x06\x06\x06\
    \x06\x06\x06\x06\x06\x06\x06\x06\x06\x06\x06\x06\x06\x06\x06\x06\
    \x06\x06\x06\x06\x06\x06\x06\x06\x06\x06\x06\x06\x06\x06\x06\x06\
    \x06\x06\x06\x06\x06\x06\x06\x06\x06\x06\x06\x06\x06\x06\x06\x06\
    \x06\x06\x06\x06\x06\x06\x06\x06\x06\x06\x06\x06\x06\x06\x06\x06\
    \x06\x06\x06\x06\x06\x06\x06\x06\x06\x06\x06\x06\x06\x06\x06\x06\
    \x06\x06\x06\x06\x06\x06\x06\x06\x06\x06\x06\x06\x06\x06\x06\x06\
    \x06\x06\x06\x06\x06\x06\x06\x06\x06\x06\x06\x06\x06\x06\x06\x06\
";

// Where reading goes on: the offset of a byte, or the text's length.
#[derive(Clone, Copy)]
pub struct Cursor {
    pub at: usize,
}

// A token with its first byte's offset and the cursor after it; a byte that starts no token; or the text's end.
#[derive(Clone, Copy)]
pub enum Lexed {
    Word {
        start: usize,
        next: Cursor,
    },
    Number {
        start: usize,
        next: Cursor,
    },
    Mark {
        mark: u8,
        start: usize,
        next: Cursor,
    },
    Bad {
        start: usize,
    },
    End,
}

// The kinds of tokens that are no marks: a word, a number, a byte that starts none, and the text's end. All marks are above these.
pub const WORD: u8 = 0;

pub const NUMBER: u8 = 1;

pub const BAD: u8 = 2;

pub const END: u8 = 3;

// A token by its kind; a mark is of its own byte's kind. The text's end stands at its length. Readers that ask for one mark or another match
// on the kind.
#[derive(Clone, Copy)]
pub struct Token {
    pub kind: u8,
    pub start: usize,
    pub next: Cursor,
}

// The class of the byte at an offset.
fn class_at(text: &[u8], classes: &Classes, at: usize) -> u8
    requires { (classes.now ≡ class_table) × (at < length text.now) }
    ensures { result ≡ class_number (get_or text.now at 0) }
{
    classes[text[at] as usize]
}

// The offset of the first byte, from `at` on, whose class does not lie between `lo` and `hi`.
fn run_end(text: &[u8], classes: &Classes, at: usize, lo: u8, hi: u8) -> usize
    requires { (classes.now ≡ class_table) × (at ≤ length text.now) }
    ensures { result ≡ at + span (class_between lo hi) (drop at text.now) }
{
    for i in at..text.len() {
        let class = class_at(text, classes, i);
        if class < lo || hi < class {
            return i;
        }
    }
    text.len()
}

// The offset after a word whose first letter stands just before `at`: hyphens, digits and letters are the last classes.
fn word_end(text: &[u8], classes: &Classes, at: usize) -> usize
    requires { (classes.now ≡ class_table) × (at ≤ length text.now) }
    ensures { result ≡ at + span (class_between (number hyphen) (number letter)) (drop at text.now) }
{
    for i in at..text.len() {
        if class_at(text, classes, i) < HYPHEN {
            return i;
        }
    }
    text.len()
}

// The offset after a number whose first digit stands just before `at`.
fn number_end(text: &[u8], classes: &Classes, at: usize) -> usize
    requires { (classes.now ≡ class_table) × (at ≤ length text.now) }
    ensures { result ≡ at + number_rest (drop at text.now) }
{
    let point = run_end(text, classes, at, DIGIT, DIGIT);
    if text.len() - point < 2 {
        return point;
    }
    if class_at(text, classes, point) != DOT {
        return point;
    }
    if class_at(text, classes, point + 1) != DIGIT {
        return point;
    }
    run_end(text, classes, point + 2, DIGIT, DIGIT)
}

// The offset after a blank or a comment at `at`, whose class is known.
fn passed(text: &[u8], classes: &Classes, at: usize, class: u8) -> usize
    requires { (classes.now ≡ class_table) × Skippable text.now at class }
    ensures { Passed text.now at result }
{
    if class == BLANK {
        return at + 1;
    }
    run_end(text, classes, at + 1, SEMICOLON, LETTER)
}

// The offset of the first byte, from `at` on, that is no blank and stands in no comment.
fn skip(text: &[u8], classes: &Classes, at: usize) -> usize
    requires { classes.now ≡ class_table }
    ensures { Skipped text.now at result }
{
    let mut i = at;
    while i < text.len() {
        let class = class_at(text, classes, i);
        if class < BLANK || HASH < class {
            return i;
        }
        i = passed(text, classes, i, class);
    }
    i
}

// `..` at a point, or a point that starts no token.
fn dots(text: &[u8], classes: &Classes, start: usize) -> Lexed
    requires { (classes.now ≡ class_table) × PointAt text.now start }
    ensures { result ≡ first (tokens_at start (drop start text.now)) }
{
    if text.len() - start < 2 {
        return Lexed::Bad { start };
    }
    if class_at(text, classes, start + 1) == DOT {
        return Lexed::Mark {
            mark: b'.',
            start,
            next: Cursor { at: start + 2 },
        };
    }
    Lexed::Bad { start }
}

impl Cursor {
    // The start of a text.
    pub fn new() -> Cursor
        ensures { result ≡ cursor 0 }
    {
        Cursor { at: 0 }
    }

    // The token at the cursor or after it, with the cursor past it.
    pub fn next(self, text: &[u8], classes: &Classes) -> Lexed
        requires { classes.now ≡ class_table }
        ensures { result ≡ first (tokens_at self.at (drop self.at text.now)) }
    {
        let start = skip(text, classes, self.at);
        if text.len() <= start {
            return Lexed::End;
        }
        let byte = text[start];
        let class = class_at(text, classes, start);
        let after = start + 1;
        match class {
            NEWLINE..=SEMICOLON => Lexed::Mark {
                mark: b';',
                start,
                next: Cursor { at: after },
            },
            MARK => Lexed::Mark {
                mark: byte,
                start,
                next: Cursor { at: after },
            },
            DOT => dots(text, classes, start),
            DIGIT => {
                let at = number_end(text, classes, after);
                Lexed::Number {
                    start,
                    next: Cursor { at },
                }
            }
            LETTER => {
                let at = word_end(text, classes, after);
                Lexed::Word {
                    start,
                    next: Cursor { at },
                }
            }
            _ => Lexed::Bad { start },
        }
    }
}

impl Cursor {
    // The token at the cursor, or after the blanks and comments there.
    pub fn token_after_blanks(self, text: &[u8], classes: &Classes) -> Token
        requires { classes.now ≡ class_table }
        ensures { result ≡ token_at text.now self.at }
    {
        match self.next(text, classes) {
            Lexed::Word { start, next } => Token {
                kind: WORD,
                start,
                next,
            },
            Lexed::Number { start, next } => Token {
                kind: NUMBER,
                start,
                next,
            },
            Lexed::Mark { mark, start, next } => Token {
                kind: mark,
                start,
                next,
            },
            Lexed::Bad { start } => Token {
                kind: BAD,
                start,
                next: Cursor { at: start },
            },
            Lexed::End => Token {
                kind: END,
                start: text.len(),
                next: Cursor { at: text.len() },
            },
        }
    }

    // The same, decided by the class of the byte at the cursor: separators, marks and words that stand there, and the text's end, are answered
    // at once, all else the long way.
    pub fn token(self, text: &[u8], classes: &Classes) -> Token
        requires { classes.now ≡ class_table }
        ensures { result ≡ token_at text.now self.at }
    {
        let at = self.at;
        if text.len() <= at {
            return Token {
                kind: END,
                start: text.len(),
                next: Cursor { at: text.len() },
            };
        }
        let class = class_at(text, classes, at);
        match class {
            NEWLINE..=SEMICOLON => Token {
                kind: b';',
                start: at,
                next: Cursor { at: at + 1 },
            },
            MARK => Token {
                kind: text[at],
                start: at,
                next: Cursor { at: at + 1 },
            },
            LETTER => {
                let end = word_end(text, classes, at + 1);
                Token {
                    kind: WORD,
                    start: at,
                    next: Cursor { at: end },
                }
            }
            _ => self.token_after_blanks(text, classes),
        }
    }
}

// The offset after a blank, a comment, a mark, a separator or a word at `at`; `at` itself where something else stands, or the text's end.
fn plain_end(text: &[u8], classes: &Classes, at: usize) -> usize
    requires { classes.now ≡ class_table }
    ensures { ScansOn text.now at result }
{
    if text.len() <= at {
        return at;
    }
    let class = class_at(text, classes, at);
    match class {
        NEWLINE..=MARK => at + 1,
        BLANK..=HASH => passed(text, classes, at, class),
        LETTER => word_end(text, classes, at + 1),
        _ => at,
    }
}

// The offset of the first byte that starts no token, or none: each byte of the text stands in a token, a blank or a comment. Most of a text is
// blanks, marks, separators and words, which are passed without a token being made of them.
pub fn scan(text: &[u8], classes: &Classes) -> Option<usize>
    requires { classes.now ≡ class_table }
    ensures { result ≡ scanned (tokens text.now) }
{
    let mut at = 0;
    loop {
        let end = plain_end(text, classes, at);
        if at < end {
            at = end;
        } else {
            let c = Cursor { at };
            let token = c.token_after_blanks(text, classes);
            if token.kind == BAD {
                return Some(token.start);
            }
            if token.kind == END {
                return None;
            }
            at = token.next.at;
        }
    }
}

// The scan of a text alone, which makes the table itself.
pub fn scan_text(text: &[u8]) -> Option<usize>
    ensures { result ≡ scanned (tokens text.now) }
{
    let classes = CLASSES;
    scan(text, &classes)
}
