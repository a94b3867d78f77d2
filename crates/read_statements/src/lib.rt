// The next statement of a text.
#![tactic(auto)]

ghost use Rattle.std.specs.Prelude.{◌≡◌, ℕ, suc, ◌≤◌, ◌<◌, length};
ghost use Rattle.text.specs.Bytes.{bytes};
ghost use Rattle.tokens.specs.Token.{word};
ghost use Rattle.tokens.specs.Class.{class_table};
ghost use Rattle.tokens.specs.Next.{token_at};
ghost use Rattle.labels.specs.Word.{same_word};
ghost use Rattle.labels.specs.Table.{label_table, keyword_table};
ghost use Rattle.reading.specs.Argument.{items_of};
ghost use Rattle.reading.specs.Feature.{build_feature};
ghost use Rattle.reading.specs.Syntax.{feature_made, let_made, opened};
ghost use Rattle.reading.specs.Read.{between};
ghost use Rattle.reading.specs.One.{whole};
ghost use Rattle.read_forms.specs.Items.{name_in, tokens_from};
ghost use Rattle.read_forms.specs.Forms.{arg_in, args_in, statement_in};
ghost use Rattle.read_forms.specs.Fits.{InText, Fits, AllFit};
ghost use Rattle.read_arguments.specs.Answers.{step_in};
ghost use Rattle.read_statements.specs.Answers.{one_before, NextFrom, FirstToken, EndedThen, EndedFurther, crowded_by, reading_at, next_then, NextFurther, FirstFault};

use labels::{Keywords, Labels};
use read_forms::{Arg, Args, Fault, Name, Refusal, Statement};
use read_syntax::Head;
use tokens::{Classes, Cursor, Token};

// A statement with the cursor behind it.
#[derive(Clone, Copy)]
pub struct Next {
    pub statement: Statement,
    pub cursor: Cursor,
}

// Whether a keyword is LET, ignoring case.
fn is_let(text: &[u8], name: Name) -> bool
    requires { InText text.now name }
    ensures { result ≡ same_word (name_in text.now name).spelling (bytes "LET") }
{
    labels::same_word(read_forms::spelling(text, name), b"LET")
}

// The first token, from the cursor on, that is no separator. Blanks and comments stand here more often than anywhere else.
fn first_token(text: &[u8], classes: &Classes, cur: Cursor) -> Token
    requires { classes.now ≡ class_table }
    ensures { FirstToken text.now cur.at result }
{
    let mut from = cur;
    loop {
        let token = from.token_after_blanks(text, classes);
        if token.kind != b';' {
            return token;
        }
        from = token.next;
    }
}

// The cursor behind what stands behind the statement that is the `n`th: a separator, or the text's end. It is passed, with the blanks and the
// comment before it, so that the next statement is not sought through them again.
fn behind(text: &[u8], classes: &Classes, cur: Cursor, n: usize) -> Result<Cursor, Refusal>
    requires { classes.now ≡ class_table }
    ensures by_index { (limit : ℕ) → EndedThen limit text.now n cur.at result }
    ensures ended_further { EndedFurther text.now cur.at result }
{
    let token = cur.token(text, classes);
    let next = token.next;
    if token.kind == b';' || token.kind == tokens::END {
        return Ok(next);
    }
    Err(crowded(token, n))
}

// A token that is not allowed between statements: after 256 of them it is refused by 11.
fn crowded(token: Token, n: usize) -> Refusal
    ensures { result ≡ crowded_by token n }
{
    if token.kind == tokens::BAD {
        return Refusal {
            fault: Fault::BadByte,
            place: token.start,
        };
    }
    if 256 <= n {
        return Refusal {
            fault: Fault::TooMany,
            place: token.start,
        };
    }
    Refusal {
        fault: Fault::Unexpected,
        place: token.start,
    }
}

// A statement that is read to its `)`, where `n` were read before it: with what may stand behind it, it is the next one.
fn completed(
    text: &[u8],
    classes: &Classes,
    form: Statement,
    cur: Cursor,
    n: usize,
) -> Result<Option<Next>, Refusal>
    requires { (classes.now ≡ class_table) × (n < 256) × (cur.at ≤ length text.now) }
    ensures by_index { (limit : ℕ)
        → one_before limit (length text.now) n (whole (statement_in text.now form) (tokens_from text.now cur.at))
        ≡ next_then limit text.now n result }
    ensures next_from { NextFrom text.now cur.at result }
{
    let cursor = behind(text, classes, cur, n + 1)?;
    Ok(Some(Next {
        statement: form,
        cursor,
    }))
}

// A LET that is read to its `)`.
fn let_statement(
    text: &[u8],
    classes: &Classes,
    name: Name,
    arg: Arg,
    cur: Cursor,
    n: usize,
) -> Result<Option<Next>, Refusal>
    requires { (classes.now ≡ class_table) × Fits text.now arg × (n < 256) × (cur.at ≤ length text.now) }
    ensures by_index { (limit : ℕ)
        → one_before limit (length text.now) n
        (step_in limit text.now (let_made (name_in text.now name) (items_of (arg_in text.now arg))) cur.at)
        ≡ next_then limit text.now n result }
    ensures next_from { NextFrom text.now cur.at result }
{
    let values = read_checks::items_of(arg)?;
    completed(text, classes, Statement::Let { name, values }, cur, n)
}

// A feature's statement that is read to its `)`.
fn feature_statement(
    text: &[u8],
    classes: &Classes,
    labels: &Labels,
    keys: &Keywords,
    name: Name,
    optional: bool,
    args: Args,
    cur: Cursor,
    n: usize,
    limit: u32,
) -> Result<Option<Next>, Refusal>
    requires classes_value { (classes.now ≡ class_table) × (labels.now ≡ label_table) × (keys.now ≡ keyword_table) }
    requires in_text { InText text.now name × AllFit text.now args × (n < 256) × (cur.at ≤ length text.now) }
    ensures at_value { one_before limit (length text.now) n
        (step_in limit text.now
        (feature_made (build_feature limit (name_in text.now name) optional (args_in text.now args))) cur.at)
        ≡ next_then limit text.now n result }
    ensures next_from { NextFrom text.now cur.at result }
{
    let feature = read_features::build(text, classes, labels, keys, name, args, optional, limit)?;
    completed(text, classes, Statement::Feature(feature), cur, n)
}

// A statement behind its first word, where `n` were read before.
fn statement(
    text: &[u8],
    classes: &Classes,
    labels: &Labels,
    keys: &Keywords,
    name: Name,
    cur: Cursor,
    n: usize,
    limit: u32,
) -> Result<Option<Next>, Refusal>
    requires { (classes.now ≡ class_table) × (labels.now ≡ label_table) × (keys.now ≡ keyword_table) × InText text.now name × (n < 256) }
    ensures at_value { one_before limit (length text.now) n
        (step_in limit text.now (opened name.offset (word (name_in text.now name).spelling)) cur.at)
        ≡ next_then limit text.now n result }
    ensures next_from { NextFrom text.now (suc cur.at) result }
{
    let call = read_syntax::read_call(text, classes, cur, is_let(text, name), limit)?;
    match call.head {
        Head::Feature(optional) => feature_statement(
            text, classes, labels, keys, name, optional, call.args, call.next, n, limit,
        ),
        Head::Let(named) => let_statement(text, classes, named, call.args.first, call.next, n),
    }
}

// The next statement, where `n` were read before; none at the text's end.
pub fn next_statement(
    text: &[u8],
    classes: &Classes,
    labels: &Labels,
    keys: &Keywords,
    cur: Cursor,
    n: usize,
    limit: u32,
) -> Result<Option<Next>, Refusal>
    requires { (classes.now ≡ class_table) × (labels.now ≡ label_table) × (keys.now ≡ keyword_table) × (n ≤ cur.at) }
    ensures at_value { reading_at limit text.now n between cur.at ≡ next_then limit text.now n result }
    ensures next_further { NextFurther text.now n cur.at result }
{
    let token = first_token(text, classes, cur);
    if token.kind == tokens::END {
        return Ok(None);
    }
    if 256 <= n || token.kind != tokens::WORD {
        return Err(crowded(token, n));
    }
    let name = read_arguments::named(token);
    statement(text, classes, labels, keys, name, token.next, n, limit)
}

// The refusal of a text whose statements were refused: a byte that starts no token comes before every other fault but the length.
pub fn earliest(text: &[u8], classes: &Classes, refusal: Refusal) -> Refusal
    requires { classes.now ≡ class_table }
    ensures { FirstFault text.now refusal result }
{
    match tokens::scan(text, classes) {
        Some(at) => Refusal {
            fault: Fault::BadByte,
            place: at,
        },
        None => refusal,
    }
}
