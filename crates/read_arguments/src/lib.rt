// The arguments of a statement, read to its `)`. Each function's answer says how the reading of the statement goes on.
#![tactic(auto)]

ghost use Rattle.std.specs.Prelude.{◌≡◌, List, ◌++◌, ℕ, ◌≤◌, length};
ghost use Rattle.tokens.specs.Class.{class_table};
ghost use Rattle.reading.specs.Statement.{Item, a_number};
ghost use Rattle.reading.specs.Argument.{range_of};
ghost use Rattle.reading.specs.Argument.{Arg as Arg·spec};
ghost use Rattle.reading.specs.Syntax.{Call, at_sign, number_read, array_open, item_read, argument_read, range_read};
ghost use Rattle.reading.specs.Syntax.{argument as argument·state, item as item·state};
ghost use Rattle.read_forms.specs.Items.{tokens_from, name_in, entries, after_entries, rest};
ghost use Rattle.read_forms.specs.Fits.{InText, Stands};
ghost use Rattle.read_arguments.specs.Answers.{read_in, step_in, refusal_of, name_of, arg_then, ArgFurther, entry_then, EntryFurther, EntryListed, after_then, AfterFurther};

use read_forms::{Arg, Fault, Items, Name, Refusal};
use tokens::{Classes, Cursor, Token};

// An argument with the cursor after it, or a `)` where one would start.
#[derive(Clone, Copy)]
pub enum ArgRead {
    Arg(Arg, Cursor),
    Close { at: usize, next: Cursor },
}

// What stands behind an entry of an array: a `,`, or the array's `]`.
#[derive(Clone, Copy)]
pub enum Entry {
    More(Cursor),
    Done(Cursor),
}

// What stands behind an argument: a `,`, with its offset, or the `)`.
#[derive(Clone, Copy)]
pub enum After {
    Comma { at: usize, next: Cursor },
    Close(Cursor),
}

// A token that is not allowed: a byte that starts none is one fault, and any other, the text's end too, another.
pub fn unexpected(token: Token) -> Refusal
    ensures { result ≡ refusal_of token }
{
    if token.kind == tokens::BAD {
        return Refusal {
            fault: Fault::BadByte,
            place: token.start,
        };
    }
    Refusal {
        fault: Fault::Unexpected,
        place: token.start,
    }
}

// A word or a number as a name.
pub fn named(token: Token) -> Name
    requires { token.start ≤ token.next.at }
    ensures { result ≡ name_of token }
{
    Name {
        offset: token.start,
        length: token.next.at - token.start,
    }
}

// The name behind an `@` that stands at `sign`.
fn symbol(text: &[u8], classes: &Classes, sign: usize, cur: Cursor) -> Result<ArgRead, Refusal>
    requires { classes.now ≡ class_table }
    ensures by_index { (limit : ℕ) (c : Call) → read_in limit text.now (at_sign c sign) cur.at ≡ arg_then limit text.now c result }
    ensures arg_further { ArgFurther text.now cur.at result }
{
    let token = cur.token(text, classes);
    let next = token.next;
    if token.kind != tokens::WORD {
        return Err(unexpected(token));
    }
    let name = named(token);
    Ok(ArgRead::Arg(Arg::Symbol { at: sign, name }, next))
}

// The two ends of a range: each a count, the left one judged first, and not backwards.
fn range_of(
    text: &[u8],
    low: Name,
    high: Name,
    limit: u32,
    next: Cursor,
) -> Result<ArgRead, Refusal>
    requires { InText text.now low × InText text.now high × (next.at ≤ length text.now) }
    ensures at_value { (c : Call)
        → step_in limit text.now (range_read c (range_of limit (name_in text.now low) (name_in text.now high))) next.at
        ≡ arg_then limit text.now c result }
    ensures arg_further { ArgFurther text.now next.at result }
{
    let a = read_forms::judge_count(text, low, limit)?;
    let b = read_forms::judge_count(text, high, limit)?;
    if b < a {
        return Err(Refusal {
            fault: Fault::Backwards,
            place: low.offset,
        });
    }
    let range = Arg::Range {
        at: low.offset,
        low: a,
        high: b,
    };
    Ok(ArgRead::Arg(range, next))
}

// A number, which a `..` and another may follow.
fn number(
    text: &[u8],
    classes: &Classes,
    name: Name,
    cur: Cursor,
    limit: u32,
) -> Result<ArgRead, Refusal>
    requires { (classes.now ≡ class_table) × Stands text.now a_number name × (cur.at ≤ length text.now) }
    ensures at_value { (c : Call) → read_in limit text.now (number_read c (name_in text.now name)) cur.at ≡ arg_then limit text.now c result }
    ensures arg_further { ArgFurther text.now cur.at result }
{
    let token = cur.token(text, classes);
    let next = token.next;
    if token.kind != b'.' {
        return Ok(ArgRead::Arg(Arg::Number(name), cur));
    }
    let end = next.token(text, classes);
    if end.kind != tokens::NUMBER {
        return Err(unexpected(end));
    }
    let high = named(end);
    let after = end.next;
    range_of(text, name, high, limit, after)
}

// What stands behind an entry of an array.
fn after_entry(text: &[u8], classes: &Classes, cur: Cursor) -> Result<Entry, Refusal>
    requires { classes.now ≡ class_table }
    ensures by_index { (limit : ℕ) (c : Call) (p : ℕ) (items : List Item)
        → read_in limit text.now (item_read c p items) cur.at ≡ entry_then limit text.now c p items result }
    ensures entry_further { EntryFurther text.now cur.at (rest (tokens_from text.now cur.at)) result }
{
    let token = cur.token(text, classes);
    let next = token.next;
    if token.kind == b',' {
        return Ok(Entry::More(next));
    }
    if token.kind == b']' {
        return Ok(Entry::Done(next));
    }
    Err(unexpected(token))
}

// An entry of an array that has `count` before it, and what stands behind it.
fn read_entry(text: &[u8], classes: &Classes, cur: Cursor, count: usize) -> Result<Entry, Refusal>
    requires { classes.now ≡ class_table }
    ensures by_index { (limit : ℕ) (c : Call) (p : ℕ) (items : List Item)
        → length items ≡ count
        → read_in limit text.now (item·state c p items) cur.at
        ≡ entry_then limit text.now c p (items ++ entries 1 (tokens_from text.now cur.at)) result }
    ensures entry_further { EntryFurther text.now cur.at (after_entries 1 (tokens_from text.now cur.at)) result }
    ensures entry_listed { EntryListed text.now cur.at count result }
{
    let token = cur.token(text, classes);
    let next = token.next;
    if tokens::NUMBER < token.kind {
        return Err(unexpected(token));
    }
    if 64 <= count {
        return Err(Refusal {
            fault: Fault::TooMany,
            place: token.start,
        });
    }
    after_entry(text, classes, next)
}

// An array whose `[` stands at `bracket`.
fn array(text: &[u8], classes: &Classes, bracket: usize, cur: Cursor) -> Result<ArgRead, Refusal>
    requires { classes.now ≡ class_table }
    ensures by_index { (limit : ℕ) (c : Call) → read_in limit text.now (array_open c bracket) cur.at ≡ arg_then limit text.now c result }
    ensures arg_further { ArgFurther text.now cur.at result }
{
    let token = cur.token(text, classes);
    let next = token.next;
    if token.kind == b']' {
        let items = Items {
            first: cur,
            count: 0,
        };
        return Ok(ArgRead::Arg(Arg::Array { at: bracket, items }, next));
    }
    let mut n = 0;
    let mut from = cur;
    loop {
        match read_entry(text, classes, from, n)? {
            Entry::More(c) => {
                from = c;
                n += 1;
            }
            Entry::Done(c) => {
                let items = Items {
                    first: cur,
                    count: n + 1,
                };
                return Ok(ArgRead::Arg(Arg::Array { at: bracket, items }, c));
            }
        }
    }
}

// One argument.
pub fn argument(text: &[u8], classes: &Classes, cur: Cursor, limit: u32) -> Result<ArgRead, Refusal>
    requires { classes.now ≡ class_table }
    ensures at_value { (c : Call) → read_in limit text.now (argument·state c) cur.at ≡ arg_then limit text.now c result }
    ensures arg_further { ArgFurther text.now cur.at result }
{
    let token = cur.token(text, classes);
    let next = token.next;
    let kind = token.kind;
    match kind {
        tokens::WORD => {
            let name = named(token);
            Ok(ArgRead::Arg(Arg::Word(name), next))
        }
        tokens::NUMBER => {
            let name = named(token);
            number(text, classes, name, next, limit)
        }
        b'*' => Ok(ArgRead::Arg(Arg::Star(token.start), next)),
        b'+' => Ok(ArgRead::Arg(Arg::Plus(token.start), next)),
        b'@' => symbol(text, classes, token.start, next),
        b'[' => array(text, classes, token.start, next),
        b')' => Ok(ArgRead::Close {
            at: token.start,
            next,
        }),
        _ => Err(unexpected(token)),
    }
}

// What stands behind an argument.
pub fn after_argument(text: &[u8], classes: &Classes, cur: Cursor) -> Result<After, Refusal>
    requires { classes.now ≡ class_table }
    ensures by_index { (limit : ℕ) (c : Call) (a : Arg·spec)
        → read_in limit text.now (argument_read c a) cur.at ≡ after_then limit text.now c a result }
    ensures after_further { AfterFurther text.now cur.at result }
{
    let token = cur.token(text, classes);
    let next = token.next;
    if token.kind == b',' {
        return Ok(After::Comma {
            at: token.start,
            next,
        });
    }
    if token.kind == b')' {
        return Ok(After::Close(next));
    }
    Err(unexpected(token))
}
