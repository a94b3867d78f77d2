// A statement behind its keyword, read to its `)`: a feature's arguments, or a LET's name and argument.
#![tactic(auto)]

ghost use Rattle.std.specs.Prelude.{◌≡◌, cond, [], ℕ};
ghost use Rattle.tokens.specs.Class.{class_table};
ghost use Rattle.reading.specs.Statement.{Name as Name·spec};
ghost use Rattle.reading.specs.Syntax.{keyword, let_keyword, let_open};
ghost use Rattle.reading.specs.Syntax.{argument as argument·state};
ghost use Rattle.read_arguments.specs.Answers.{read_in};
ghost use Rattle.read_syntax.specs.Answers.{call_of, takes_one, misplaced, opened_then, OpenedFurther, call_then, CallFurther};

use read_arguments::{After, ArgRead};
use read_forms::{Arg, Args, Fault, Name, Refusal};
use tokens::{Classes, Cursor};

// What arguments belong to: a feature, with whether a `?` stands behind its keyword, or a LET with its name.
#[derive(Clone, Copy)]
pub enum Head {
    Feature(bool),
    Let(Name),
}

// What stands between a statement's keyword and its arguments: `(`, or `?` and `(`, of a feature; `(`, a name and `,` of a LET. The cursor stands
// behind it.
#[derive(Clone, Copy)]
struct Opened {
    head: Head,
    next: Cursor,
}

// The rest of a statement behind its keyword, with the cursor behind its `)`.
#[derive(Clone, Copy)]
pub struct CallRead {
    pub head: Head,
    pub args: Args,
    pub next: Cursor,
}

// A LET has one argument; a feature may have any number.
fn takes_one(head: Head) -> bool
    ensures { result ≡ takes_one head }
{
    match head {
        Head::Feature(_) => false,
        Head::Let(_) => true,
    }
}

// A `,` or a `)` that may not stand where it does.
fn misplaced_at(at: usize) -> Refusal
    ensures { result ≡ misplaced at }
{
    Refusal {
        fault: Fault::Unexpected,
        place: at,
    }
}

// The arguments, up to the `)`: they stand apart until then, so that none is copied for the next; past the fourth only their number is kept.
fn read_args(
    text: &[u8],
    classes: &Classes,
    cur: Cursor,
    head: Head,
    limit: u32,
) -> Result<CallRead, Refusal>
    requires { classes.now ≡ class_table }
    ensures at_value { (k : Name·spec)
        → read_in limit text.now (argument·state (call_of text.now k head [])) cur.at ≡ call_then limit text.now k result }
    ensures call_further { CallFurther text.now cur.at result }
{
    let one = takes_one(head);
    let mut count = 0;
    let mut first = Arg::Star(0);
    let mut second = Arg::Star(0);
    let mut third = Arg::Star(0);
    let mut fourth = Arg::Star(0);
    let mut from = cur;
    loop {
        match read_arguments::argument(text, classes, from, limit)? {
            ArgRead::Arg(arg, end) => {
                match count {
                    0 => first = arg,
                    1 => second = arg,
                    2 => third = arg,
                    3 => fourth = arg,
                    _ => {}
                }
                count += 1;
                match read_arguments::after_argument(text, classes, end)? {
                    After::Comma { at: o, next } => {
                        if one {
                            return Err(misplaced_at(o));
                        }
                        from = next;
                    }
                    After::Close(next) => {
                        let args = Args {
                            count,
                            first,
                            second,
                            third,
                            fourth,
                        };
                        return Ok(CallRead { head, args, next });
                    }
                }
            }
            ArgRead::Close { at: o, next } => {
                if one || count != 0 {
                    return Err(misplaced_at(o));
                }
                let args = Args {
                    count,
                    first,
                    second,
                    third,
                    fourth,
                };
                return Ok(CallRead { head, args, next });
            }
        }
    }
}

// A feature's statement behind its keyword, up to its first argument.
fn open_feature(text: &[u8], classes: &Classes, cur: Cursor) -> Result<Opened, Refusal>
    requires { classes.now ≡ class_table }
    ensures by_index { (limit : ℕ) (k : Name·spec)
        → read_in limit text.now (keyword k) cur.at ≡ opened_then limit text.now k result }
    ensures opened_further { OpenedFurther text.now cur.at result }
{
    let token = cur.token(text, classes);
    let next = token.next;
    if token.kind == b'(' {
        return Ok(Opened {
            head: Head::Feature(false),
            next,
        });
    }
    if token.kind != b'?' {
        return Err(read_arguments::unexpected(token));
    }
    let second = next.token(text, classes);
    let after = second.next;
    if second.kind != b'(' {
        return Err(read_arguments::unexpected(second));
    }
    Ok(Opened {
        head: Head::Feature(true),
        next: after,
    })
}

// A LET behind its keyword and its `(`: its name, and a `,`.
fn let_name(text: &[u8], classes: &Classes, cur: Cursor) -> Result<Opened, Refusal>
    requires { classes.now ≡ class_table }
    ensures by_index { (limit : ℕ) (k : Name·spec)
        → read_in limit text.now let_open cur.at ≡ opened_then limit text.now k result }
    ensures opened_further { OpenedFurther text.now cur.at result }
{
    let token = cur.token(text, classes);
    let next = token.next;
    if token.kind != tokens::WORD {
        return Err(read_arguments::unexpected(token));
    }
    let comma = next.token(text, classes);
    let after = comma.next;
    if comma.kind != b',' {
        return Err(read_arguments::unexpected(comma));
    }
    let name = read_arguments::named(token);
    Ok(Opened {
        head: Head::Let(name),
        next: after,
    })
}

// A LET behind its keyword, up to its argument.
fn open_let(text: &[u8], classes: &Classes, cur: Cursor) -> Result<Opened, Refusal>
    requires { classes.now ≡ class_table }
    ensures by_index { (limit : ℕ) (k : Name·spec)
        → read_in limit text.now let_keyword cur.at ≡ opened_then limit text.now k result }
    ensures opened_further { OpenedFurther text.now cur.at result }
{
    let token = cur.token(text, classes);
    let next = token.next;
    if token.kind != b'(' {
        return Err(read_arguments::unexpected(token));
    }
    let_name(text, classes, next)
}

// A statement behind its keyword, up to its first argument.
fn open_call(text: &[u8], classes: &Classes, cur: Cursor, is_let: bool) -> Result<Opened, Refusal>
    requires { classes.now ≡ class_table }
    ensures by_index { (limit : ℕ) (k : Name·spec)
        → read_in limit text.now (cond is_let let_keyword (keyword k)) cur.at ≡ opened_then limit text.now k result }
    ensures opened_further { OpenedFurther text.now cur.at result }
{
    if is_let {
        return open_let(text, classes, cur);
    }
    open_feature(text, classes, cur)
}

// A statement behind its keyword. The arguments of LETs and features are read at this one place, so the compiler inlines their loop, and the
// reading of an argument into that.
pub fn read_call(
    text: &[u8],
    classes: &Classes,
    cur: Cursor,
    is_let: bool,
    limit: u32,
) -> Result<CallRead, Refusal>
    requires { classes.now ≡ class_table }
    ensures at_value { (k : Name·spec)
        → read_in limit text.now (cond is_let let_keyword (keyword k)) cur.at ≡ call_then limit text.now k result }
    ensures call_further { CallFurther text.now cur.at result }
{
    let opened = open_call(text, classes, cur, is_let)?;
    read_args(text, classes, opened.next, opened.head, limit)
}
