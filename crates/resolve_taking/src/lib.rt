// What the statements of a text bring: read, looked through for LETs and taken in one function, since an array of statements cannot be lent, and to
// hand it on by value costs more than all else on a short text. The first statements are kept as they are read; any further ones are read again.
#![tactic(auto)]

ghost use Rattle.std.specs.Prelude.{◌≡◌, ◌≤◌, ◌<◌, length};
ghost use Rattle.tokens.specs.Class.{class_table};
ghost use Rattle.labels.specs.Table.{label_table, keyword_table};
ghost use Rattle.reading_laws.specs.Admitted.{Admitted};
ghost use Rattle.resolve_taking.specs.Taken.{TakenAs};
ghost use Rattle.resolve_taking.specs.Again.{end_after, start_after, AgainAs};

use labels::{Keywords, Labels};
use read_forms::{Fault, Feature, Modes, Refusal, Statement};
use read_space::Form;
use resolve_statements::Tally;
use tokens::{Classes, Cursor};

// A statement, and the cursor from which the next one that is not kept is read.
#[derive(Clone, Copy)]
pub struct Again {
    pub statement: Statement,
    pub next: Cursor,
}

// So many statements are kept.
pub const FEW: usize = 32;

fn no_forms() -> [Form; 32]
    ensures { length result ≡ 32 }
{
    [Form {
        statement: Statement::Feature(Feature::Absorption(Modes::Wildcard)),
    }; 32]
}

// The index behind the last LET, with one statement more.
fn lets_end(statement: Statement, index: usize, end: usize) -> usize
    requires { index < 256 }
    ensures { result ≡ end_after statement index end }
{
    match statement {
        Statement::Let { .. } => index + 1,
        Statement::Feature(_) => end,
    }
}

// How many statements that are kept stand in front of the first LET, with one statement more that is kept, where `end` is the index behind the last LET.
fn lets_start(index: usize, start: usize, end: usize) -> usize
    requires { index < 256 }
    ensures { result ≡ start_after index start end }
{
    if end == 0 {
        return index + 1;
    }
    start
}

// Where the statement at an index is kept, if it is.
fn slot(index: usize) -> usize
    ensures { (result < 32) × (index < 32 → result ≡ index) }
{
    if index < FEW {
        return index;
    }
    0
}

// The statement at an index: what was kept, for the first ones; any other is read again. The text was read to its end before, so there is one.
fn statement_at(
    text: &[u8],
    classes: &Classes,
    labels: &Labels,
    keys: &Keywords,
    kept: Form,
    later: Cursor,
    index: usize,
    limit: u32,
) -> Again
    requires { (classes.now ≡ class_table) × (labels.now ≡ label_table) × (keys.now ≡ keyword_table) × (32 ≤ index → index ≤ later.at) }
    ensures { AgainAs limit text.now kept later index result }
{
    let statement = kept.statement;
    if index < FEW {
        return Again {
            statement,
            next: later,
        };
    }
    match read_statements::next_statement(text, classes, labels, keys, later, index, limit) {
        Ok(Some(again)) => Again {
            statement: again.statement,
            next: again.cursor,
        },
        Ok(None) => Again {
            statement,
            next: later,
        },
        Err(_) => Again {
            statement,
            next: later,
        },
    }
}

// What the statements of a text bring: the terms, the indexes of those that are dropped, and the ground statements of those that stay. The text's
// own faults come first, then its context's, then a second LET of a key, then those of its statements in order. So the text is read to its end before
// anything is made of a statement; its LETs are looked for, from the first one to the last; and then each statement is taken. None, where there are more
// LETs than there is room for.
pub fn take_text(
    text: &[u8],
    classes: &Classes,
    labels: &Labels,
    keys: &Keywords,
    block: &[u8],
    lists: &[u32],
    limit: u32,
    lets: &mut [u32],
    terms: &mut [u32],
    dropped: &mut [u8],
    out: &mut [u8],
) -> Option<Result<Tally, Refusal>>
    requires { (classes.now ≡ class_table) × (labels.now ≡ label_table) × (keys.now ≡ keyword_table) × Admitted limit text.now }
    ensures { TakenAs limit text.now block.now lists.now lets.old
        terms.old dropped.old out.old terms.new dropped.new out.new result }
{
    let mut forms = no_forms();
    let mut count = 0;
    // no LET stands before the statement at `start`, nor from the one at `end` on
    let mut start = 0;
    let mut end = 0;
    let mut cur = Cursor::new();
    // where the first statement starts that is not kept
    let mut later = cur;
    loop {
        match read_statements::next_statement(text, classes, labels, keys, cur, count, limit) {
            Ok(Some(next)) => {
                end = lets_end(next.statement, count, end);
                if count < FEW {
                    forms[count] = Form {
                        statement: next.statement,
                    };
                    later = next.cursor;
                    start = lets_start(count, start, end);
                }
                cur = next.cursor;
                count += 1;
            }
            Ok(None) => break,
            Err(r) => {
                let refusal = read_statements::earliest(text, classes, r);
                return Some(Err(refusal));
            }
        }
    }
    let Some(layout) = resolve_context::check(block, classes, lists) else {
        return Some(Err(Refusal {
            fault: Fault::WrongContext,
            place: 0,
        }));
    };
    let mut n = 0;
    let mut from = later;
    for i in start..end {
        let again = statement_at(text, classes, labels, keys, forms[slot(i)], from, i, limit);
        let statement = again.statement;
        from = again.next;
        match statement {
            Statement::Let { name, values } => {
                if resolve_symbols::has_let(text, lets, n, name) {
                    return Some(Err(Refusal {
                        fault: Fault::SecondLet,
                        place: i,
                    }));
                }
                if lets.len() < 4 * n + 4 {
                    return None;
                }
                resolve_symbols::put_let(text, lets, n, name, values);
                n += 1;
            }
            Statement::Feature(_) => {}
        }
    }
    let mut tally = Tally {
        terms: 0,
        stays: 0,
        ground: 0,
        dropped: 0,
    };
    for k in 0..count {
        let again = statement_at(text, classes, labels, keys, forms[slot(k)], later, k, limit);
        let statement = again.statement;
        match resolve_statements::bring_one(
            text, classes, labels, keys, block, lists, layout, lets, n, k, statement, tally, terms,
            dropped, out,
        ) {
            Ok(next) => {
                tally = next;
                later = again.next;
            }
            Err(fault) => return Some(Err(Refusal { fault, place: k })),
        }
    }
    Some(Ok(tally))
}
