// Print: a text's canonical text, in the caller's buffer.
#![tactic(auto)]

ghost use Rattle.std.specs.Prelude.{◌≡◌, ◌≤◌, length};
ghost use Rattle.tokens.specs.Class.{class_table};
ghost use Rattle.labels.specs.Table.{label_table, keyword_table};
ghost use Rattle.read_forms.specs.Forms.{statement_in};
ghost use Rattle.canonical.specs.Print.{print_text, Answers};
ghost use Rattle.read_parts.specs.Apart.{apart};
ghost use Rattle.read_parts.specs.Meaning.{PartsFit};
ghost use Rattle.print_writing.specs.Written.{Room, Written};
ghost use Rattle.read_forms.specs.Faults.{answered, same};
ghost use Rattle.print_render.specs.Text.{Accepted, Prints, KeptAs};
ghost use Rattle.canonical.specs.Lines.{piece_of, joint_of};
ghost use Rattle.reading_laws.specs.Admitted.{Admitted};

use labels::{Keywords, Labels};
use read_forms::{Fault, Feature, Modes, Refusal, Statement};
use tokens::{Classes, Cursor};

// The canonical text of a text that is accepted, as far as the buffer has room, and its length.
fn put_text(
    text: &[u8],
    classes: &Classes,
    labels: &Labels,
    keys: &Keywords,
    out: &mut [u8],
    limit: u32,
) -> usize
    requires { (classes.now ≡ class_table) × (labels.now ≡ label_table) × (keys.now ≡ keyword_table) × Accepted limit text.now }
    ensures { Prints limit text.now out.old out.new result }
{
    let mut n = 0;
    let mut cur = Cursor::new();
    let mut at = 0;
    loop {
        match read_statements::next_statement(text, classes, labels, keys, cur, n, limit) {
            Ok(Some(next)) => {
                at = print_statements::put_next(
                    text,
                    classes,
                    labels,
                    keys,
                    n,
                    next.statement,
                    out,
                    at,
                );
                cur = next.cursor;
                n += 1;
            }
            Ok(None) => return at,
            Err(_) => return at,
        }
    }
}

// The canonical text of a text that is accepted. It is never longer than the text, so it is measured first only where the buffer is shorter
// than that: by printing it into none of the buffer.
fn print_accepted(
    text: &[u8],
    classes: &Classes,
    labels: &Labels,
    keys: &Keywords,
    out: &mut [u8],
    limit: u32,
) -> Result<usize, Refusal>
    requires { (classes.now ≡ class_table) × (labels.now ≡ label_table) × (keys.now ≡ keyword_table) × Accepted limit text.now }
    ensures { Answers (print_text limit text.now) out.old out.new (answered same result) }
{
    if text.len() <= out.len() {
        return Ok(put_text(text, classes, labels, keys, out, limit));
    }
    let length = put_text(text, classes, labels, keys, &mut out[..0], limit);
    if out.len() < length {
        return Err(Refusal {
            fault: Fault::TooShort,
            place: 0,
        });
    }
    Ok(put_text(text, classes, labels, keys, out, limit))
}

// A form that stands for none. All its bytes are zero, so that an array of it is made at once.
fn no_form() -> Statement {
    Statement::Feature(Feature::Absorption(Modes::Wildcard))
}

fn no_forms<const N: usize>() -> [Statement; N]
    requires { N ≤ 256 }
    ensures { length result ≡ N }
{
    [no_form(); N]
}

// The canonical text of a text of at most N statements, read once, in a buffer that is as long as the text; none where there are more than the
// array keeps. A short text is not to pay for an array of 256.
fn print_within<const N: usize>(
    text: &[u8],
    classes: &Classes,
    labels: &Labels,
    keys: &Keywords,
    out: &mut [u8],
    limit: u32,
) -> Result<Option<usize>, Refusal>
    requires tables { (classes.now ≡ class_table) × (labels.now ≡ label_table) × (keys.now ≡ keyword_table) × Admitted limit text.now
        × (length text.now ≤ length out.old) }
    requires few { N ≤ 256 }
    ensures { KeptAs limit text.now out.old out.new result }
{
    let mut forms = no_forms::<N>();
    let mut n = 0;
    let mut cur = Cursor::new();
    while let Some(next) = read_statements::next_statement(
        text, classes, labels, keys, cur, n, limit,
    )? {
        if N <= n {
            return Ok(None);
        }
        forms[n] = next.statement;
        cur = next.cursor;
        n += 1;
    }
    let mut at = 0;
    for i in 0..n {
        at = print_statements::put_next(text, classes, labels, keys, i, forms[i], out, at);
    }
    Ok(Some(at))
}

// The same, by the text's length: few short texts have more than 32 statements.
fn print_kept(
    text: &[u8],
    classes: &Classes,
    labels: &Labels,
    keys: &Keywords,
    out: &mut [u8],
    limit: u32,
) -> Result<Option<usize>, Refusal>
    requires { (classes.now ≡ class_table) × (labels.now ≡ label_table) × (keys.now ≡ keyword_table) × Admitted limit text.now
        × (length text.now ≤ length out.old) }
    ensures { KeptAs limit text.now out.old out.new result }
{
    if 512 < text.len() {
        return print_within::<256>(text, classes, labels, keys, out, limit);
    }
    match print_within::<32>(text, classes, labels, keys, out, limit) {
        Ok(None) => print_within::<256>(text, classes, labels, keys, out, limit),
        kept => kept,
    }
}

// The canonical text of a text, or why it is refused: the text is read to know whether it is accepted, and again to print it. No form is kept,
// so that it can be printed twice, the first time to measure it.
fn print_twice(
    text: &[u8],
    classes: &Classes,
    labels: &Labels,
    keys: &Keywords,
    out: &mut [u8],
    limit: u32,
) -> Result<usize, Refusal>
    requires { (classes.now ≡ class_table) × (labels.now ≡ label_table) × (keys.now ≡ keyword_table) }
    ensures { Answers (print_text limit text.now) out.old out.new (answered same result) }
{
    let _count = read_text::count_under(text, limit)?;
    print_accepted(text, classes, labels, keys, out, limit)
}

// The canonical text of a text, or why it is refused. Nothing is written before it is known that the text is accepted and that the canonical
// text has room. The tables are lent by whoever asks, so that no function that prints keeps one.
pub fn print_under(
    text: &[u8],
    classes: &Classes,
    labels: &Labels,
    keys: &Keywords,
    out: &mut [u8],
    limit: u32,
) -> Result<usize, Refusal>
    requires { (classes.now ≡ class_table) × (labels.now ≡ label_table) × (keys.now ≡ keyword_table) }
    ensures { Answers (print_text limit text.now) out.old out.new (answered same result) }
{
    read_forms::admit(text, limit)?;
    if out.len() < text.len() {
        return print_twice(text, classes, labels, keys, out, limit);
    }
    match print_kept(text, classes, labels, keys, out, limit) {
        Ok(Some(n)) => Ok(n),
        Ok(None) => print_twice(text, classes, labels, keys, out, limit),
        Err(r) => Err(read_statements::earliest(text, classes, r)),
    }
}
