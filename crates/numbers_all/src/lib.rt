// All statements of a text as 32-bit numbers in the caller's buffer, for programs in other languages: the numbers of each, one statement after
// the other, behind how many they are. The text is read once, and nothing is written before it is known that it is accepted and that the
// numbers have room.
#![tactic(auto)]

ghost use Rattle.std.specs.Prelude.{◌≡◌, ◌*◌, ◌≤◌, length};
ghost use Rattle.tokens.specs.Class.{class_table};
ghost use Rattle.labels.specs.Table.{label_table, keyword_table};
ghost use Rattle.reading.specs.Answer.{accepted};
ghost use Rattle.canonical.specs.Print.{Answers};
ghost use Rattle.canonical.specs.Numbers.{counted_numbers, all_numbers_of, all_numbering};
ghost use Rattle.read_forms.specs.Forms.{statement_in};
ghost use Rattle.read_parts.specs.Apart.{apart};
ghost use Rattle.read_parts.specs.Meaning.{PartsFit};
ghost use Rattle.print_writing.specs.Written.{Written};
ghost use Rattle.numbers_statement.specs.Ready.{Ready};
ghost use Rattle.read_forms.specs.Faults.{answered, same};
ghost use Rattle.read_space.specs.Space.{statements_in, Whole};
ghost use Rattle.numbers_all.specs.Answers.{WasRead};
ghost use Rattle.reading_laws.specs.Admitted.{Admitted};

use labels::{Keywords, Labels};
use read_forms::{Fault, Feature, Modes, Refusal, Statement};
use read_space::Space;
use tokens::{Classes, Cursor};

// The numbers of a statement behind how many they are, which is written when they are.
fn put_counted(
    text: &[u8],
    classes: &Classes,
    statement: Statement,
    out: &mut [u32],
    at: usize,
) -> usize
    requires { (classes.now ≡ class_table) × PartsFit text.now (apart statement)
        × Ready at (counted_numbers (statement_in text.now statement)) }
    ensures { Written out.old at (counted_numbers (statement_in text.now statement)) out.new result }
{
    let parts = read_parts::parts_of(statement);
    let first = at + 1;
    let next = numbers_statement::put_parts(text, classes, parts, out, first);
    numbers_statement::put(out, at, next - first);
    next
}

// A form that stands for none. All its bytes are zero, so that an array of it is made at once.
fn no_form() -> Statement {
    Statement::Feature(Feature::Absorption(Modes::Wildcard))
}

fn no_forms() -> [Statement; 256]
    ensures { length result ≡ 256 }
{
    [no_form(); 256]
}

// The numbers of all statements, in a buffer that has two for each byte of the text: more there never are, so they need not be measured.
fn put_read(
    text: &[u8],
    classes: &Classes,
    labels: &Labels,
    keys: &Keywords,
    limit: u32,
    out: &mut [u32],
) -> Result<usize, Refusal>
    requires { (classes.now ≡ class_table) × (labels.now ≡ label_table) × (keys.now ≡ keyword_table) × Admitted limit text.now
        × (2 * length text.now ≤ length out.old) }
    ensures { Answers (all_numbering limit text.now) out.old out.new (answered same result) }
{
    let mut forms = no_forms();
    let mut n = 0;
    let mut cur = Cursor::new();
    loop {
        match read_statements::next_statement(text, classes, labels, keys, cur, n, limit) {
            Ok(Some(next)) => {
                forms[n] = next.statement;
                cur = next.cursor;
                n += 1;
            }
            Ok(None) => break,
            Err(r) => return Err(read_statements::earliest(text, classes, r)),
        }
    }
    let mut at = 0;
    for i in 0..n {
        at = put_counted(text, classes, forms[i], out, at);
    }
    Ok(at)
}

// The numbers of statements that are kept, as far as the buffer has room, and how many there are.
fn put_space(text: &[u8], classes: &Classes, space: Space, out: &mut [u32]) -> usize
    requires { (classes.now ≡ class_table) × Whole space × WasRead text.now (statements_in text.now space) }
    ensures { Written out.old 0 (all_numbers_of (statements_in text.now space)) out.new result }
{
    let mut at = 0;
    for i in 0..space.count {
        at = put_counted(text, classes, space.forms[i].statement, out, at);
    }
    at
}

// The same if there is room for all of them: they are counted first, on none of the buffer.
fn put_measured(
    text: &[u8],
    classes: &Classes,
    space: Space,
    out: &mut [u32],
) -> Result<usize, Refusal>
    requires { (classes.now ≡ class_table) × Whole space × WasRead text.now (statements_in text.now space) }
    ensures { Answers (accepted (all_numbers_of (statements_in text.now space))) out.old out.new (answered same result) }
{
    let room = out.len();
    let size = put_space(text, classes, space, &mut out[..0]);
    if room < size {
        return Err(Refusal {
            fault: Fault::TooShort,
            place: 0,
        });
    }
    Ok(put_space(text, classes, space, out))
}

// The numbers of all statements in a buffer of any length.
fn put_short(
    text: &[u8],
    classes: &Classes,
    labels: &Labels,
    keys: &Keywords,
    limit: u32,
    out: &mut [u32],
) -> Result<usize, Refusal>
    requires { (classes.now ≡ class_table) × (labels.now ≡ label_table) × (keys.now ≡ keyword_table) × Admitted limit text.now }
    ensures { Answers (all_numbering limit text.now) out.old out.new (answered same result) }
{
    let space = read_space::read_space(text, classes, labels, keys, limit);
    space.ending?;
    put_measured(text, classes, space, out)
}

// The numbers of all statements of a text, or why there are none.
pub fn all_numbers_under(text: &[u8], limit: u32, out: &mut [u32]) -> Result<usize, Refusal>
    ensures { Answers (all_numbering limit text.now) out.old out.new (answered same result) }
{
    read_forms::admit(text, limit)?;
    let size = text.len();
    let classes = tokens::CLASSES;
    let labels = labels::LABELS;
    let keys = labels::KEYWORDS;
    if 2 * size <= out.len() {
        return put_read(text, &classes, &labels, &keys, limit, out);
    }
    put_short(text, &classes, &labels, &keys, limit, out)
}
