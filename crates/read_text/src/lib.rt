// The statements of a whole text: how many there are, which is Count, and the one at an index.
#![tactic(auto)]

ghost use Rattle.std.specs.Prelude.{◌≡◌};
ghost use Rattle.tokens.specs.Class.{class_table};
ghost use Rattle.labels.specs.Table.{label_table, keyword_table};
ghost use Rattle.reading.specs.Read.{between};
ghost use Rattle.reading.specs.Calls.{counted, counting, stating};
ghost use Rattle.read_statements.specs.Answers.{reading_at};
ghost use Rattle.read_forms.specs.Forms.{some_in, statement_in};
ghost use Rattle.read_forms.specs.Faults.{answered, same};
ghost use Rattle.read_text.specs.Answers.{indexed};

use labels::{Keywords, Labels};
use read_forms::{Fault, Refusal, Statement};
use tokens::{Classes, Cursor};

// The number of statements, where the text's bytes are in order.
fn count_from(
    text: &[u8],
    classes: &Classes,
    labels: &Labels,
    keys: &Keywords,
    limit: u32,
) -> Result<usize, Refusal>
    requires { (classes.now ≡ class_table) × (labels.now ≡ label_table) × (keys.now ≡ keyword_table) }
    ensures { answered same result ≡ counted 0 (reading_at limit text.now 0 between 0) }
{
    let mut count = 0;
    let mut cur = Cursor::new();
    while let Some(read) = read_statements::next_statement(
        text, classes, labels, keys, cur, count, limit,
    )? {
        cur = read.cursor;
        count += 1;
    }
    Ok(count)
}

// The number of statements of a text, or why it is refused.
pub fn count_under(text: &[u8], limit: u32) -> Result<usize, Refusal>
    ensures { answered same result ≡ counting limit text.now }
{
    read_forms::admit(text, limit)?;
    let classes = tokens::CLASSES;
    let labels = labels::LABELS;
    let keys = labels::KEYWORDS;
    match count_from(text, &classes, &labels, &keys, limit) {
        Ok(n) => Ok(n),
        Err(r) => Err(read_statements::earliest(text, &classes, r)),
    }
}

// The statement at an index, if there are so many, in one reading of the text. It is kept where it comes by, and reading goes on to the end, for
// a fault behind it refuses the text.
fn nth(
    text: &[u8],
    classes: &Classes,
    labels: &Labels,
    keys: &Keywords,
    index: usize,
    limit: u32,
) -> Result<Option<Statement>, Refusal>
    requires { (classes.now ≡ class_table) × (labels.now ≡ label_table) × (keys.now ≡ keyword_table) }
    ensures { answered (some_in (statement_in text.now)) result ≡ indexed index (reading_at limit text.now 0 between 0) }
{
    let mut n = 0;
    let mut cur = Cursor::new();
    let mut kept = None;
    while let Some(next) = read_statements::next_statement(
        text, classes, labels, keys, cur, n, limit,
    )? {
        if n == index {
            kept = Some(next.statement);
        }
        cur = next.cursor;
        n += 1;
    }
    Ok(kept)
}

// The statement of a text at an index, or why it is refused: the faults of the whole text come before 20.
pub fn statement_under(text: &[u8], index: usize, limit: u32) -> Result<Statement, Refusal>
    ensures { answered (statement_in text.now) result ≡ stating limit text.now index }
{
    read_forms::admit(text, limit)?;
    let classes = tokens::CLASSES;
    let labels = labels::LABELS;
    let keys = labels::KEYWORDS;
    match nth(text, &classes, &labels, &keys, index, limit) {
        Ok(kept) => kept.ok_or(Refusal {
            fault: Fault::NoStatement,
            place: index,
        }),
        Err(r) => Err(read_statements::earliest(text, &classes, r)),
    }
}
