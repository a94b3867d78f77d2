// Statements printed by their parts: one function for each kind of argument, and none for a feature.
#![tactic(auto)]

ghost use Rattle.std.specs.Prelude.{◌≡◌, true, List, [], ℕ, ◌<◌, length, get_or};
ghost use Rattle.tokens.specs.Class.{class_table};
ghost use Rattle.tokens.specs.Spelling.{spell_all};
ghost use Rattle.labels.specs.Label.{keywords};
ghost use Rattle.labels.specs.Table.{label_table, keyword_table};
ghost use Rattle.canonical.specs.Canonical.{argument_shapes, question_mark, operator_shapes, statement_shapes};
ghost use Rattle.canonical.specs.Lines.{joint_of, piece_of};
ghost use Rattle.read_forms.specs.Forms.{op_as, statement_in};
ghost use Rattle.print_writing.specs.Written.{Room, Written};
ghost use Rattle.read_parts.specs.Apart.{apart, is_written};
ghost use Rattle.read_parts.specs.Meaning.{PartFits, PartsFit};
ghost use Rattle.print_statements.specs.Bytes.{head_of, behind, shapes_in, some_shapes, bytes_of};

use labels::{Keywords, Labels};
use read_forms::{CovariateOp, Statement};
use read_parts::{Part, Parts};
use tokens::Classes;

// Whether a part is printed at all.
fn prints(part: Part) -> bool
    ensures { (s : List ℕ) → result ≡ some_shapes (shapes_in s part) }
{
    !matches!(
        part,
        Part::Absent | Part::Omitted | Part::Op(CovariateOp::Multiply)
    )
}

// A part; of the operators only `+`.
fn put_part(
    text: &[u8],
    classes: &Classes,
    labels: &Labels,
    part: Part,
    out: &mut [u8],
    at: usize,
) -> usize
    requires { (classes.now ≡ class_table) × (labels.now ≡ label_table) × PartFits text.now part
        × Room at (spell_all (argument_shapes (shapes_in text.now part))) }
    ensures { Written out.old at
        (spell_all (argument_shapes (shapes_in text.now part)))
        out.new result }
{
    match part {
        Part::Absent | Part::Omitted | Part::Op(CovariateOp::Multiply) => at,
        Part::Modes(family, modes) => print_parts::put_modes(labels, family, modes, out, at),
        Part::Counts(counts) => print_parts::put_counts(text, classes, counts, out, at),
        Part::N => print_writing::put(out, at, b'N'),
        Part::Operand(operand) => print_parts::put_operand(text, classes, operand, out, at),
        Part::Name(name) => print_parts::put_name(text, name, out, at),
        Part::Values(items) => print_parts::put_names(text, classes, items, out, at),
        Part::Op(CovariateOp::Add) => print_writing::put(out, at, b'+'),
    }
}

// One more part behind its `,`, if it is printed.
fn put_also(
    text: &[u8],
    classes: &Classes,
    labels: &Labels,
    part: Part,
    out: &mut [u8],
    at: usize,
) -> usize
    requires { (classes.now ≡ class_table) × (labels.now ≡ label_table) × PartFits text.now part
        × Room at (spell_all (behind (shapes_in text.now part))) }
    ensures { Written out.old at
        (spell_all (behind (shapes_in text.now part)))
        out.new result }
{
    if prints(part) {
        let next = print_writing::put(out, at, b',');
        return put_part(text, classes, labels, part, out, next);
    }
    at
}

fn put_question(out: &mut [u8], at: usize, optional: bool) -> usize
    requires { Room at (spell_all (question_mark optional)) }
    ensures { Written out.old at (spell_all (question_mark optional)) out.new result }
{
    if optional {
        return print_writing::put(out, at, b'?');
    }
    at
}

// A keyword, its `?` and its `(`.
pub fn put_head(keys: &Keywords, place: usize, optional: bool, out: &mut [u8], at: usize) -> usize
    requires { (keys.now ≡ keyword_table) × (place < length keywords) × Room at (head_of (get_or keywords place []) optional) }
    ensures { Written out.old at (head_of (get_or keywords place []) optional) out.new result }
{
    let first = print_writing::put_all(out, at, labels::keyword_label(keys, place));
    let second = put_question(out, first, optional);
    print_writing::put(out, second, b'(')
}

// A statement that was taken apart, in its canonical bytes. The names of its parts are pairs into `text`, whatever bytes these are.
pub fn put_parts(
    text: &[u8],
    classes: &Classes,
    labels: &Labels,
    keys: &Keywords,
    parts: Parts,
    out: &mut [u8],
    at: usize,
) -> usize
    requires { (classes.now ≡ class_table) × (labels.now ≡ label_table) × (keys.now ≡ keyword_table)
        × PartsFit text.now parts × (is_written parts.first ≡ true) × (parts.keyword < length keywords)
        × Room at (bytes_of text.now parts) }
    ensures { Written out.old at (bytes_of text.now parts) out.new result }
{
    let inside = put_head(keys, parts.keyword, parts.optional, out, at);
    let first = put_part(text, classes, labels, parts.first, out, inside);
    let second = put_also(text, classes, labels, parts.second, out, first);
    let third = put_also(text, classes, labels, parts.third, out, second);
    let last = put_also(text, classes, labels, parts.fourth, out, third);
    print_writing::put(out, last, b')')
}

// A statement of a text in its canonical bytes.
pub fn put_statement(
    text: &[u8],
    classes: &Classes,
    labels: &Labels,
    keys: &Keywords,
    statement: Statement,
    out: &mut [u8],
    at: usize,
) -> usize
    requires { (classes.now ≡ class_table) × (labels.now ≡ label_table) × (keys.now ≡ keyword_table)
        × PartsFit text.now (apart statement)
        × Room at (spell_all (statement_shapes (statement_in text.now statement))) }
    ensures { Written out.old at
        (spell_all (statement_shapes (statement_in text.now statement)))
        out.new result }
{
    put_parts(
        text,
        classes,
        labels,
        keys,
        read_parts::parts_of(statement),
        out,
        at,
    )
}

// The `;` before every statement but the first.
pub fn put_joint(n: usize, out: &mut [u8], at: usize) -> usize
    requires { Room at (joint_of n) }
    ensures { Written out.old at (joint_of n) out.new result }
{
    if n == 0 {
        return at;
    }
    print_writing::put(out, at, b';')
}

// A statement, where `n` were printed before.
pub fn put_next(
    text: &[u8],
    classes: &Classes,
    labels: &Labels,
    keys: &Keywords,
    n: usize,
    statement: Statement,
    out: &mut [u8],
    at: usize,
) -> usize
    requires { (classes.now ≡ class_table) × (labels.now ≡ label_table) × (keys.now ≡ keyword_table) × PartsFit text.now (apart statement)
        × Room at (piece_of n (statement_in text.now statement)) }
    ensures { Written out.old at (piece_of n (statement_in text.now statement)) out.new result }
{
    let next = put_joint(n, out, at);
    put_statement(text, classes, labels, keys, statement, out, next)
}
