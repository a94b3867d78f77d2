// A statement of a text as 32-bit numbers in the caller's buffer, for programs in other languages. `put` is the one place that writes, and it
// writes only where the buffer has room: on a buffer with no room the same calls tell how many numbers there are.
#![tactic(auto)]

ghost use Rattle.std.specs.Prelude.{◌≡◌, [], ◌∷◌, length};
ghost use Rattle.tokens.specs.Class.{class_table};
ghost use Rattle.reading.specs.Answer.{accepted};
ghost use Rattle.canonical.specs.Print.{Answers};
ghost use Rattle.canonical.specs.Numbers.{pair_numbers, kind_number, modes_numbers, counts_numbers, operand_numbers, operator_numbers, head_numbers, numbers_of};
ghost use Rattle.read_packs.specs.Packs.{places};
ghost use Rattle.read_forms.specs.Items.{name_in, kind_as, items_in};
ghost use Rattle.read_forms.specs.Forms.{modes_in, counts_in, operand_in, op_as, statement_in};
ghost use Rattle.read_forms.specs.Fits.{InText, Listed};
ghost use Rattle.read_checks.specs.Answers.{entry_in};
ghost use Rattle.read_parts.specs.Apart.{apart};
ghost use Rattle.read_parts.specs.Meaning.{CountsFit, OperandFits, PartFits, PartsFit};
ghost use Rattle.print_writing.specs.Written.{Written};
ghost use Rattle.read_forms.specs.Faults.{answered, same};
ghost use Rattle.numbers_statement.specs.Ready.{Ready};
ghost use Rattle.numbers_statement.specs.Entries.{entry_numbers, entries_numbers, numbers_in, taken_in};
ghost use Rattle.numbers_statement.specs.Answers.{numbering};

use read_checks::Entry as Here;
use read_forms::{
    Counts, CovariateOp, Fault, Items, Kind, Modes, Name, Operand, Refusal, Statement,
};
use read_parts::{Part, Parts};
use tokens::Classes;

// What is written of an entry of a list: its pair, its kind and its pair, or its count.
#[derive(Clone, Copy)]
pub enum Entry {
    Pair,
    Value,
    Count,
}

// One number, and the index behind it.
pub fn put(out: &mut [u32], at: usize, number: usize) -> usize
    requires { Ready at (number ∷ []) }
    ensures { Written out.old at (number ∷ []) out.new result }
{
    print_writing::put(out, at, number as u32)
}

// One number and another. Two functions and no generic one: a loop over an array, with its invariant, would stand for two lines.
fn put_two(out: &mut [u32], at: usize, first: usize, second: usize) -> usize
    requires { Ready at (first ∷ second ∷ []) }
    ensures { Written out.old at (first ∷ second ∷ []) out.new result }
{
    let next = put(out, at, first);
    put(out, next, second)
}

// One number and two others.
fn put_three(out: &mut [u32], at: usize, first: usize, second: usize, third: usize) -> usize
    requires { Ready at (first ∷ second ∷ third ∷ []) }
    ensures { Written out.old at (first ∷ second ∷ third ∷ []) out.new result }
{
    let next = put(out, at, first);
    put_two(out, next, second, third)
}

// A name behind the number for its kind.
fn put_name(text: &[u8], kind: usize, name: Name, out: &mut [u32], at: usize) -> usize
    requires { InText text.now name × Ready at (kind ∷ pair_numbers (name_in text.now name)) }
    ensures { Written out.old at (kind ∷ pair_numbers (name_in text.now name)) out.new result }
{
    put_three(out, at, kind, name.offset, name.length)
}

fn number_of(kind: Kind) -> usize
    ensures { result ≡ kind_number (kind_as kind) }
{
    match kind {
        Kind::Word => 0,
        Kind::Number => 1,
    }
}

// An entry of a list.
fn put_entry(text: &[u8], entry: Entry, here: Here, out: &mut [u32], at: usize) -> usize
    requires { InText text.now here.name × Ready at (entry_numbers entry (entry_in text.now here)) }
    ensures { Written out.old at (entry_numbers entry (entry_in text.now here)) out.new result }
{
    let name = here.name;
    let kind = here.kind;
    match entry {
        Entry::Pair => put_two(out, at, name.offset, name.length),
        Entry::Value => put_three(out, at, number_of(kind), name.offset, name.length),
        Entry::Count => put(out, at, read_lists::count_or_0(text, name) as usize),
    }
}

// The entries of a list.
fn put_entries(
    text: &[u8],
    classes: &Classes,
    entry: Entry,
    items: Items,
    out: &mut [u32],
    at: usize,
) -> usize
    requires { (classes.now ≡ class_table) × Listed text.now items × Ready at (entries_numbers entry (items_in text.now items)) }
    ensures { Written out.old at (entries_numbers entry (items_in text.now items)) out.new result }
{
    let mut left = items.count;
    let mut cur = items.first;
    let mut next = at;
    while 0 < left {
        let here = read_checks::entry_at(text, classes, cur);
        next = put_entry(text, entry, here, out, next);
        cur = read_checks::after_entry(text, classes, here);
        left -= 1;
    }
    next
}

// A list behind the number for its kind and how many entries it has.
fn put_list(
    text: &[u8],
    classes: &Classes,
    kind: usize,
    entry: Entry,
    items: Items,
    out: &mut [u32],
    at: usize,
) -> usize
    requires { (classes.now ≡ class_table) × Listed text.now items
        × Ready at (kind ∷ items.count ∷ entries_numbers entry (items_in text.now items)) }
    ensures { Written out.old at
        (kind ∷ items.count ∷ entries_numbers entry (items_in text.now items))
        out.new result }
{
    let next = put_two(out, at, kind, items.count);
    put_entries(text, classes, entry, items, out, next)
}

// How many modes a list has.
fn how_many(packed: u32) -> usize
    ensures { result ≡ length (places packed) }
{
    let mut n = 0;
    let mut left = packed;
    while left % 16 != 0 {
        n += 1;
        left /= 16;
    }
    n
}

// The modes of a list as places in their family.
fn put_places(packed: u32, out: &mut [u32], at: usize) -> usize
    requires { Ready at (places packed) }
    ensures { Written out.old at (places packed) out.new result }
{
    let mut left = packed;
    let mut next = at;
    while left % 16 != 0 {
        next = put(out, next, (left % 16 - 1) as usize);
        left /= 16;
    }
    next
}

// Modes: `*`, or those of a list.
fn put_modes(modes: Modes, out: &mut [u32], at: usize) -> usize
    requires { Ready at (modes_numbers (modes_in modes)) }
    ensures { Written out.old at (modes_numbers (modes_in modes)) out.new result }
{
    match modes {
        Modes::Wildcard => put(out, at, 0),
        Modes::List(packed) => {
            let next = put_two(out, at, 1, how_many(packed));
            put_places(packed, out, next)
        }
    }
}

// Counts: a number, a range's two ends, or those of a list.
fn put_counts(text: &[u8], classes: &Classes, counts: Counts, out: &mut [u32], at: usize) -> usize
    requires { (classes.now ≡ class_table) × CountsFit text.now counts × Ready at (counts_numbers (counts_in text.now counts)) }
    ensures { Written out.old at (counts_numbers (counts_in text.now counts)) out.new result }
{
    match counts {
        Counts::Single(value) => put_two(out, at, 2, value as usize),
        Counts::Range(low, high) => put_three(out, at, 3, low as usize, high as usize),
        Counts::List(items) => put_list(text, classes, 4, Entry::Count, items, out, at),
    }
}

// Parameters or covariates: `*`, a symbol, or names.
fn put_operand(
    text: &[u8],
    classes: &Classes,
    operand: Operand,
    out: &mut [u32],
    at: usize,
) -> usize
    requires { (classes.now ≡ class_table) × OperandFits text.now operand × Ready at (operand_numbers (operand_in text.now operand)) }
    ensures { Written out.old at (operand_numbers (operand_in text.now operand)) out.new result }
{
    match operand {
        Operand::Wildcard => put(out, at, 0),
        Operand::Symbol(name) => put_name(text, 6, name, out, at),
        Operand::Names(items) => put_list(text, classes, 7, Entry::Pair, items, out, at),
    }
}

// The operator, which stands there also where it is not written.
fn put_op(op: CovariateOp, out: &mut [u32], at: usize) -> usize
    requires { Ready at (operator_numbers (op_as op)) }
    ensures { Written out.old at (operator_numbers (op_as op)) out.new result }
{
    match op {
        CovariateOp::Multiply => put(out, at, 10),
        CovariateOp::Add => put(out, at, 11),
    }
}

// An argument.
fn put_part(text: &[u8], classes: &Classes, part: Part, out: &mut [u32], at: usize) -> usize
    requires { (classes.now ≡ class_table) × PartFits text.now part × Ready at (numbers_in text.now part) }
    ensures { Written out.old at (numbers_in text.now part) out.new result }
{
    match part {
        Part::Absent => at,
        Part::Modes(_, modes) => put_modes(modes, out, at),
        Part::Counts(counts) => put_counts(text, classes, counts, out, at),
        Part::N => put(out, at, 5),
        Part::Operand(operand) => put_operand(text, classes, operand, out, at),
        Part::Name(name) => put_name(text, 8, name, out, at),
        Part::Values(items) => put_list(text, classes, 12, Entry::Value, items, out, at),
        Part::Op(op) => put_op(op, out, at),
        Part::Omitted => put(out, at, 9),
    }
}

// A keyword and its `?`.
fn put_head(keyword: usize, optional: bool, out: &mut [u32], at: usize) -> usize
    requires { Ready at (head_numbers keyword optional) }
    ensures { Written out.old at (head_numbers keyword optional) out.new result }
{
    if optional {
        return put_two(out, at, keyword, 1);
    }
    put_two(out, at, keyword, 0)
}

// A statement that was taken apart.
pub fn put_parts(text: &[u8], classes: &Classes, parts: Parts, out: &mut [u32], at: usize) -> usize
    requires { (classes.now ≡ class_table) × PartsFit text.now parts × Ready at (taken_in text.now parts) }
    ensures { Written out.old at (taken_in text.now parts) out.new result }
{
    let one = parts.first;
    let two = parts.second;
    let three = parts.third;
    let four = parts.fourth;
    let first = put_head(parts.keyword, parts.optional, out, at);
    let second = put_part(text, classes, one, out, first);
    let third = put_part(text, classes, two, out, second);
    let fourth = put_part(text, classes, three, out, third);
    put_part(text, classes, four, out, fourth)
}

// The numbers of a statement that was read: they are counted first, on none of the buffer.
fn put_whole(
    text: &[u8],
    classes: &Classes,
    parts: Parts,
    out: &mut [u32],
) -> Result<usize, Refusal>
    requires { (classes.now ≡ class_table) × PartsFit text.now parts × Ready 0 (taken_in text.now parts) }
    ensures { Answers (accepted (taken_in text.now parts)) out.old out.new (answered same result) }
{
    let room = out.len();
    let size = put_parts(text, classes, parts, &mut out[..0], 0);
    if room < size {
        return Err(Refusal {
            fault: Fault::TooShort,
            place: 0,
        });
    }
    Ok(put_parts(text, classes, parts, out, 0))
}

// The numbers of the statement of a text at an index, or why there are none.
pub fn numbers_under(text: &[u8], index: u32, limit: u32, out: &mut [u32]) -> Result<usize, Refusal>
    ensures { Answers (numbering limit text.now index) out.old out.new (answered same result) }
{
    let statement = read_text::statement_under(text, index as usize, limit)?;
    let classes = tokens::CLASSES;
    put_whole(text, &classes, read_parts::parts_of(statement), out)
}
