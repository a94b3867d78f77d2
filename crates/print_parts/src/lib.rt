// The parts of a statement, printed: their canonical bytes written into the caller's buffer, and the index behind them.
#![tactic(auto)]

ghost use Rattle.std.specs.Prelude.{◌≡◌, map, suc, length};
ghost use Rattle.read_packs.specs.Packs.{places};
ghost use Rattle.tokens.specs.Class.{class_table};
ghost use Rattle.tokens.specs.Token.{Shape};
ghost use Rattle.tokens.specs.Spelling.{spell, spell_all};
ghost use Rattle.labels.specs.Table.{label_table};
ghost use Rattle.reading.specs.Statement.{Name as Word, range, symbol};
ghost use Rattle.canonical.specs.Canonical.{label_shape, name_shape, item_shape, entry_shapes, bracketed, bare_one};
ghost use Rattle.canonical.specs.Canonical.{modes_shapes, counts_shapes, operand_shapes};
ghost use Rattle.read_forms.specs.Items.{name_in, items_in};
ghost use Rattle.read_forms.specs.Forms.{modes_in, counts_in, operand_in};
ghost use Rattle.read_forms.specs.Fits.{InText, Listed};
ghost use Rattle.print_writing.specs.Written.{Room, Written};
ghost use Rattle.read_parts.specs.Meaning.{OperandFits, CountsFit};
ghost use Rattle.print_parts.specs.Parts.{number_shape, shapes_as, behind_entry};

use labels::{Family, Labels};
use read_forms::{Counts, Items, Modes, Name, Operand};
use tokens::Classes;

// How an entry of a list is printed.
trait Entry {
    // What it is printed as.
    ghost shape: { Word → Shape };

    fn put(text: &[u8], name: Name, out: &mut [u8], at: usize) -> usize
        requires { InText text.now name × Room at (spell (shape (name_in text.now name))) }
        ensures { Written out.old at (spell (shape (name_in text.now name))) out.new result };
}

// A name as it is written.
struct Named;

impl Entry for Named {
    ghost shape = { name_shape };

    fn put(text: &[u8], name: Name, out: &mut [u8], at: usize) -> usize {
        put_name(text, name, out, at)
    }
}

// A count without leading zeros.
struct Counted;

impl Entry for Counted {
    ghost shape = { number_shape };

    fn put(text: &[u8], name: Name, out: &mut [u8], at: usize) -> usize {
        print_writing::put_number(out, at, read_lists::count_or_0(text, name) as usize)
    }
}

// A name as it is written.
pub fn put_name(text: &[u8], name: Name, out: &mut [u8], at: usize) -> usize
    requires { InText text.now name × Room at (name_in text.now name).spelling }
    ensures { Written out.old at (name_in text.now name).spelling out.new result }
{
    print_writing::put_all(out, at, read_forms::spelling(text, name))
}

// The `,` behind an entry of a list, unless it is the last.
pub fn put_comma(out: &mut [u8], at: usize, left: usize) -> usize
    requires { Room at (behind_entry left) }
    ensures { Written out.old at (behind_entry left) out.new result }
{
    if left < 2 {
        return at;
    }
    print_writing::put(out, at, b',')
}

// The entries of a list, with a `,` between two.
fn put_entries<E: Entry>(
    text: &[u8],
    classes: &Classes,
    items: Items,
    out: &mut [u8],
    at: usize,
) -> usize
    requires { (classes.now ≡ class_table) × Listed text.now items
        × Room at (spell_all (entry_shapes (shapes_as E.shape (items_in text.now items)))) }
    ensures { Written out.old at
        (spell_all (entry_shapes (shapes_as E.shape (items_in text.now items))))
        out.new result }
{
    let mut cur = items.first;
    let mut next = at;
    for i in 0..items.count {
        let here = read_checks::entry_at(text, classes, cur);
        next = E::put(text, here.name, out, next);
        next = put_comma(out, next, items.count - i);
        cur = read_checks::after_entry(text, classes, here);
    }
    next
}

// A list in its brackets.
fn put_bracketed<E: Entry>(
    text: &[u8],
    classes: &Classes,
    items: Items,
    out: &mut [u8],
    at: usize,
) -> usize
    requires { (classes.now ≡ class_table) × Listed text.now items
        × Room at (spell_all (bracketed (shapes_as E.shape (items_in text.now items)))) }
    ensures { Written out.old at
        (spell_all (bracketed (shapes_as E.shape (items_in text.now items))))
        out.new result }
{
    let first = print_writing::put(out, at, b'[');
    let last = put_entries::<E>(text, classes, items, out, first);
    print_writing::put(out, last, b']')
}

// A list of names, bare if it is one name.
pub fn put_names(text: &[u8], classes: &Classes, items: Items, out: &mut [u8], at: usize) -> usize
    requires { (classes.now ≡ class_table) × Listed text.now items
        × Room at (spell_all (bare_one (map item_shape (items_in text.now items)))) }
    ensures { Written out.old at
        (spell_all (bare_one (map item_shape (items_in text.now items))))
        out.new result }
{
    if items.count == 1 {
        return put_entries::<Named>(text, classes, items, out, at);
    }
    put_bracketed::<Named>(text, classes, items, out, at)
}

// A range's two ends.
fn put_range(out: &mut [u8], at: usize, low: u32, high: u32) -> usize
    requires { Room at (spell_all (counts_shapes (range low high))) }
    ensures { Written out.old at (spell_all (counts_shapes (range low high))) out.new result }
{
    let first = print_writing::put_number(out, at, low as usize);
    let second = print_writing::put(out, first, b'.');
    let third = print_writing::put(out, second, b'.');
    print_writing::put_number(out, third, high as usize)
}

// Counts: a number, a range's two ends with `..` between them, or a list in its brackets.
pub fn put_counts(
    text: &[u8],
    classes: &Classes,
    counts: Counts,
    out: &mut [u8],
    at: usize,
) -> usize
    requires { (classes.now ≡ class_table) × CountsFit text.now counts
        × Room at (spell_all (counts_shapes (counts_in text.now counts))) }
    ensures { Written out.old at (spell_all (counts_shapes (counts_in text.now counts))) out.new result }
{
    match counts {
        Counts::Single(value) => print_writing::put_number(out, at, value as usize),
        Counts::Range(low, high) => put_range(out, at, low, high),
        Counts::List(items) => put_bracketed::<Counted>(text, classes, items, out, at),
    }
}

// A symbol.
fn put_symbol(text: &[u8], name: Name, out: &mut [u8], at: usize) -> usize
    requires { InText text.now name × Room at (spell_all (operand_shapes (symbol (name_in text.now name)))) }
    ensures { Written out.old at
        (spell_all (operand_shapes (symbol (name_in text.now name))))
        out.new result }
{
    let next = print_writing::put(out, at, b'@');
    put_name(text, name, out, next)
}

// Parameters or covariates: `*`, a symbol behind its `@`, or names.
pub fn put_operand(
    text: &[u8],
    classes: &Classes,
    operand: Operand,
    out: &mut [u8],
    at: usize,
) -> usize
    requires { (classes.now ≡ class_table) × OperandFits text.now operand
        × Room at (spell_all (operand_shapes (operand_in text.now operand))) }
    ensures { Written out.old at
        (spell_all (operand_shapes (operand_in text.now operand)))
        out.new result }
{
    match operand {
        Operand::Wildcard => print_writing::put(out, at, b'*'),
        Operand::Symbol(name) => put_symbol(text, name, out, at),
        Operand::Names(items) => put_names(text, classes, items, out, at),
    }
}

// The `,` between a label and the modes that are left, if there are any.
fn put_mode_comma(out: &mut [u8], at: usize, left: u32) -> usize
    requires { Room at (behind_entry (suc (length (places left)))) }
    ensures { Written out.old at (behind_entry (suc (length (places left)))) out.new result }
{
    if left % 16 == 0 {
        return at;
    }
    print_writing::put(out, at, b',')
}

// The labels of modes, with a `,` between two.
fn put_labels(labels: &Labels, family: Family, packed: u32, out: &mut [u8], at: usize) -> usize
    requires { (labels.now ≡ label_table) × Room at (spell_all (entry_shapes (map (label_shape family) (places packed)))) }
    ensures { Written out.old at
        (spell_all (entry_shapes (map (label_shape family) (places packed))))
        out.new result }
{
    let mut left = packed;
    let mut next = at;
    while left % 16 != 0 {
        let label = labels::mode_label(labels, family, (left % 16 - 1) as usize);
        next = print_writing::put_all(out, next, label);
        left /= 16;
        next = put_mode_comma(out, next, left);
    }
    next
}

// The labels of modes in their brackets, or bare if it is one.
fn put_chosen(labels: &Labels, family: Family, packed: u32, out: &mut [u8], at: usize) -> usize
    requires { (labels.now ≡ label_table) × Room at (spell_all (bare_one (map (label_shape family) (places packed)))) }
    ensures { Written out.old at
        (spell_all (bare_one (map (label_shape family) (places packed))))
        out.new result }
{
    if read_packs::is_one(packed) {
        return put_labels(labels, family, packed, out, at);
    }
    let first = print_writing::put(out, at, b'[');
    let last = put_labels(labels, family, packed, out, first);
    print_writing::put(out, last, b']')
}

// Modes: `*`, or the labels of a list.
pub fn put_modes(labels: &Labels, family: Family, modes: Modes, out: &mut [u8], at: usize) -> usize
    requires { (labels.now ≡ label_table) × Room at (spell_all (modes_shapes family (modes_in modes))) }
    ensures { Written out.old at
        (spell_all (modes_shapes family (modes_in modes)))
        out.new result }
{
    match modes {
        Modes::Wildcard => print_writing::put(out, at, b'*'),
        Modes::List(packed) => put_chosen(labels, family, packed, out, at),
    }
}
