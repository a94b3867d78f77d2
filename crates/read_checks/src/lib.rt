// What an argument is taken for: modes of a family, counts, a parameter or covariate operand, names. The argument comes from the text, and
// its lists are read again from there.
#![tactic(auto)]

ghost use Rattle.std.specs.Prelude.{◌≡◌, Bool, true, List, [], ◌∷◌, map, ℕ, ◌≤◌, length};
ghost use Rattle.text.specs.Bytes.{bytes};
ghost use Rattle.tokens.specs.Class.{class_table};
ghost use Rattle.tokens.specs.Next.{cursor};
ghost use Rattle.std.proofs.Math.Option.{some};
ghost use Rattle.labels.specs.Word.{same_word, find};
ghost use Rattle.labels.specs.Label.{labels_of};
ghost use Rattle.labels.specs.Table.{label_table, found_as};
ghost use Rattle.reading.specs.Statement.{a_word, a_number};
ghost use Rattle.reading.specs.Argument.{array, place_of, lone_mode, lone_count, count_list, modes_of, counts_of, operand_of, items_of};
ghost use Rattle.reading.specs.Feature.{is_n, operator_of, name_of};
ghost use Rattle.read_forms.specs.Items.{tokens_from, name_in, items_in, listed};
ghost use Rattle.read_forms.specs.Forms.{arg_in, values_in, modes_in, counts_in, operand_in, op_as};
ghost use Rattle.read_forms.specs.Fits.{InText, Listed, Stands, Fits};
ghost use Rattle.read_forms.specs.declared.Fault.TheVariants.{WrongArgument};
ghost use Rattle.read_forms.specs.Faults.{answered};
ghost use Rattle.read_checks.specs.Answers.{NextEntry, goes_on, kind_of, of_word, modes_listed};

use labels::{Family, Labels};
use read_forms::{Arg, Counts, CovariateOp, Fault, Items, Kind, Modes, Name, Operand, Refusal};
use tokens::{Classes, Cursor};

// An entry of a list: what it is, its name, and the cursor behind it.
#[derive(Clone, Copy)]
pub struct Entry {
    pub kind: Kind,
    pub name: Name,
    pub next: Cursor,
}

// What a token of a list is as an entry.
fn kind_of(kind: u8) -> Kind
    ensures { result ≡ kind_of kind }
{
    if kind == tokens::NUMBER {
        return Kind::Number;
    }
    Kind::Word
}

fn is_word(kind: Kind) -> bool
    ensures { result ≡ of_word kind }
{
    match kind {
        Kind::Word => true,
        Kind::Number => false,
    }
}

// The entry that stands at the cursor, or after the blanks there. No other function that goes over a list knows how many tokens an entry has. It
// and `after_entry` are two, and small, so that the compiler puts both into each loop: one that reads the entry and the `,` stays a call, which
// costs a tenth of Print on a text of long lists.
pub fn entry_at(text: &[u8], classes: &Classes, cur: Cursor) -> Entry
    requires { (classes.now ≡ class_table) × (listed 1 (tokens_from text.now cur.at) ≡ true) }
    ensures { NextEntry text.now cur.at result }
{
    let token = cur.token(text, classes);
    let next = token.next;
    let name = Name {
        offset: token.start,
        length: next.at - token.start,
    };
    Entry {
        kind: kind_of(token.kind),
        name,
        next,
    }
}

// The cursor from which the entry behind this one is read: behind the `,`, or behind whatever stands at the list's end.
pub fn after_entry(text: &[u8], classes: &Classes, entry: Entry) -> Cursor
    requires { classes.now ≡ class_table }
    ensures { result.at ≡ goes_on text.now entry }
{
    let end = entry.next;
    let comma = end.token(text, classes);
    comma.next
}

// A name's bytes looked up in a family.
pub fn mode_at(text: &[u8], labels: &Labels, family: Family, name: Name) -> Option<usize>
    requires { (labels.now ≡ label_table) × InText text.now name }
    ensures { result ≡ found_as (find (name_in text.now name).spelling (labels_of family)) }
{
    labels::find_mode(labels, family, read_forms::spelling(text, name))
}

// A list as modes of a family, each once.
fn listed_modes(
    text: &[u8],
    classes: &Classes,
    labels: &Labels,
    family: Family,
    items: Items,
) -> Result<Modes, Refusal>
    requires { (classes.now ≡ class_table) × (labels.now ≡ label_table) × Listed text.now items }
    ensures { answered modes_in result ≡ modes_listed family (items_in text.now items) }
{
    let mut cur = items.first;
    let mut packed = 0;
    for _done in 0..items.count {
        let entry = entry_at(text, classes, cur);
        let name = entry.name;
        let Some(place) = mode_at(text, labels, family, name) else {
            return Err(Refusal {
                fault: Fault::UnknownMode,
                place: name.offset,
            });
        };
        packed = read_packs::with_place(packed, place as u32);
        cur = after_entry(text, classes, entry);
    }
    Ok(Modes::List(packed))
}

// An argument of a wrong kind, refused at its offset.
fn wrong(at: usize) -> Refusal
    ensures { result ≡ record { fault = WrongArgument; place = at } }
{
    Refusal {
        fault: Fault::WrongArgument,
        place: at,
    }
}

// The offset of an argument's first byte.
pub fn place_of(arg: Arg) -> usize
    ensures { (s : List ℕ) → result ≡ place_of (arg_in s arg) }
{
    match arg {
        Arg::Star(at) => at,
        Arg::Plus(at) => at,
        Arg::Symbol { at, name: _ } => at,
        Arg::Word(name) => name.offset,
        Arg::Number(name) => name.offset,
        Arg::Range {
            at,
            low: _,
            high: _,
        } => at,
        Arg::Array { at, items: _ } => at,
    }
}

// An argument as modes of a family: a word, an array that is not empty, or `*`.
pub fn modes_of(
    text: &[u8],
    classes: &Classes,
    labels: &Labels,
    family: Family,
    arg: Arg,
) -> Result<Modes, Refusal>
    requires { (classes.now ≡ class_table) × (labels.now ≡ label_table) × Fits text.now arg }
    ensures { answered modes_in result ≡ modes_of family (arg_in text.now arg) }
{
    match arg {
        Arg::Star(_) => Ok(Modes::Wildcard),
        Arg::Word(name) => lone_mode(text, labels, family, name),
        Arg::Array { at, items } => {
            if items.count == 0 {
                return Err(wrong(at));
            }
            listed_modes(text, classes, labels, family, items)
        }
        _ => Err(wrong(place_of(arg))),
    }
}

// A word alone as a mode of a family: it is looked up as it stands.
fn lone_mode(text: &[u8], labels: &Labels, family: Family, name: Name) -> Result<Modes, Refusal>
    requires { (labels.now ≡ label_table) × InText text.now name }
    ensures { answered modes_in result ≡ lone_mode family a_word (name_in text.now name) }
{
    let Some(place) = mode_at(text, labels, family, name) else {
        return Err(Refusal {
            fault: Fault::UnknownMode,
            place: name.offset,
        });
    };
    Ok(Modes::List(place as u32 + 1))
}

// Whether each entry of the array whose `[` stands at `bracket` is a count.
fn check_counts(
    text: &[u8],
    classes: &Classes,
    bracket: usize,
    items: Items,
    limit: u32,
) -> Result<(), Refusal>
    requires { (classes.now ≡ class_table) × Listed text.now items }
    ensures { answered (λ (_ : Unit). values_in (items_in text.now items)) result ≡ count_list limit bracket (items_in text.now items) }
{
    let mut cur = items.first;
    for _done in 0..items.count {
        let entry = entry_at(text, classes, cur);
        if is_word(entry.kind) {
            return Err(wrong(bracket));
        }
        read_forms::judge_count(text, entry.name, limit)?;
        cur = after_entry(text, classes, entry);
    }
    Ok(())
}

// An argument as counts: a number, a range, or an array of numbers that is not empty.
pub fn counts_of(text: &[u8], classes: &Classes, arg: Arg, limit: u32) -> Result<Counts, Refusal>
    requires { (classes.now ≡ class_table) × Fits text.now arg }
    ensures { answered (counts_in text.now) result ≡ counts_of limit (arg_in text.now arg) }
{
    match arg {
        Arg::Number(name) => lone_count(text, name, limit),
        Arg::Range { at: _, low, high } => Ok(Counts::Range(low, high)),
        Arg::Array { at, items } => listed_counts(text, classes, at, items, limit),
        _ => Err(wrong(place_of(arg))),
    }
}

// A number alone as a count.
fn lone_count(text: &[u8], name: Name, limit: u32) -> Result<Counts, Refusal>
    requires { InText text.now name }
    ensures { answered (counts_in text.now) result ≡ lone_count limit a_number (name_in text.now name) }
{
    let value = read_forms::judge_count(text, name, limit)?;
    Ok(Counts::Single(value))
}

// An array as counts.
fn listed_counts(
    text: &[u8],
    classes: &Classes,
    at: usize,
    items: Items,
    limit: u32,
) -> Result<Counts, Refusal>
    requires { (classes.now ≡ class_table) × Listed text.now items }
    ensures { answered (counts_in text.now) result ≡ counts_of limit (array at (items_in text.now items)) }
{
    if items.count == 0 {
        return Err(wrong(at));
    }
    check_counts(text, classes, at, items, limit)?;
    Ok(Counts::List(items))
}

// A word or a number alone as a list: its one entry is read from where it stands.
fn alone(name: Name) -> Items
    ensures { result ≡ record { first = cursor name.offset; count = 1 } }
{
    Items {
        first: Cursor { at: name.offset },
        count: 1,
    }
}

// An argument as parameters or covariates: names, a symbol, or `*`. It holds in every text where the argument does.
pub fn operand_of(arg: Arg) -> Result<Operand, Refusal>
    ensures { (s : List ℕ) → Fits s arg → answered (operand_in s) result ≡ operand_of (arg_in s arg) }
{
    match arg {
        Arg::Star(_) => Ok(Operand::Wildcard),
        Arg::Symbol { at: _, name } => Ok(Operand::Symbol(name)),
        Arg::Word(name) => Ok(Operand::Names(alone(name))),
        Arg::Number(name) => Ok(Operand::Names(alone(name))),
        Arg::Array { at, items } => {
            if items.count == 0 {
                return Err(wrong(at));
            }
            Ok(Operand::Names(items))
        }
        _ => Err(wrong(place_of(arg))),
    }
}

// An argument as the values of a LET.
pub fn items_of(arg: Arg) -> Result<Items, Refusal>
    ensures { (s : List ℕ) → Fits s arg → answered (items_in s) result ≡ items_of (arg_in s arg) }
{
    match arg {
        Arg::Word(name) => Ok(alone(name)),
        Arg::Number(name) => Ok(alone(name)),
        Arg::Array { at, items } => {
            if items.count == 0 {
                return Err(wrong(at));
            }
            Ok(items)
        }
        _ => Err(wrong(place_of(arg))),
    }
}

// An argument that must be a word.
pub fn word_of(arg: Arg) -> Result<Name, Refusal>
    ensures { (s : List ℕ) → answered (name_in s) result ≡ name_of a_word (arg_in s arg) }
{
    match arg {
        Arg::Word(name) => Ok(name),
        _ => Err(wrong(place_of(arg))),
    }
}

// An argument that must be a number, as written.
pub fn number_of(arg: Arg) -> Result<Name, Refusal>
    ensures { (s : List ℕ) → answered (name_in s) result ≡ name_of a_number (arg_in s arg) }
{
    match arg {
        Arg::Number(name) => Ok(name),
        _ => Err(wrong(place_of(arg))),
    }
}

// An operator that is given: `+` or `*`.
pub fn op_of(arg: Arg) -> Result<CovariateOp, Refusal>
    ensures { (s : List ℕ) → answered op_as result ≡ operator_of (some (arg_in s arg)) }
{
    match arg {
        Arg::Star(_) => Ok(CovariateOp::Multiply),
        Arg::Plus(_) => Ok(CovariateOp::Add),
        _ => Err(wrong(place_of(arg))),
    }
}

// Whether a name is the word N, which TRANSITS takes for a count that is estimated.
fn spells_n(text: &[u8], name: Name) -> bool
    requires { InText text.now name }
    ensures { result ≡ same_word (name_in text.now name).spelling (bytes "N") }
{
    if name.length != 1 {
        return false;
    }
    let at = name.offset;
    let b = text[at];
    if b == b'N' {
        return true;
    }
    b == b'n'
}

pub fn is_n(text: &[u8], arg: Arg) -> bool
    requires { Fits text.now arg }
    ensures { result ≡ is_n (arg_in text.now arg) }
{
    match arg {
        Arg::Word(name) => spells_n(text, name),
        Arg::Number(name) => spells_n(text, name),
        Arg::Star(_) => false,
        Arg::Plus(_) => false,
        Arg::Symbol { at: _, name: _ } => false,
        Arg::Range {
            at: _,
            low: _,
            high: _,
        } => false,
        Arg::Array { at: _, items: _ } => false,
    }
}
