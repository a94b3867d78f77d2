// A statement's value in words: its keyword, with its `?`, and its arguments. A name is its offset, `+` and its length; modes are places in
// their family; lists stand in brackets; an argument that was left out is `-`.
ghost use Rattle.std.specs.Prelude.{◌≤◌, ◌<◌, length};
ghost use Rattle.labels.specs.Label.{keywords};
ghost use Rattle.read_parts.specs.Apart.{apart};
ghost use Rattle.read_values.specs.Lists.{names_in, counts_in, parts_lists};

use read_forms::{Counts, CovariateOp, Item, Modes, Name, Operand, Statement};
use read_parts::Part;
use read_values::Value;
use replay_lines::output::Output;

fn put_name(out: &mut Output, name: Name) {
    out.put_digits(name.offset);
    out.put(b'+');
    out.put_digits(name.length);
}

// A list in its brackets, each entry written by the function, with a `,` between two.
fn put_list<T, F: Fn(&mut Output, &T)>(out: &mut Output, entries: &[T], put_entry: F)
    requires { F.IsAlwaysCallable put_entry }
{
    out.put_all(b" [");
    for (i, entry) in entries.iter().enumerate() {
        if 0 < i {
            out.put(b',');
        }
        put_entry(out, entry);
    }
    out.put(b']');
}

fn put_names(out: &mut Output, names: &[Item]) {
    put_list(out, names, |out, item| put_name(out, item.name));
}

// The places of a list of modes that is packed into a number (`read_packs`).
fn put_places(out: &mut Output, packed: u32) {
    out.put_all(b" [");
    let mut left = packed;
    while left % 16 != 0 {
        out.put_digits((left % 16 - 1) as usize);
        left /= 16;
        if left % 16 != 0 {
            out.put(b',');
        }
    }
    out.put(b']');
}

fn put_modes(out: &mut Output, modes: Modes) {
    match modes {
        Modes::Wildcard => out.put_all(b" *"),
        Modes::List(packed) => put_places(out, packed),
    }
}

fn put_counts(out: &mut Output, counts: Counts, values: &[u32; 64])
    requires { (counts_in (Part.Counts counts)).count ≤ 64 }
{
    match counts {
        Counts::Single(value) => out.put_number(value as usize),
        Counts::Range(low, high) => {
            out.put_number(low as usize);
            out.put_all(b"..");
            out.put_digits(high as usize);
        }
        Counts::List(items) => put_list(out, &values[..items.count], |out, value| {
            out.put_digits(*value as usize)
        }),
    }
}

fn put_operand(out: &mut Output, operand: Operand, names: &[Item; 64])
    requires { (names_in (Part.Operand operand)).count ≤ 64 }
{
    match operand {
        Operand::Wildcard => out.put_all(b" *"),
        Operand::Symbol(name) => {
            out.put_all(b" @");
            put_name(out, name);
        }
        Operand::Names(items) => put_names(out, &names[..items.count]),
    }
}

// An argument, with the arrays that its list stands in.
fn put_part(out: &mut Output, part: Part, names: &[Item; 64], counts: &[u32; 64])
    requires { ((names_in part).count ≤ 64) × ((counts_in part).count ≤ 64) }
{
    match part {
        Part::Absent => {}
        Part::Modes(_, modes) => put_modes(out, modes),
        Part::Counts(c) => put_counts(out, c, counts),
        Part::N => out.put_all(b" N"),
        Part::Operand(operand) => put_operand(out, operand, names),
        Part::Name(name) => {
            out.put(b' ');
            put_name(out, name);
        }
        Part::Values(items) => put_names(out, &names[..items.count]),
        Part::Op(CovariateOp::Multiply) => out.put_all(b" *"),
        Part::Op(CovariateOp::Add) => out.put_all(b" +"),
        Part::Omitted => out.put_all(b" -"),
    }
}

fn put_keyword(out: &mut Output, place: usize, optional: bool)
    requires { place < length keywords }
{
    out.put(b' ');
    out.put_all(labels::keyword_label(&labels::KEYWORDS, place));
    if optional {
        out.put(b'?');
    }
}

// A statement with the arrays of its value.
pub fn put_statement(out: &mut Output, value: &Value, statement: Statement)
    requires { ((parts_lists (apart statement)).first.count ≤ 64) × ((parts_lists (apart statement)).second.count ≤ 64)
        × ((parts_lists (apart statement)).counts.count ≤ 64) }
{
    let parts = read_parts::parts_of(statement);
    put_keyword(out, parts.keyword, parts.optional);
    put_part(out, parts.first, &value.first, &value.counts);
    put_part(out, parts.second, &value.second, &value.counts);
    put_part(out, parts.third, &value.second, &value.counts);
    put_part(out, parts.fourth, &value.second, &value.counts);
}
