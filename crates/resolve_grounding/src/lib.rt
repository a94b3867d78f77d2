// Ground statements: what stays of a statement with its modes `*` made whole, with names of the context in place of an operand, and the
// COVARIATEs that stand for groups of effects.
#![tactic(auto)]

ghost use Rattle.std.specs.Prelude.{◌≡◌, true, List, [], ◌∷◌, ◌++◌, map, ℕ, ◌+◌, ◌*◌, ◌≤◌, ◌<◌, length, get_or};
ghost use Rattle.text.specs.Bytes.{count_up};
ghost use Rattle.tokens.specs.Spelling.{spell_all};
ghost use Rattle.labels.specs.Label.{labels_of, keywords};
ghost use Rattle.labels.specs.Table.{label_table, keyword_table};
ghost use Rattle.canonical.specs.Canonical.{operand_shapes, statement_shapes};
ghost use Rattle.read_packs.specs.Packs.{places};
ghost use Rattle.read_forms.specs.Forms.{modes_in};
ghost use Rattle.print_writing.specs.Written.{Room, Written};
ghost use Rattle.resolving.specs.Brought.{whole, listed};
ghost use Rattle.resolving.specs.Handed.{handed_context};
ghost use Rattle.resolve_context.specs.Lists.{Sound, Stands, names_in, covariates_of};
ghost use Rattle.resolve_operands.specs.Picked.{Indexes};
ghost use Rattle.resolve_grounding.specs.Whole.{WholePart, WholeParts};
ghost use Rattle.resolve_grounding.specs.Listed.{listed_bytes, either_bytes, variable_bytes};
ghost use Rattle.resolve_grounding.specs.Groups.{group_statement, sign_bytes};

use labels::{Family, Keywords, Labels};
use read_forms::Modes;
use read_parts::{Part, Parts};
use resolve_context::{Layout, Names};

// All modes of a family, packed.
fn whole_family(family: Family) -> u32
    ensures { places result ≡ count_up 0 (length (labels_of family)) }
{
    match family {
        Family::AbsorptionMode => 0x54321,
        Family::EliminationMode => 0x4321,
        Family::PeripheralKind => 0x21,
        Family::DepotMode => 0x21,
        Family::LagtimeMode => 0x21,
        Family::CovariateEffect => 0x7654321,
        Family::PdMode => 0x54321,
        Family::ProductionMode => 0x21,
        Family::MetaboliteMode => 0x21,
        Family::VariabilityEffect => 0x54321,
        Family::VariabilityLevel => 0x21,
    }
}

// Modes with `*` made the family's whole list.
pub fn whole_modes(family: Family, modes: Modes) -> Modes
    ensures { modes_in result ≡ whole family (modes_in modes) }
{
    match modes {
        Modes::Wildcard => Modes::List(whole_family(family)),
        Modes::List(packed) => Modes::List(packed),
    }
}

fn whole_part(part: Part) -> Part
    ensures { WholePart part result }
{
    match part {
        Part::Modes(family, modes) => Part::Modes(family, whole_modes(family, modes)),
        _ => part,
    }
}

// A statement's parts with all its modes made whole.
pub fn whole_parts(parts: Parts) -> Parts
    ensures { WholeParts parts result }
{
    Parts {
        first: whole_part(parts.first),
        second: whole_part(parts.second),
        third: whole_part(parts.third),
        fourth: whole_part(parts.fourth),
        ..parts
    }
}

// The names of a list at indexes, with a `,` between two.
fn put_names_at(
    block: &[u8],
    lists: &[u32],
    names: Names,
    list: &[u8],
    out: &mut [u8],
    at: usize,
) -> usize
    requires { Sound block.now lists.now names × Indexes names.count list.now
        × Room at (listed_bytes (names_in block.now lists.now names) list.now) }
    ensures { Written out.old at
        (listed_bytes (names_in block.now lists.now names) list.now)
        out.new result }
{
    let mut next = at;
    for (i, index) in list.iter().enumerate() {
        let name = resolve_context::name_at(block, lists, names, *index as usize);
        next = print_writing::put_all(out, next, name);
        next = print_parts::put_comma(out, next, list.len() - i);
    }
    next
}

// The names of a list at indexes: one bare, all others in their brackets.
fn put_listed(
    block: &[u8],
    lists: &[u32],
    names: Names,
    list: &[u8],
    out: &mut [u8],
    at: usize,
) -> usize
    requires { Sound block.now lists.now names × Indexes names.count list.now
        × Room at (spell_all (operand_shapes (listed (names_in block.now lists.now names) list.now))) }
    ensures { Written out.old at
        (spell_all (operand_shapes (listed (names_in block.now lists.now names) list.now)))
        out.new result }
{
    if list.len() == 1 {
        return put_names_at(block, lists, names, list, out, at);
    }
    let first = print_writing::put(out, at, b'[');
    let last = put_names_at(block, lists, names, list, out, first);
    print_writing::put(out, last, b']')
}

// One of two arguments: the names, or the modes.
fn put_either(
    block: &[u8],
    lists: &[u32],
    labels: &Labels,
    names: Names,
    list: &[u8],
    family: Family,
    modes: Modes,
    named: bool,
    out: &mut [u8],
    at: usize,
) -> usize
    requires { (labels.now ≡ label_table) × Sound block.now lists.now names × Indexes names.count list.now
        × Room at (either_bytes (names_in block.now lists.now names) list.now family (modes_in modes) named) }
    ensures { Written out.old at
        (either_bytes (names_in block.now lists.now names) list.now family (modes_in modes) named)
        out.new result }
{
    if named {
        return put_listed(block, lists, names, list, out, at);
    }
    print_parts::put_modes(labels, family, modes, out, at)
}

// A statement of names and modes, the names first or last.
pub fn put_variables(
    block: &[u8],
    lists: &[u32],
    labels: &Labels,
    keys: &Keywords,
    keyword: usize,
    optional: bool,
    names: Names,
    list: &[u8],
    family: Family,
    modes: Modes,
    named: bool,
    out: &mut [u8],
    at: usize,
) -> usize
    requires { (labels.now ≡ label_table) × (keys.now ≡ keyword_table) × Sound block.now lists.now names × Indexes names.count list.now
        × (keyword < length keywords)
        × Room at (variable_bytes keyword optional (names_in block.now lists.now names) list.now family (modes_in modes) named) }
    ensures { Written out.old at
        (variable_bytes keyword optional (names_in block.now lists.now names) list.now family (modes_in modes) named)
        out.new result }
{
    let inside = print_statements::put_head(keys, keyword, optional, out, at);
    let first = put_either(
        block, lists, labels, names, list, family, modes, named, out, inside,
    );
    let comma = print_writing::put(out, first, b',');
    let second = put_either(
        block, lists, labels, names, list, family, modes, !named, out, comma,
    );
    print_writing::put(out, second, b')')
}

// Of the operators only `+`, behind its `,`.
fn put_sign(operator: u32, out: &mut [u8], at: usize) -> usize
    requires { Room at (sign_bytes operator) }
    ensures { Written out.old at (sign_bytes operator) out.new result }
{
    if operator == 0 {
        return at;
    }
    let plus = print_writing::put(out, at, b',');
    print_writing::put(out, plus, b'+')
}

// The ground COVARIATE of a group: a parameter, a covariate, the forms, packed, the operator and the optional mark. It is written piece by
// piece: no `Parts` are made and taken apart again.
pub fn put_group(
    block: &[u8],
    lists: &[u32],
    labels: &Labels,
    keys: &Keywords,
    layout: Layout,
    parameter: usize,
    covariate: usize,
    packed: u32,
    operator: u32,
    optional: u32,
    out: &mut [u8],
    at: usize,
) -> usize
    requires { (labels.now ≡ label_table) × (keys.now ≡ keyword_table) × Stands block.now lists.now layout
        × (parameter < layout.parameters.count) × (covariate < (covariates_of layout).count)
        × Room at (spell_all (statement_shapes
        (group_statement (handed_context block.now lists.now) parameter covariate (places packed) operator optional))) }
    ensures { Written out.old at
        (spell_all (statement_shapes
        (group_statement (handed_context block.now lists.now) parameter covariate (places packed) operator optional)))
        out.new result }
{
    let inside = print_statements::put_head(keys, 5, optional != 0, out, at);
    let one = print_writing::put_all(
        out,
        inside,
        resolve_context::name_at(block, lists, layout.parameters, parameter),
    );
    let comma = print_writing::put(out, one, b',');
    let two = print_writing::put_all(
        out,
        comma,
        resolve_context::name_at(block, lists, resolve_context::covariates(layout), covariate),
    );
    let again = print_writing::put(out, two, b',');
    let three = print_parts::put_modes(
        labels,
        Family::CovariateEffect,
        Modes::List(packed),
        out,
        again,
    );
    let four = put_sign(operator, out, three);
    print_writing::put(out, four, b')')
}
