// The lines that programs write, put into a page: a refusal's, those of effects and those of notes.
#![tactic(auto)]

ghost use Rattle.std.specs.Prelude.{◌≡◌, true, [], ◌∷◌, ◌++◌, map, ℕ, ◌≤◌, length, get_or};
ghost use Rattle.tokens.specs.Class.{class_table};
ghost use Rattle.counts.specs.Decimal.{digits_of};
ghost use Rattle.labels.specs.Table.{label_table};
ghost use Rattle.resolving.specs.Handed.{is_handed, handed_context};
ghost use Rattle.resolve_context.specs.Lists.{Stands, Sound, names_in};
ghost use Rattle.print_writing.specs.Written.{Room, Written};
ghost use Rattle.read_forms.specs.Faults.{number_of};
ghost use Rattle.lines.specs.Line.{refusal_line};
ghost use Rattle.lines.specs.Effects.{operator_word, optional_word, form_words, effect_line, effect_lines};
ghost use Rattle.lines.specs.Stretches.{stretch_at, word_at, part, line_at};
ghost use Rattle.lines.specs.Notes.{reason_for, index_words, dropped_line, note_line, note_lines_behind};
ghost use Rattle.print_lines.specs.Given.{effect_in, note_of, note_in, stretch_as, stretches_before, stretches_in, ended_by};
ghost use Rattle.print_lines.specs.Asked.{Bounded, lines_in};

use labels::{Family, Labels};
use read_forms::{Fault, Refusal};
use resolve_context::{Layout, Names};
use tokens::{Classes, Cursor, Token};

// The number of a fault.
fn number_of(fault: Fault) -> u8
    ensures { result ≡ number_of fault }
{
    fault as u8
}

// `refused`, number and place with single spaces and a newline, from the page's start on: of any number.
pub fn put_words(page: &mut [u8], number: u8, place: usize) -> usize
    ensures { Written page.old 0 (refusal_line number place) page.new result }
{
    let a = print_writing::put_all(page, 0, b"refused ");
    let b = print_writing::put_number(page, a, number as usize);
    let c = print_writing::put(page, b, b' ');
    let d = print_writing::put_number(page, c, place);
    print_writing::put(page, d, b'\n')
}

// A refusal's line.
pub fn put_refused(page: &mut [u8], refusal: Refusal) -> usize
    ensures { Written page.old 0 (refusal_line (number_of refusal.fault) refusal.place) page.new result }
{
    put_words(page, number_of(refusal.fault), refusal.place)
}

// A name of a context; what is no entry of its list has no bytes.
fn put_name(
    block: &[u8],
    lists: &[u32],
    names: Names,
    index: usize,
    out: &mut [u8],
    at: usize,
) -> usize
    requires { Sound block.now lists.now names × Room at (get_or (names_in block.now lists.now names) index []) }
    ensures { Written out.old at (get_or (names_in block.now lists.now names) index []) out.new result }
{
    if names.count <= index {
        return at;
    }
    let name = resolve_context::name_at(block, lists, names, index);
    print_writing::put_all(out, at, name)
}

fn put_operator(operator: u8, out: &mut [u8], at: usize) -> usize
    requires { Room at (operator_word operator) }
    ensures { Written out.old at (operator_word operator) out.new result }
{
    if operator == 1 {
        return print_writing::put_all(out, at, b" + ");
    }
    print_writing::put_all(out, at, b" * ")
}

fn put_optional(optional: u8, out: &mut [u8], at: usize) -> usize
    requires { Room at (optional_word optional) }
    ensures { Written out.old at (optional_word optional) out.new result }
{
    if optional == 1 {
        return print_writing::put_all(out, at, b"optional\n");
    }
    print_writing::put_all(out, at, b"mandatory\n")
}

// An effect's form, its operator and its mark.
fn put_form(labels: &Labels, effect: [u8; 5], out: &mut [u8], at: usize) -> usize
    requires { (labels.now ≡ label_table) × Room at (form_words (effect_in effect)) }
    ensures { Written out.old at (form_words (effect_in effect)) out.new result }
{
    let [_, _, form, operator, optional] = effect;
    let label = labels::mode_label(labels, Family::CovariateEffect, form as usize);
    let a = print_writing::put_all(out, at, label);
    let b = put_operator(operator, out, a);
    put_optional(optional, out, b)
}

// `CL WT lin * optional`.
fn put_effect(
    block: &[u8],
    lists: &[u32],
    layout: Layout,
    labels: &Labels,
    effect: [u8; 5],
    out: &mut [u8],
    at: usize,
) -> usize
    requires { Stands block.now lists.now layout × (labels.now ≡ label_table)
        × Room at (effect_line (handed_context block.now lists.now) (effect_in effect)) }
    ensures { Written out.old at
        (effect_line (handed_context block.now lists.now) (effect_in effect)) out.new result }
{
    let [parameter, covariate, _, _, _] = effect;
    let a = put_name(block, lists, layout.parameters, parameter as usize, out, at);
    let b = print_writing::put(out, a, b' ');
    let covariates = resolve_context::covariates(layout);
    let c = put_name(block, lists, covariates, covariate as usize, out, b);
    let d = print_writing::put(out, c, b' ');
    put_form(labels, effect, out, d)
}

// Effects in the context that they are of, a line each, from the page's start on. An effect is five bytes, as Resolve leaves it.
pub fn put_effects(block: &[u8], lists: &[u32], effects: &[[u8; 5]], page: &mut [u8]) -> usize
    requires { (is_handed block.now lists.now ≡ true) × (length effects.now ≤ 2048) }
    ensures { Written page.old 0
        (effect_lines (handed_context block.now lists.now) (map effect_in effects.now))
        page.new result }
{
    let labels = labels::LABELS;
    let layout = resolve_context::read_layout(lists);
    let mut at = 0;
    for effect in effects {
        at = put_effect(block, lists, layout, &labels, *effect, page, at);
    }
    at
}

// Where a statement starts and where it ends.
#[derive(Clone, Copy)]
pub struct Stretch {
    pub start: usize,
    pub end: usize,
}

// The first token from an offset on that is no separator: a statement's, or what ends the text.
fn first_from(text: &[u8], classes: &Classes, from: usize) -> Token
    requires { classes.now ≡ class_table }
    ensures { stretches_before text.now from ≡ stretches_in text.now result.start result.next.at }
{
    let mut cur = Cursor { at: from };
    loop {
        let token = cur.token(text, classes);
        if token.kind != b';' {
            return token;
        }
        cur = token.next;
    }
}

// The `)` from an offset on, or what ends the text before there is one.
fn closing_from(text: &[u8], classes: &Classes, from: usize) -> Token
    requires { classes.now ≡ class_table }
    ensures by_index { (a : ℕ) → stretches_in text.now a from ≡ ended_by text.now a result }
    ensures start_in_bounds { result.kind ≡ 41 → result.start ≤ length text.now }
{
    let mut cur = Cursor { at: from };
    loop {
        let token = cur.token(text, classes);
        if token.kind == b')' || token.kind == tokens::BAD || token.kind == tokens::END {
            return token;
        }
        cur = token.next;
    }
}

// The statement at an index; what is none has no bytes. The index is counted down by hand, as the turn that finds the last ends in a value.
fn stretch_at(text: &[u8], classes: &Classes, index: usize) -> Stretch
    requires { (classes.now ≡ class_table) × (length text.now ≤ 16384) }
    ensures { stretch_as result ≡ stretch_at text.now index }
{
    let mut at = 0;
    let mut left = index;
    loop {
        let first = first_from(text, classes, at);
        let last = closing_from(text, classes, first.next.at);
        if last.kind != b')' {
            return Stretch { start: 0, end: 0 };
        }
        if left == 0 {
            return Stretch {
                start: first.start,
                end: last.start + 1,
            };
        }
        at = last.next.at;
        left -= 1;
    }
}

// The line of an offset, from 1.
fn line_at(text: &[u8], offset: usize) -> usize
    requires { length text.now ≤ 16384 }
    ensures { result ≡ line_at text.now offset }
{
    let mut line = 1;
    for byte in &text[..offset.min(text.len())] {
        if *byte == b'\n' {
            line += 1;
        }
    }
    line
}

// The bytes from one offset to another, as far as there are any.
fn part_of(text: &[u8], from: usize, to: usize) -> &[u8]
    ensures { result.now ≡ part text.now from to }
{
    let end = to.min(text.len());
    if end <= from {
        return &text[..0];
    }
    &text[from..end]
}

// The word at an offset; what is none has no bytes.
fn word_at<'a>(text: &'a [u8], classes: &Classes, at: usize) -> &'a [u8]
    requires { classes.now ≡ class_table }
    ensures { result.now ≡ word_at text.now at }
{
    let token = Cursor { at }.token(text, classes);
    if token.kind != tokens::WORD {
        return &text[..0];
    }
    part_of(text, token.start, token.next.at)
}

// Why a statement is dropped, by its keyword.
fn put_reason(keyword: &[u8], out: &mut [u8], at: usize) -> usize
    requires { Room at (reason_for keyword.now) }
    ensures { Written out.old at (reason_for keyword.now) out.new result }
{
    if labels::same_word(keyword, b"COVARIATE") {
        return print_writing::put_all(
            out,
            at,
            b"dropped, for its parameters or its covariates stand for nothing in this model: ",
        );
    }
    if labels::same_word(keyword, b"COVARIANCE") {
        return print_writing::put_all(
            out,
            at,
            b"dropped, for it has fewer than two parameters in this model: ",
        );
    }
    print_writing::put_all(
        out,
        at,
        b"dropped, for its parameters stand for nothing in this model: ",
    )
}

// `statement INDEX, line LINE: `.
fn put_index(text: &[u8], index: usize, start: usize, out: &mut [u8], at: usize) -> usize
    requires { (length text.now ≤ 16384) × Room at (index_words text.now index start) }
    ensures { Written out.old at (index_words text.now index start) out.new result }
{
    let line = line_at(text, start);
    let a = print_writing::put_all(out, at, b"statement ");
    let b = print_writing::put_number(out, a, index);
    let c = print_writing::put_all(out, b, b", line ");
    let d = print_writing::put_number(out, c, line);
    print_writing::put_all(out, d, b": ")
}

// A statement that is dropped: which it is, why, and the statement as it is written.
fn put_dropped(
    text: &[u8],
    classes: &Classes,
    index: usize,
    stretch: Stretch,
    out: &mut [u8],
    at: usize,
) -> usize
    requires { (classes.now ≡ class_table) × (length text.now ≤ 16384) × Room at (dropped_line text.now index (stretch_as stretch)) }
    ensures { Written out.old at (dropped_line text.now index (stretch_as stretch)) out.new result }
{
    let a = put_index(text, index, stretch.start, out, at);
    let keyword = word_at(text, classes, stretch.start);
    let b = put_reason(keyword, out, a);
    let part = part_of(text, stretch.start, stretch.end);
    let c = print_writing::put_all(out, b, part);
    print_writing::put(out, c, b'\n')
}

// A note. That some effects are additive is said of no one statement.
fn put_note(
    text: &[u8],
    classes: &Classes,
    reason: u8,
    index: u8,
    out: &mut [u8],
    at: usize,
) -> usize
    requires { (classes.now ≡ class_table) × (length text.now ≤ 16384) × Room at (note_line text.now (note_of reason index)) }
    ensures { Written out.old at (note_line text.now (note_of reason index)) out.new result }
{
    if reason == 0 {
        let stretch = stretch_at(text, classes, index as usize);
        return put_dropped(text, classes, index as usize, stretch, out, at);
    }
    print_writing::put_all(
        out,
        at,
        b"some effects are additive (+): each adds to its parameter and is null where its coefficient is 0\n",
    )
}

// Notes about a text, a line each, behind a word, from the page's start on.
pub fn put_notes(text: &[u8], notes: &[[u8; 2]], word: &[u8], page: &mut [u8]) -> usize
    requires { (length text.now ≤ 16384) × (length notes.now ≤ 257) × (length word.now ≤ 100) }
    ensures { Written page.old 0
        (note_lines_behind word.now text.now (map note_in notes.now))
        page.new result }
{
    let classes = tokens::CLASSES;
    let mut at = 0;
    for note in notes {
        let behind = print_writing::put_all(page, at, word);
        let [reason, index] = *note;
        at = put_note(text, &classes, reason, index, page, behind);
    }
    at
}

// A ground text and a newline, from the page's start on.
pub fn put_ground(ground: &[u8], page: &mut [u8]) -> usize
    requires { length ground.now ≤ 16384 }
    ensures { Written page.old 0 (ground.now ++ (10 ∷ [])) page.new result }
{
    let a = print_writing::put_all(page, 0, ground);
    print_writing::put(page, a, b'\n')
}

// What is asked for of a text that resolves: what an argument or a request line says, so an enum and no closure.
#[derive(Clone, Copy)]
pub enum Asked {
    Ground,
    Effects,
    Notes,
}

// What was asked for, of what Resolve left in its outputs, from the page's start on.
pub fn put_asked(
    asked: Asked,
    text: &[u8],
    block: &[u8],
    lists: &[u32],
    ground: &[u8],
    effects: &[[u8; 5]],
    notes: &[[u8; 2]],
    page: &mut [u8],
) -> usize
    requires { Bounded text.now block.now lists.now ground.now effects.now notes.now }
    ensures { Written page.old 0
        (lines_in asked text.now block.now lists.now
        ground.now effects.now notes.now)
        page.new result }
{
    match asked {
        Asked::Ground => put_ground(ground, page),
        Asked::Effects => put_effects(block, lists, effects, page),
        Asked::Notes => put_notes(text, notes, b"", page),
    }
}
