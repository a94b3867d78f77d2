// The PK-only house profile, asked of a text.
#![tactic(auto)]

ghost use Rattle.std.specs.Prelude.{◌≡◌};
ghost use Rattle.tokens.specs.Class.{class_table};
ghost use Rattle.labels.specs.Table.{label_table, keyword_table};
ghost use Rattle.reading_laws.specs.Admitted.{Admitted};
ghost use Rattle.text.specs.Lists.{any};
ghost use Rattle.profiling.specs.Profile.{is_high, high_counts, mark_of, profile_of, profile_text};
ghost use Rattle.read_forms.specs.Items.{items_in};
ghost use Rattle.read_forms.specs.Forms.{values_in, counts_in, statement_in};
ghost use Rattle.read_forms.specs.Fits.{Listed};
ghost use Rattle.read_parts.specs.Apart.{apart};
ghost use Rattle.read_parts.specs.Meaning.{CountsFit, PartFits, PartsFit};
ghost use Rattle.read_space.specs.Space.{Whole, statements_in};
ghost use Rattle.read_space.specs.Fit.{FitAll};
ghost use Rattle.words.specs.Word.{word, Below};
ghost use Rattle.read_profile.specs.Answers.{high_part, mark_as, Numbered, profiled_as, yes_as_zero};

use labels::{Keywords, Labels};
use read_forms::{Counts, Fault, Items, Refusal, Statement};
use read_parts::Part;
use read_space::Space;
use tokens::Classes;

// The highest count that fits.
const HIGHEST: u32 = 10;

// The profile's word for programs in other languages: yes is 0.
pub fn word_of(answer: Result<(), Refusal>) -> u64
    requires { Below (yes_as_zero (profiled_as answer)) }
    ensures { result ≡ word (yes_as_zero (profiled_as answer)) }
{
    match answer {
        Ok(()) => words::word_of(Ok(0)),
        Err(refusal) => words::word_of(Err(refusal)),
    }
}

// What a statement is to the profile: of a feature outside it; of one of the five that may stand once, which one, and whether it has a count
// above 10; or any other.
#[derive(Clone, Copy)]
enum Mark {
    Outside,
    Plain,
    Once(usize, bool),
}

// Whether a list has a count above 10.
fn any_high(text: &[u8], classes: &Classes, items: Items) -> bool
    requires { (classes.now ≡ class_table) × Listed text.now items }
    ensures { result ≡ any is_high (values_in (items_in text.now items)) }
{
    let mut cur = items.first;
    for _done in 0..items.count {
        let entry = read_checks::entry_at(text, classes, cur);
        if HIGHEST < read_lists::count_or_0(text, entry.name) {
            return true;
        }
        cur = read_checks::after_entry(text, classes, entry);
    }
    false
}

// Whether one of these counts is above 10. The highest count of a range is its right end.
fn high_counts(text: &[u8], classes: &Classes, counts: Counts) -> bool
    requires { (classes.now ≡ class_table) × CountsFit text.now counts }
    ensures { result ≡ high_counts (counts_in text.now counts) }
{
    match counts {
        Counts::Single(value) => HIGHEST < value,
        Counts::Range(_, high) => HIGHEST < high,
        Counts::List(items) => any_high(text, classes, items),
    }
}

// Whether an argument has a count above 10. N is no count.
fn high_part(text: &[u8], classes: &Classes, part: Part) -> bool
    requires { (classes.now ≡ class_table) × PartFits text.now part }
    ensures { result ≡ high_part text.now part }
{
    match part {
        Part::Counts(counts) => high_counts(text, classes, counts),
        _ => false,
    }
}

// The mark of a statement, by its keyword's place: the five that may stand once are the first, and DIRECTEFFECT, EFFECTCOMP, INDIRECTEFFECT
// and METABOLITE stand together. Counts are a statement's first argument.
fn mark_of(text: &[u8], classes: &Classes, statement: Statement) -> Mark
    requires { (classes.now ≡ class_table) × PartsFit text.now (apart statement) }
    ensures { (mark_as result ≡ mark_of (statement_in text.now statement)) × Numbered result }
{
    let parts = read_parts::parts_of(statement);
    let keyword = parts.keyword;
    match keyword {
        0..=4 => Mark::Once(keyword, high_part(text, classes, parts.first)),
        7..=10 => Mark::Outside,
        _ => Mark::Plain,
    }
}

fn refused(fault: Fault, index: usize) -> Result<(), Refusal>
    ensures { result ≡ Err (record { fault = fault; place = index }) }
{
    Err(Refusal {
        fault,
        place: index,
    })
}

// The first statement that does not fit, and why.
fn first_fault(text: &[u8], classes: &Classes, space: Space) -> Result<(), Refusal>
    requires { (classes.now ≡ class_table) × Whole space × FitAll text.now space }
    ensures { profiled_as result ≡ profile_of (statements_in text.now space) }
{
    let mut seen = [false; 5];
    for i in 0..space.count {
        match mark_of(text, classes, space.forms[i].statement) {
            Mark::Outside => return refused(Fault::OutsideProfile, i),
            Mark::Plain => {}
            Mark::Once(feature, high) => {
                if seen[feature] {
                    return refused(Fault::SecondStatement, i);
                }
                if high {
                    return refused(Fault::CountAboveTen, i);
                }
                seen[feature] = true;
            }
        }
    }
    Ok(())
}

// What the profile says of a text that is admitted.
fn profile_admitted(
    text: &[u8],
    classes: &Classes,
    labels: &Labels,
    keys: &Keywords,
    limit: u32,
) -> Result<(), Refusal>
    requires { (classes.now ≡ class_table) × (labels.now ≡ label_table) × (keys.now ≡ keyword_table) × Admitted limit text.now }
    ensures { profiled_as result ≡ profile_text limit text.now }
{
    let space = read_space::read_space(text, classes, labels, keys, limit);
    space.ending?;
    first_fault(text, classes, space)
}

// Whether a text fits the profile, or why it does not: the faults of the whole text come before those of the profile.
pub fn profile_under(text: &[u8], limit: u32) -> Result<(), Refusal>
    ensures { profiled_as result ≡ profile_text limit text.now }
{
    read_forms::admit(text, limit)?;
    let classes = tokens::CLASSES;
    let labels = labels::LABELS;
    let keys = labels::KEYWORDS;
    profile_admitted(text, &classes, &labels, &keys, limit)
}
