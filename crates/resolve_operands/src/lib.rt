// An operand as indexes of the context's entries. "Each resolved list keeps first occurrences. Each name in one, written or brought by a symbol
// or `*`, is held by 15 to the list that written names are held to there." The indexes stand in an array that the caller lends.
#![tactic(auto)]

ghost use Rattle.std.specs.Prelude.{◌≡◌, true, cond, [], ◌∷◌, ◌+◌, ◌≤◌, ◌<◌, length, take};
ghost use Rattle.tokens.specs.Class.{class_table};
ghost use Rattle.reading.specs.Answer.{accepted};
ghost use Rattle.resolving.specs.Operands.{held};
ghost use Rattle.resolving.specs.Handed.{is_handed, handed_context};
ghost use Rattle.read_parts.specs.Meaning.{OperandFits};
ghost use Rattle.resolve_context.specs.Lists.{names_in, Sound, Stands, covariates_of, layout_of};
ghost use Rattle.resolve_symbols.specs.Lets.{LetsFit};
ghost use Rattle.resolve_symbols.specs.Sources.{source_list, SourceFits, LookedFits};
ghost use Rattle.resolve_operands.specs.Picked.{with_index};
ghost use Rattle.resolve_symbols.specs.Brings.{named_as, NamedFits};
ghost use Rattle.resolve_operands.specs.Named.{extent_of, EntryAt, NameHere, PlacedAs};
ghost use Rattle.resolve_operands.specs.Entries.{EntriesAs, target_of, StandsFor, operand_names, parameters_in, covariates_in};

use read_forms::{Fault, Items, Operand};
use resolve_context::{Layout, Names};
use resolve_symbols::{Listing, Named, Source};
use tokens::{Classes, Cursor};

// What an entry of a source brings, and the cursor behind it where it stands in the text.
#[derive(Clone, Copy)]
struct NextName {
    named: Named,
    next: Cursor,
}

// One index more, unless it stands there already; and how many there are then.
fn push_index(indexes: &mut [u8; 64], count: usize, index: u8) -> usize
    requires { (length indexes.old ≡ 64) × (count < 64) }
    ensures { (length indexes.new ≡ 64) × (take result indexes.new ≡ with_index (take count indexes.old) index)
        × (result ≤ count + 1) }
{
    if indexes[..count].contains(&index) {
        return count;
    }
    indexes[count] = index;
    count + 1
}

// Where the entries of a source start, if they stand in the text, and how many there are.
fn extent_of(layout: Layout, source: Source) -> Items
    ensures { result ≡ extent_of layout source }
{
    match source {
        Source::Values(items) => items,
        Source::Given(listing) => {
            let names = resolve_symbols::list_of(layout, listing);
            Items {
                first: Cursor { at: 0 },
                count: names.count,
            }
        }
    }
}

// What an entry of a source brings. One that stands in the text is read where the one before it ended.
fn next_name(
    text: &[u8],
    classes: &Classes,
    block: &[u8],
    lists: &[u32],
    layout: Layout,
    source: Source,
    index: usize,
    cur: Cursor,
) -> NextName
    requires { (classes.now ≡ class_table) × Stands block.now lists.now layout × SourceFits text.now source
        × (index < (extent_of layout source).count) × EntryAt text.now source index cur.at }
    ensures { NameHere text.now block.now lists.now layout source index result }
{
    match source {
        Source::Values(items) => {
            let entry = read_checks::entry_at(text, classes, cur);
            let name = entry.name;
            let next = read_checks::after_entry(text, classes, entry);
            NextName {
                named: Named::Text(name),
                next,
            }
        }
        Source::Given(listing) => NextName {
            named: resolve_symbols::bring(block, lists, layout, listing, index),
            next: cur,
        },
    }
}

// Where a word stands in a list: the place of its first entry, or the fault that it has none.
fn place_of_word(
    block: &[u8],
    lists: &[u32],
    target: Names,
    word: &[u8],
) -> Result<Option<usize>, Fault>
    requires { Sound block.now lists.now target }
    ensures { PlacedAs (names_in block.now lists.now target) (word.now ∷ []) result }
{
    match resolve_context::index_of(block, lists, target, word) {
        Some(place) => Ok(Some(place)),
        None => Err(Fault::UnknownName),
    }
}

// Where a name stands in a list, if there is one, or the fault that it has no entry. It is spelled in the text or in the block, by its mark.
fn place_of(
    text: &[u8],
    block: &[u8],
    lists: &[u32],
    target: Names,
    named: Named,
) -> Result<Option<usize>, Fault>
    requires { Sound block.now lists.now target × NamedFits text.now block.now named }
    ensures { PlacedAs (names_in block.now lists.now target) (named_as text.now block.now named) result }
{
    match named {
        Named::Text(name) => place_of_word(block, lists, target, read_forms::spelling(text, name)),
        Named::Block(name) => {
            place_of_word(block, lists, target, read_forms::spelling(block, name))
        }
        Named::Nothing => Ok(None),
    }
}

// The names of a source, each held to a list as it is brought, unless one is not there. So no array of pairs is made of them. How many indexes there
// are in the array that is lent.
fn hold(
    text: &[u8],
    classes: &Classes,
    block: &[u8],
    lists: &[u32],
    layout: Layout,
    source: Source,
    target: Names,
    indexes: &mut [u8; 64],
) -> Result<usize, Fault>
    requires { (classes.now ≡ class_table) × Stands block.now lists.now layout × SourceFits text.now source
        × Sound block.now lists.now target × (length indexes.old ≡ 64) }
    ensures { EntriesAs target.count (held (names_in block.now lists.now target)
        (accepted (source_list (handed_context block.now lists.now) text.now source))) indexes.new result }
{
    let extent = extent_of(layout, source);
    let mut n = 0;
    let mut cur = extent.first;
    for i in 0..extent.count {
        let here = next_name(text, classes, block, lists, layout, source, i, cur);
        cur = here.next;
        let found = place_of(text, block, lists, target, here.named)?;
        if let Some(place) = found {
            n = push_index(indexes, n, place as u8);
        }
    }
    Ok(n)
}

// The list that names are held to: that of covariates, or the parameters.
fn target_of(layout: Layout, every: bool) -> Names
    ensures { result ≡ target_of layout every }
{
    if every {
        return resolve_context::covariates(layout);
    }
    layout.parameters
}

// What an operand stands for. `*` is every covariate, or the word `star` is looked up: "Covariate `*` is every declared covariate, or the data
// columns where there is no block." "Parameter `*` looks up PK for COVARIATE and IIV, and IIV for IOV and COVARIANCE".
// The word is a part of the text or `star`, so the two have one lifetime.
fn source_of<'a>(
    text: &'a [u8],
    lets: &[u32],
    n: usize,
    layout: Layout,
    star: &'a [u8],
    every: bool,
    operand: Operand,
) -> Option<Source>
    requires { LetsFit text.now lets.now n × OperandFits text.now operand }
    ensures { LookedFits text.now result
        × StandsFor text.now layout result
        (operand_names text.now lets.now n star.now every operand) }
{
    let word = match operand {
        Operand::Names(items) => return Some(Source::Values(items)),
        Operand::Symbol(name) => read_forms::spelling(text, name),
        Operand::Wildcard => {
            if every {
                return Some(Source::Given(Listing::Covariates));
            }
            star
        }
    };
    resolve_symbols::look_up(text, lets, n, layout, word)
}

// The covariates of an operand if `every`, or its parameters.
fn operand_entries<'a>(
    text: &'a [u8],
    classes: &Classes,
    block: &[u8],
    lists: &[u32],
    lets: &[u32],
    n: usize,
    star: &'a [u8],
    every: bool,
    operand: Operand,
    indexes: &mut [u8; 64],
) -> Result<usize, Fault>
    requires { (classes.now ≡ class_table) × (is_handed block.now lists.now ≡ true) × LetsFit text.now lets.now n
        × OperandFits text.now operand × (length indexes.old ≡ 64) }
    ensures { EntriesAs (target_of (layout_of lists.now) every).count (cond every
        (covariates_in text.now lets.now n block.now lists.now operand)
        (parameters_in text.now lets.now n block.now lists.now star.now operand))
        indexes.new result }
{
    let layout = resolve_context::read_layout(lists);
    let target = target_of(layout, every);
    let Some(source) = source_of(text, lets, n, layout, star, every, operand) else {
        return Err(Fault::UnknownSymbol);
    };
    hold(text, classes, block, lists, layout, source, target, indexes)
}

// The parameters of an operand, as indexes of the context's: how many there are in the array that is lent, or the fault for which there are none.
pub fn parameters_of<'a>(
    text: &'a [u8],
    classes: &Classes,
    block: &[u8],
    lists: &[u32],
    lets: &[u32],
    n: usize,
    star: &'a [u8],
    operand: Operand,
    indexes: &mut [u8; 64],
) -> Result<usize, Fault>
    requires { (classes.now ≡ class_table) × (is_handed block.now lists.now ≡ true) × LetsFit text.now lets.now n
        × OperandFits text.now operand × (length indexes.old ≡ 64) }
    ensures { EntriesAs (layout_of lists.now).parameters.count
        (parameters_in text.now lets.now n block.now lists.now star.now operand)
        indexes.new result }
{
    operand_entries(
        text, classes, block, lists, lets, n, star, false, operand, indexes,
    )
}

// The covariates of an operand, as indexes of the list that covariates are held to.
pub fn covariates_of(
    text: &[u8],
    classes: &Classes,
    block: &[u8],
    lists: &[u32],
    lets: &[u32],
    n: usize,
    operand: Operand,
    indexes: &mut [u8; 64],
) -> Result<usize, Fault>
    requires { (classes.now ≡ class_table) × (is_handed block.now lists.now ≡ true) × LetsFit text.now lets.now n
        × OperandFits text.now operand × (length indexes.old ≡ 64) }
    ensures { EntriesAs (covariates_of (layout_of lists.now)).count
        (covariates_in text.now lets.now n block.now lists.now operand) indexes.new result }
{
    operand_entries(
        text, classes, block, lists, lets, n, b"", true, operand, indexes,
    )
}
