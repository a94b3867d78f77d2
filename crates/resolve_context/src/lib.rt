// A context as it is handed over: a block of name bytes and one run of numbers. It is checked once; then its lists are read in place.
#![tactic(auto)]

ghost use Rattle.std.specs.Prelude.{◌≡◌, ◌+◌, ◌*◌, ◌≤◌, ◌<◌, ℕ, Bool, List, [], length, get_or, true};
ghost use Rattle.std.proofs.Math.Option.{some};
ghost use Rattle.tokens.specs.Class.{class_table};
ghost use Rattle.tokens.specs.Spelling.{is_name};
ghost use Rattle.labels.specs.Word.{same_word};
ghost use Rattle.text.specs.Lists.{same_bytes, place_in};
ghost use Rattle.resolving.specs.Context.{kind_number};
ghost use Rattle.resolving.specs.Effects.{every_form, is_cat, suits as suits·spec};
ghost use Rattle.resolving.specs.Given.{is_entry, kind_of};
ghost use Rattle.resolving.specs.Handed.{pair_of, past_all, is_handed};
ghost use Rattle.read_packs.specs.Packs.{places};
ghost use Rattle.read_forms.specs.Items.{name_in};
ghost use Rattle.read_forms.specs.Fits.{InText};
ghost use Rattle.resolve_context.specs.Lists.{layout_of, checked_as, found_as, Sound, InRun, names_in, kinds_in, both_of, variables_of, covariates_of};
ghost use Rattle.resolve_context.specs.Kinds.{kind_as};
ghost use Rattle.resolve_context.specs.Lists.{mark_fits, heads_fit, order_of, kinds_fit, lists_fit};

use read_forms::Name;
use tokens::{Classes, Cursor};

// A list of names in the run: the index of the first entry's offset, how many entries there are, and how many numbers each has.
#[derive(Clone, Copy)]
pub struct Names {
    pub start: usize,
    pub count: usize,
    pub step: usize,
}

// Where the lists stand. The roles of a template stand at its start, and its variables two numbers later.
#[derive(Clone, Copy)]
pub struct Layout {
    pub parameters: Names,
    pub iiv: Names,
    pub template: Names,
    pub declared: Names,
    pub columns: Names,
    pub templated: bool,
    pub declares: bool,
}

// The kind of a covariate, by its number in the run. A `match` on it has an arm for each kind and no default, so that one kind more shows every place
// that goes by kinds.
#[derive(Clone, Copy, PartialEq, Eq)]
pub enum Kind {
    Continuous = 0,
    Categorical = 1,
}

// Any number but 0 stands for the second kind.
impl From<u32> for Kind {
    ghost from_gives = { λ number kind. kind_as kind ≡ kind_of number };

    fn from(number: u32) -> Self {
        if number == 0 {
            Kind::Continuous
        } else {
            Kind::Categorical
        }
    }
}

// The number of a kind in the run.
pub fn number_of(kind: Kind) -> u32
    ensures { result ≡ kind_number (kind_as kind) }
{
    kind as u32
}

// Whether all the bytes together are one word or one number.
pub fn is_name(name: &[u8], classes: &Classes) -> bool
    requires { classes.now ≡ class_table }
    ensures { result ≡ is_name name.now }
{
    if name.is_empty() || classes[name[0] as usize] < 8 {
        return false;
    }
    let c = Cursor::new();
    let token = c.token(name, classes);
    let next = token.next;
    next.at == name.len()
}

// Whether an offset and a length are a name of the block.
fn is_entry(block: &[u8], classes: &Classes, offset: usize, size: usize) -> bool
    requires { classes.now ≡ class_table }
    ensures { result ≡ is_entry block.now (pair_of offset size) }
{
    1 <= size
        && size <= 32
        && size <= block.len()
        && offset <= block.len() - size
        && is_name(&block[offset..offset + size], classes)
}

// A template's roles and variables as one list.
fn both_of(names: Names) -> Names
    requires { names.count ≤ 64 }
    ensures { result ≡ both_of names }
{
    Names {
        count: 2 * names.count,
        step: 2,
        ..names
    }
}

// A template's variables, each behind its role.
pub fn variables_of(names: Names) -> Names
    requires { names.start ≤ 1000 }
    ensures { result ≡ variables_of names }
{
    Names {
        start: names.start + 2,
        ..names
    }
}

// The list that covariates are held to.
pub fn covariates(layout: Layout) -> Names
    ensures { result ≡ covariates_of layout }
{
    if layout.declares {
        return layout.declared;
    }
    layout.columns
}

// The index behind a list of pairs.
fn past(names: Names) -> usize
    requires { (names.count ≤ 64) × (names.start ≤ 1000) }
    ensures { result ≡ names.start + 2 * names.count }
{
    names.start + 2 * names.count
}

// Whether a list is sorted by offset without overlap, and each of its entries a name.
fn in_order(block: &[u8], classes: &Classes, lists: &[u32], names: Names) -> bool
    requires { (classes.now ≡ class_table) × InRun lists.now names }
    ensures { result ≡ order_of block.now lists.now names }
{
    let mut end = 0;
    for i in 0..names.count {
        let at = names.start + names.step * i;
        let offset = lists[at] as usize;
        let size = lists[at + 1] as usize;
        if !is_entry(block, classes, offset, size) {
            return false;
        }
        if offset < end {
            return false;
        }
        end = offset + size;
    }
    true
}

// Whether each kind is 0 or 1.
fn kinds_fit(lists: &[u32], names: Names) -> bool
    requires { names.start + 3 * names.count ≤ length lists.now }
    ensures { result ≡ kinds_fit lists.now names }
{
    for i in 0..names.count {
        if 1 < lists[names.start + 3 * i + 2] {
            return false;
        }
    }
    true
}

// Whether two names are equal, byte for byte.
pub fn same_bytes(left: &[u8], right: &[u8]) -> bool
    ensures { result ≡ same_bytes left.now right.now }
{
    left == right
}

// Where the name of an entry stands in the block.
pub fn pair_at(block: &[u8], lists: &[u32], names: Names, index: usize) -> Name
    requires { (index < names.count) × Sound block.now lists.now names }
    ensures { InText block.now result
        × ((name_in block.now result).spelling ≡ get_or (names_in block.now lists.now names) index []) }
{
    let at = names.start + names.step * index;
    Name {
        offset: lists[at] as usize,
        length: lists[at + 1] as usize,
    }
}

// The name of an entry, as a part of the block.
pub fn name_at<'a>(block: &'a [u8], lists: &[u32], names: Names, index: usize) -> &'a [u8]
    requires { (index < names.count) × Sound block.now lists.now names }
    ensures { result.now ≡ get_or (names_in block.now lists.now names) index [] }
{
    let pair = pair_at(block, lists, names, index);
    let start = pair.offset;
    let end = start + pair.length;
    &block[start..end]
}

// The place of the first entry that passes a test.
fn first<F: Fn(&[u8]) -> bool>(block: &[u8], lists: &[u32], names: Names, test: F) -> Option<usize>
    requires { F.IsAlwaysCallable test × Sound block.now lists.now names }
    ensures { (p : List ℕ → Bool) → ((w : _) (b : Bool) → F.post test w b → b ≡ p w.now)
        → result ≡ found_as (place_in p (names_in block.now lists.now names)) }
{
    for i in 0..names.count {
        if test(name_at(block, lists, names, i)) {
            return Some(i);
        }
    }
    None
}

// The place of the first entry that has these bytes.
pub fn index_of(block: &[u8], lists: &[u32], names: Names, name: &[u8]) -> Option<usize>
    requires { Sound block.now lists.now names }
    ensures { result ≡ found_as (place_in (same_bytes name.now) (names_in block.now lists.now names)) }
{
    first(block, lists, names, |entry| same_bytes(name, entry))
}

// The place of the first entry that is the same word, ignoring case: a template's variable among the parameters.
pub fn match_of(block: &[u8], lists: &[u32], names: Names, word: &[u8]) -> Option<usize>
    requires { Sound block.now lists.now names }
    ensures { result ≡ found_as (place_in (same_word word.now) (names_in block.now lists.now names)) }
{
    first(block, lists, names, |entry| labels::same_word(word, entry))
}

// The kind of a declared covariate.
pub fn kind_at(lists: &[u32], names: Names, index: usize) -> Kind
    requires { (index < names.count) × (names.start + 3 * names.count ≤ length lists.now) }
    ensures { kind_as result ≡ kind_of (get_or (kinds_in lists.now names) index 0) }
{
    Kind::from(lists[names.start + 3 * index + 2])
}

// The forms of effect `*` on a covariate of a kind, packed: the four of CONTINUOUS, or Cat.
pub fn every_form(kind: Kind) -> u32
    ensures { places result ≡ every_form (some (kind_as kind)) }
{
    match kind {
        Kind::Continuous => 0x4321,
        Kind::Categorical => 0x5,
    }
}

fn is_cat(form: u32) -> bool
    ensures { result ≡ is_cat form }
{
    form == 4 || form == 5
}

// Cat and Cat2 suit categorical covariates, the other forms continuous ones.
pub fn suits(kind: Kind, form: u32) -> bool
    ensures { result ≡ suits·spec (some (kind_as kind)) form }
{
    match kind {
        Kind::Continuous => !is_cat(form),
        Kind::Categorical => is_cat(form),
    }
}

// A mark is 0 or 1, and without it a list is empty.
fn mark_fits(mark: u32, count: u32) -> bool
    ensures { result ≡ mark_fits mark count }
{
    mark == 1 || mark == 0 && count == 0
}

// Whether the counts and the marks are as they should be: at most 64 entries each, and none without a mark.
fn heads_fit(lists: &[u32]) -> bool
    ensures { result ≡ heads_fit lists.now }
{
    7 <= lists.len()
        && lists[..5].iter().all(|count| *count <= 64)
        && mark_fits(lists[5], lists[2])
        && mark_fits(lists[6], lists[3])
}

// The lists stand one behind the other, behind the counts and the marks.
pub fn read_layout(lists: &[u32]) -> Layout
    requires { heads_fit lists.now ≡ true }
    ensures { result ≡ layout_of lists.now }
{
    let parameters = lists[0] as usize;
    let iiv = lists[1] as usize;
    let template = lists[2] as usize;
    let declared = lists[3] as usize;
    let columns = lists[4] as usize;
    let second = 7 + 2 * parameters;
    let third = second + 2 * iiv;
    let fourth = third + 4 * template;
    let fifth = fourth + 3 * declared;
    Layout {
        parameters: Names {
            start: 7,
            count: parameters,
            step: 2,
        },
        iiv: Names {
            start: second,
            count: iiv,
            step: 2,
        },
        template: Names {
            start: third,
            count: template,
            step: 4,
        },
        declared: Names {
            start: fourth,
            count: declared,
            step: 3,
        },
        columns: Names {
            start: fifth,
            count: columns,
            step: 2,
        },
        templated: lists[5] == 1,
        declares: lists[6] == 1,
    }
}

// Whether each list is in order, and each kind 0 or 1.
fn lists_stand(block: &[u8], classes: &Classes, lists: &[u32], layout: Layout) -> bool
    requires { (classes.now ≡ class_table) × (layout ≡ layout_of lists.now)
        × (heads_fit lists.now ≡ true) × (past_all lists.now ≡ length lists.now) }
    ensures { result ≡ lists_fit block.now lists.now }
{
    in_order(block, classes, lists, layout.parameters)
        && in_order(block, classes, lists, layout.iiv)
        && in_order(block, classes, lists, both_of(layout.template))
        && in_order(block, classes, lists, layout.declared)
        && in_order(block, classes, lists, layout.columns)
        && kinds_fit(lists, layout.declared)
}

// Whether what is handed over is a context.
fn stands(block: &[u8], classes: &Classes, lists: &[u32]) -> bool
    requires { classes.now ≡ class_table }
    ensures { result ≡ is_handed block.now lists.now }
{
    if 16384 < block.len() || !heads_fit(lists) {
        return false;
    }
    let layout = read_layout(lists);
    past(layout.columns) == lists.len() && lists_stand(block, classes, lists, layout)
}

// The context's lists, if it is as it should be.
pub fn check(block: &[u8], classes: &Classes, lists: &[u32]) -> Option<Layout>
    requires { classes.now ≡ class_table }
    ensures { result ≡ checked_as block.now lists.now }
{
    if stands(block, classes, lists) {
        return Some(read_layout(lists));
    }
    None
}
