// What a symbol stands for. "A symbol is looked up among the LETs, then among the built-ins of `builtin`, ignoring ASCII case." What is found
// is a source of names; each of its names is a pair into the text or into the context's block before it becomes an index (`resolve_operands`).
#![tactic(auto)]

ghost use Rattle.std.specs.Prelude.{◌≡◌, cond, map, ◌+◌, ◌*◌, ◌≤◌, ◌<◌, length, Some, None};
ghost use Rattle.std.proofs.Math.Option.{some};
ghost use Rattle.labels.specs.Word.{same_word};
ghost use Rattle.text.specs.Lists.{any, keep, same_bytes};
ghost use Rattle.resolving.specs.Builtins as builtins;
ghost use Rattle.resolving.specs.Builtins.{absorption_roles, distribution_roles};
ghost use Rattle.resolving.specs.Symbols.{definition, look_up};
ghost use Rattle.read_forms.specs.Items.{name_in, items_in};
ghost use Rattle.read_forms.specs.Fits.{InText, Listed};
ghost use Rattle.resolve_context.specs.Lists.{Stands, found_as, list_at};
ghost use Rattle.resolve_symbols.specs.Lets.{key_at, values_at, definition_at, definitions_in, last_let, has_key, LetsFit, LetPut};
ghost use Rattle.resolve_symbols.specs.Sources.{role_of, LookedFits, Means, MeansAnywhere};
ghost use Rattle.resolve_symbols.specs.Brings.{list_of, is_iiv, parameter_at, from_template, brings, FoundBelow, Matches, Yields};

use read_forms::{Items, Name};
use resolve_context::{Kind, Layout, Names, name_at, pair_at, same_bytes};
use tokens::Cursor;

// The roles of a template that a built-in takes.
#[derive(Clone, Copy)]
pub enum Roles {
    Every,
    Absorption,
    Elimination,
    Distribution,
    Bioavail,
}

// A list of the context, and which of its entries are taken.
#[derive(Clone, Copy)]
pub enum Listing {
    Iiv,
    Template(Roles),
    TemplateIiv,
    Nothing,
    Declared(Kind),
    Covariates,
}

// What an operand or a symbol stands for: values that are written in the text, or names of the context that was given.
#[derive(Clone, Copy)]
pub enum Source {
    Values(Items),
    Given(Listing),
}

// A name before it is an index: a pair into the text or into the context's block, by its mark; or nothing, where an entry brings none.
#[derive(Clone, Copy)]
pub enum Named {
    Text(Name),
    Block(Name),
    Nothing,
}

// Puts a LET behind the first n.
pub fn put_let(text: &[u8], lets: &mut [u32], n: usize, name: Name, values: Items)
    requires { LetsFit text.now lets.old n × (n < 256) × (4 * (n + 1) ≤ length lets.old)
        × (length text.now ≤ 16384) × InText text.now name × Listed text.now values }
    ensures { LetPut text.now lets.old lets.new n
        (definition (name_in text.now name) (items_in text.now values)) }
{
    let first = values.first;
    let cursor = first.at.min(text.len());
    let at = 4 * n;
    lets[at] = name.offset as u32;
    lets[at + 1] = name.length as u32;
    lets[at + 2] = cursor as u32;
    lets[at + 3] = values.count as u32;
}

// The key of a LET, as a part of the text.
fn key_at<'a>(text: &'a [u8], lets: &[u32], k: usize) -> &'a [u8]
    requires { (4 * (k + 1) ≤ length lets.now) × InText text.now (key_at lets.now k) }
    ensures { result.now ≡ (definition_at text.now lets.now k).key }
{
    let start = lets[4 * k] as usize;
    let end = start + lets[4 * k + 1] as usize;
    &text[start..end]
}

// The values of a LET.
fn values_at(lets: &[u32], k: usize) -> Items
    requires { 4 * (k + 1) ≤ length lets.now }
    ensures { result ≡ values_at lets.now k }
{
    let at = lets[4 * k + 2] as usize;
    let count = lets[4 * k + 3] as usize;
    Items {
        first: Cursor { at },
        count,
    }
}

// The last of the first n LETs whose key the word is, ignoring case.
fn find_let(text: &[u8], lets: &[u32], n: usize, word: &[u8]) -> Option<usize>
    requires { LetsFit text.now lets.now n }
    ensures { result ≡ found_as (last_let text.now lets.now n word.now) }
{
    for k in (0..n).rev() {
        if labels::same_word(word, key_at(text, lets, k)) {
            return Some(k);
        }
    }
    None
}

// Whether one of the first n LETs has the key, ignoring case.
pub fn has_let(text: &[u8], lets: &[u32], n: usize, key: Name) -> bool
    requires { LetsFit text.now lets.now n × InText text.now key }
    ensures { result ≡ has_key (definitions_in text.now lets.now n) (name_in text.now key).spelling }
{
    find_let(text, lets, n, read_forms::spelling(text, key)).is_some()
}

// A built-in of this name, if what it needs is there; for any other word, the other answer.
fn if_word(
    word: &[u8],
    name: &[u8],
    there: bool,
    listing: Listing,
    other: Option<Source>,
) -> Option<Source>
    ensures { result ≡ cond (same_word word.now name.now) (cond there (Some (Source.Given listing)) None) other }
{
    if !labels::same_word(word, name) {
        return other;
    }
    if there {
        Some(Source::Given(listing))
    } else {
        None
    }
}

// A built-in by its name. The tests are made from the last to the first, as no two names are the same.
fn builtin(layout: Layout, word: &[u8]) -> Option<Source>
    ensures { MeansAnywhere layout result (λ c. builtins.builtin c word.now) }
{
    let block = layout.declares;
    let template = layout.templated;
    let r = None;
    let r = if_word(
        word,
        b"CATEGORICAL",
        block,
        Listing::Declared(Kind::Categorical),
        r,
    );
    let r = if_word(
        word,
        b"CONTINUOUS",
        block,
        Listing::Declared(Kind::Continuous),
        r,
    );
    let r = if_word(
        word,
        b"BIOAVAIL",
        template,
        Listing::Template(Roles::Bioavail),
        r,
    );
    let r = if_word(
        word,
        b"DISTRIBUTION",
        template,
        Listing::Template(Roles::Distribution),
        r,
    );
    let r = if_word(
        word,
        b"ELIMINATION",
        template,
        Listing::Template(Roles::Elimination),
        r,
    );
    let r = if_word(
        word,
        b"ABSORPTION",
        template,
        Listing::Template(Roles::Absorption),
        r,
    );
    let r = if_word(word, b"PD_IIV", true, Listing::Nothing, r);
    let r = if_word(word, b"PD", true, Listing::Nothing, r);
    let r = if_word(word, b"PK_IIV", template, Listing::TemplateIiv, r);
    let r = if_word(word, b"PK", template, Listing::Template(Roles::Every), r);
    if_word(word, b"IIV", true, Listing::Iiv, r)
}

// What a symbol stands for: the last LET of that key, or the built-in.
pub fn look_up(text: &[u8], lets: &[u32], n: usize, layout: Layout, word: &[u8]) -> Option<Source>
    requires { LetsFit text.now lets.now n }
    ensures { LookedFits text.now result × Means text.now layout result
        (λ c. look_up c (map some (definitions_in text.now lets.now n)) word.now) }
{
    let Some(k) = find_let(text, lets, n, word) else {
        return builtin(layout, word);
    };
    Some(Source::Values(values_at(lets, k)))
}

// Whether a role is one of a built-in's. Roles are equal byte for byte.
fn is_absorption(role: &[u8]) -> bool
    ensures { result ≡ any (same_bytes role.now) absorption_roles }
{
    same_bytes(role, b"ka")
        | same_bytes(role, b"n")
        | same_bytes(role, b"mtt")
        | same_bytes(role, b"mat")
        | same_bytes(role, b"cv2")
        | same_bytes(role, b"lagtime")
        | same_bytes(role, b"alag")
        | same_bytes(role, b"tlag")
}

fn is_distribution(role: &[u8]) -> bool
    ensures { result ≡ any (same_bytes role.now) distribution_roles }
{
    same_bytes(role, b"v")
        | same_bytes(role, b"v1")
        | same_bytes(role, b"v2")
        | same_bytes(role, b"v3")
        | same_bytes(role, b"q")
        | same_bytes(role, b"q2")
        | same_bytes(role, b"q3")
}

fn has_role(roles: Roles, role: &[u8]) -> bool
    ensures { result ≡ role_of roles role.now }
{
    match roles {
        Roles::Every => true,
        Roles::Absorption => is_absorption(role),
        Roles::Elimination => same_bytes(role, b"cl"),
        Roles::Distribution => is_distribution(role),
        Roles::Bioavail => same_bytes(role, b"f"),
    }
}

// The place of the parameter that a variable of the template matches, if its role is one of these.
fn of_template(
    block: &[u8],
    lists: &[u32],
    layout: Layout,
    roles: Roles,
    index: usize,
) -> Option<usize>
    requires { Stands block.now lists.now layout × (index < layout.template.count) }
    ensures { Matches block.now lists.now layout
        (from_template block.now lists.now layout roles index) result }
{
    let template = layout.template;
    let role = name_at(block, lists, template, index);
    if !has_role(roles, role) {
        return None;
    }
    let variable = name_at(block, lists, resolve_context::variables_of(template), index);
    resolve_context::match_of(block, lists, layout.parameters, variable)
}

// The place of a parameter that was found, if it is an IIV parameter too.
fn if_iiv(block: &[u8], lists: &[u32], layout: Layout, found: Option<usize>) -> Option<usize>
    requires { Stands block.now lists.now layout × FoundBelow layout.parameters.count found }
    ensures { Matches block.now lists.now layout
        (keep (is_iiv block.now lists.now layout) (parameter_at block.now lists.now layout found)) result }
{
    let place = found?;
    let name = name_at(block, lists, layout.parameters, place);
    resolve_context::index_of(block, lists, layout.iiv, name)?;
    Some(place)
}

// The name of a parameter that was found.
fn parameter(block: &[u8], lists: &[u32], layout: Layout, found: Option<usize>) -> Named
    requires { Stands block.now lists.now layout × FoundBelow layout.parameters.count found }
    ensures { Yields block.now (parameter_at block.now lists.now layout found) result }
{
    match found {
        Some(place) => Named::Block(pair_at(block, lists, layout.parameters, place)),
        None => Named::Nothing,
    }
}

// A declared covariate, if it is of the kind.
fn of_kind(block: &[u8], lists: &[u32], layout: Layout, kind: Kind, index: usize) -> Named
    requires { Stands block.now lists.now layout × (index < layout.declared.count) }
    ensures { Yields block.now (brings block.now lists.now layout (Listing.Declared kind) index) result }
{
    let declared = layout.declared;
    if kind == resolve_context::kind_at(lists, declared, index) {
        return Named::Block(pair_at(block, lists, declared, index));
    }
    Named::Nothing
}

// A list with no entries.
fn no_list() -> Names
    ensures { result ≡ list_at 0 0 2 }
{
    Names {
        start: 0,
        count: 0,
        step: 2,
    }
}

// The list whose entries are taken.
pub fn list_of(layout: Layout, listing: Listing) -> Names
    ensures { result ≡ list_of layout listing }
{
    match listing {
        Listing::Iiv => layout.iiv,
        Listing::Template(roles) => layout.template,
        Listing::TemplateIiv => layout.template,
        Listing::Nothing => no_list(),
        Listing::Declared(kind) => layout.declared,
        Listing::Covariates => resolve_context::covariates(layout),
    }
}

// What an entry of the list brings.
pub fn bring(block: &[u8], lists: &[u32], layout: Layout, listing: Listing, index: usize) -> Named
    requires { Stands block.now lists.now layout × (index < (list_of layout listing).count) }
    ensures { Yields block.now (brings block.now lists.now layout listing index) result }
{
    match listing {
        Listing::Iiv => Named::Block(pair_at(block, lists, layout.iiv, index)),
        Listing::Template(roles) => {
            let found = of_template(block, lists, layout, roles, index);
            parameter(block, lists, layout, found)
        }
        Listing::TemplateIiv => {
            let found = of_template(block, lists, layout, Roles::Every, index);
            parameter(block, lists, layout, if_iiv(block, lists, layout, found))
        }
        Listing::Nothing => Named::Nothing,
        Listing::Declared(kind) => of_kind(block, lists, layout, kind, index),
        Listing::Covariates => {
            let names = resolve_context::covariates(layout);
            Named::Block(pair_at(block, lists, names, index))
        }
    }
}
