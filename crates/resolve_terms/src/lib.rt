// What a COVARIATE brings: the effects of its parameters, covariates and forms, as terms, a number each.
#![tactic(auto)]

ghost use Rattle.std.specs.Prelude.{◌≡◌, not, [], ◌∷◌, ◌+◌, ◌*◌, ◌≤◌, ◌<◌};
ghost use Rattle.read_packs.specs.Packs.{places};
ghost use Rattle.read_forms.specs.Forms.{modes_in};
ghost use Rattle.text.specs.Lists.{any};
ghost use Rattle.resolving.specs.Effects.{every_form, forms_of, suits as suits·spec};
ghost use Rattle.print_writing.specs.Written.{Room, Written};
ghost use Rattle.resolving.specs.Context.{kind_at};
ghost use Rattle.resolving.specs.Effects.{against};
ghost use Rattle.resolving.specs.Handed.{handed_context};
ghost use Rattle.resolve_context.specs.Lists.{Stands, covariates_of};
ghost use Rattle.resolve_operands.specs.Picked.{Indexes};
ghost use Rattle.resolve_terms.specs.Terms.{kind_in, form_terms, covariate_terms, parameter_terms};

use read_forms::Modes;
use resolve_context::{Kind, Layout};

// One term, where there is room for it, and the index behind it.
fn put_term(terms: &mut [u32], at: usize, term: u32) -> usize
    requires { Room at (term ∷ []) }
    ensures { Written terms.old at (term ∷ []) terms.new result }
{
    let next = at + 1;
    if terms.len() <= at {
        return next;
    }
    terms[at] = term;
    next
}

// The forms of effect `*`, packed: without a block as for a continuous covariate.
fn every_form(kind: Option<Kind>) -> u32
    ensures { places result ≡ every_form (kind_in kind) }
{
    match kind {
        None => resolve_context::every_form(Kind::Continuous),
        Some(kind) => resolve_context::every_form(kind),
    }
}

// The forms of a COVARIATE on a covariate of a kind, packed.
fn forms_of(effects: Modes, kind: Option<Kind>) -> u32
    ensures { places result ≡ forms_of (modes_in effects) (kind_in kind) }
{
    match effects {
        Modes::Wildcard => every_form(kind),
        Modes::List(packed) => packed,
    }
}

// Whether a form suits a covariate: without a block all do.
fn suits(kind: Option<Kind>, form: u32) -> bool
    ensures { result ≡ suits·spec (kind_in kind) form }
{
    match kind {
        None => true,
        Some(kind) => resolve_context::suits(kind, form),
    }
}

// Whether one of the forms is against the kind.
fn has_against(kind: Option<Kind>, packed: u32) -> bool
    ensures { result ≡ any (λ f. not (suits·spec (kind_in kind) f)) (places packed) }
{
    let mut left = packed;
    while left % 16 != 0 {
        if !suits(kind, left % 16 - 1) {
            return true;
        }
        left /= 16;
    }
    false
}

// The terms of a pair: one for each form.
fn put_forms(terms: &mut [u32], at: usize, head: u32, packed: u32) -> usize
    requires { (head ≤ 67200000) × Room at (form_terms head (places packed)) }
    ensures { Written terms.old at (form_terms head (places packed)) terms.new result }
{
    let mut left = packed;
    let mut next = at;
    while left % 16 != 0 {
        next = put_term(terms, next, head + 4 * (left % 16 - 1));
        left /= 16;
    }
    next
}

// The kind of the covariate at an index, where there is a declaration block.
fn kind_of(block: &[u8], lists: &[u32], layout: Layout, index: usize) -> Option<Kind>
    requires { Stands block.now lists.now layout × (index < (covariates_of layout).count) }
    ensures { kind_in result ≡ kind_at (handed_context block.now lists.now) index }
{
    if !layout.declares {
        return None;
    }
    Some(resolve_context::kind_at(lists, layout.declared, index))
}

// Whether a form is against the kind of one of the covariates.
pub fn any_against(
    block: &[u8],
    lists: &[u32],
    layout: Layout,
    covariates: &[u8],
    effects: Modes,
) -> bool
    requires { Stands block.now lists.now layout × Indexes (covariates_of layout).count covariates.now }
    ensures { result ≡ any (against (handed_context block.now lists.now) (modes_in effects)) covariates.now }
{
    for covariate in covariates {
        let kind = kind_of(block, lists, layout, *covariate as usize);
        if has_against(kind, forms_of(effects, kind)) {
            return true;
        }
    }
    false
}

// The terms of a parameter: for each covariate its forms.
fn put_covariates(
    block: &[u8],
    lists: &[u32],
    layout: Layout,
    covariates: &[u8],
    effects: Modes,
    head: u32,
    terms: &mut [u32],
    at: usize,
) -> usize
    requires { Stands block.now lists.now layout × Indexes (covariates_of layout).count covariates.now × (head ≤ 67190000)
        × Room at (covariate_terms (handed_context block.now lists.now) (modes_in effects) head covariates.now) }
    ensures { Written terms.old at
        (covariate_terms (handed_context block.now lists.now) (modes_in effects) head covariates.now)
        terms.new result }
{
    let mut next = at;
    for covariate in covariates {
        let kind = kind_of(block, lists, layout, *covariate as usize);
        let packed = forms_of(effects, kind);
        next = put_forms(terms, next, head + 32 * *covariate as u32, packed);
    }
    next
}

// All terms of a statement: for each parameter those of its covariates.
pub fn put_terms(
    block: &[u8],
    lists: &[u32],
    layout: Layout,
    parameters: &[u8],
    covariates: &[u8],
    effects: Modes,
    head: u32,
    terms: &mut [u32],
    at: usize,
) -> usize
    requires { Stands block.now lists.now layout × Indexes 64 parameters.now × Indexes (covariates_of layout).count covariates.now
        × (head ≤ 67000000)
        × Room at (parameter_terms (handed_context block.now lists.now) (modes_in effects) head parameters.now covariates.now) }
    ensures { Written terms.old at
        (parameter_terms (handed_context block.now lists.now) (modes_in effects) head parameters.now covariates.now)
        terms.new result }
{
    let mut next = at;
    for parameter in parameters {
        let own = head + 2048 * *parameter as u32;
        next = put_covariates(block, lists, layout, covariates, effects, own, terms, next);
    }
    next
}
