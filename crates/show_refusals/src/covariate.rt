// A COVARIATE's parameters and covariates, its forms, and how it is marked.
use crate::effects;
use crate::probes::{Picked, Probe, entries_or_none};
use resolve_context::Kind;
use show_contexts::context_names::Context;
use show_texts::keywords::Keyword;
use show_texts::scenes;

// The forms of an effect.
pub const FORMS: usize = 7;

// What a COVARIATE brings: its parameters and covariates; which forms it names; whether its parameters are names, it is optional, its operator
// is `+`, and its effects are `*`.
#[derive(Clone, Copy)]
pub struct Terms {
    pub parameters: Picked,
    pub covariates: Picked,
    forms: [bool; FORMS],
    pub explicit: bool,
    pub optional: bool,
    pub additive: bool,
    star: bool,
}

// Whether a form is among those that are packed in a number.
fn is_packed(packed: u32, form: usize) -> bool {
    (0..8u32).any(|place| (packed >> (4 * place)) as usize % 16 == form.saturating_add(1))
}

impl Terms {
    // Whether a form is among those for a covariate of a kind.
    pub fn has_form(&self, kind: Kind, form: usize) -> bool {
        if self.star {
            is_packed(resolve_context::every_form(kind), form)
        } else {
            self.forms.get(form).copied().unwrap_or(false)
        }
    }

    // How many forms there are for a covariate of a kind.
    fn forms_for(&self, kind: Kind) -> usize {
        (0..FORMS).filter(|form| self.has_form(kind, *form)).count()
    }

    // How many effects there are: for each parameter, those of each covariate.
    pub fn count_effects(&self, context: Context) -> usize {
        let mut each = 0usize;
        for covariate in self.covariates.entries() {
            each = each.saturating_add(self.forms_for(kind_of(context, *covariate)));
        }
        each.saturating_mul(self.parameters.entries().len())
    }
}

// The kind of a covariate, as far as `*` goes by it.
pub fn kind_of(context: Context, covariate: u8) -> Kind {
    if context.has_block() {
        context.kind(covariate as usize)
    } else {
        Kind::Continuous
    }
}

// Whether an argument is a symbol or `*`.
pub fn is_sign(text: &[u8], from: usize) -> bool {
    matches!(scenes::token_at(text, from).kind, b'@' | b'*')
}

fn is_kind(text: &[u8], from: usize, kind: u8) -> bool {
    scenes::token_at(text, from).kind == kind
}

// The forms that the statement which starts at an offset names.
fn forms_of(text: &[u8], start: usize) -> [bool; FORMS] {
    let mut forms = [false; FORMS];
    let from = scenes::argument_start(text, start, 2);
    let to = scenes::argument_end(text, from);
    for token in scenes::tokens_between(text, from, to) {
        if let Some(effect) = effects::effect_of(text, token)
            && let Some(form) = forms.get_mut(effect)
        {
            *form = true;
        }
    }
    forms
}

// What the statement that starts at an offset brings; any other than a COVARIATE brings nothing.
pub fn terms_at(probe: &mut Probe, start: usize) -> Option<Terms> {
    let text = probe.text;
    if scenes::keyword_at(text, start) != Some(Keyword::Covariate) {
        return None;
    }
    let first = scenes::argument_start(text, start, 0);
    let parameters = entries_or_none(probe.parameters(scenes::argument(text, start, 0)));
    let covariates = entries_or_none(probe.covariates(scenes::argument(text, start, 1)));
    Some(Terms {
        parameters,
        covariates,
        forms: forms_of(text, start),
        explicit: !is_sign(text, first),
        optional: is_kind(text, scenes::token_at(text, start).next.at, b'?'),
        additive: is_kind(text, scenes::argument_start(text, start, 3), b'+'),
        star: is_kind(text, scenes::argument_start(text, start, 2), b'*'),
    })
}
