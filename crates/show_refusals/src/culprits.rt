// Which operand, name or covariate a statement is refused for, as Resolve itself says of each by itself (`probes`).
use crate::operand_places::{Names, Operand};
use crate::probes::{Picked, Probe, entries_or_none};
use crate::{covariate, effects, operand_places};
use read_forms::Refusal;
use show_texts::scenes;
use tokens::Token;

// What an operand stands for, or why it is refused.
pub fn probe_operand(probe: &mut Probe, operand: Operand) -> Result<Picked, Refusal> {
    let text = probe.text;
    let star = scenes::token_at(text, operand.from).kind == b'*';
    match operand.names {
        Names::Covariates => probe.covariates(operand.of(text)),
        Names::Varied if star => probe.parameters(b"@IIV"),
        _ => probe.parameters(operand.of(text)),
    }
}

// Whether an operand is refused for what its statement is.
fn is_refused(probe: &mut Probe, operand: Operand, refusal: Refusal) -> bool {
    match probe_operand(probe, operand) {
        Ok(_) => false,
        Err(own) => own.fault == refusal.fault,
    }
}

// The operand for which the statement that starts at an offset is refused: its first, or else its covariates.
pub fn refused_of(probe: &mut Probe, start: usize, refusal: Refusal) -> Operand {
    let text = probe.text;
    let first = operand_places::first_of(text, start);
    if !operand_places::has_covariates(text, start) || is_refused(probe, first, refusal) {
        first
    } else {
        operand_places::covariates_of(text, start)
    }
}

// The offset of the first name of an operand that is missing, or of the operand.
fn first_missing(probe: &mut Probe, operand: Operand, refusal: Refusal) -> usize {
    for token in scenes::tokens_between(probe.text, operand.from, operand.to) {
        if token.kind <= tokens::NUMBER && is_refused(probe, operand.alone(token), refusal) {
            return token.start;
        }
    }
    operand.from
}

// The place of the missing name: where it is written, in the statement or in the LET that brings it; or the symbol that does.
pub fn missing_place(probe: &mut Probe, operand: Operand, refusal: Refusal) -> usize {
    let text = probe.text;
    if let Some(start) = operand.find_let(text) {
        first_missing(probe, operand.values_of(text, start), refusal)
    } else if covariate::is_sign(text, operand.from) {
        operand.from
    } else {
        first_missing(probe, operand, refusal)
    }
}

// The covariate that an effect of the COVARIATE which starts at an offset does not suit.
pub fn against_entry(probe: &mut Probe, start: usize) -> usize {
    let text = probe.text;
    let context = probe.context;
    let covariates = operand_places::covariates_of(text, start);
    let picked = entries_or_none(probe_operand(probe, covariates));
    for entry in picked.entries() {
        let entry = *entry as usize;
        if effects::first_against(text, start, context.kind(entry)).is_some() {
            return entry;
        }
    }
    0
}
