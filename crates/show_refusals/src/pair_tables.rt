// Tables of pairs, for messages: which pairs of a parameter and a covariate some COVARIATEs bring, and which groups remain of their effects.
// A table says of each pair, group or form whether it is there.
ghost use Rattle.std.specs.Prelude.{◌<◌};

use crate::covariate::Terms;

// There are at most 64 parameters and 64 covariates.
pub const PAIRS: usize = 4096;

pub fn is_marked(table: &[bool], at: usize) -> bool {
    table.get(at).copied().unwrap_or(false)
}

// Marks a place of a table, and answers whether it was not marked.
pub fn mark(table: &mut [bool], at: usize) -> bool {
    match table.get_mut(at) {
        Some(place) if !*place => {
            *place = true;
            true
        }
        _ => false,
    }
}

// The place of a pair.
pub fn pair_of(parameter: u8, covariate: u8) -> usize
    ensures { result < 4096 }
{
    (parameter % 64) as usize * 64 + (covariate % 64) as usize
}

// Marks each pair of a COVARIATE.
pub fn mark_pairs(table: &mut [bool], terms: &Terms) {
    for parameter in terms.parameters.entries() {
        for covariate in terms.covariates.entries() {
            mark(table, pair_of(*parameter, *covariate));
        }
    }
}

// Whether a pair loses its effects: they are of a statement that is not explicit, and one that is has the pair too.
pub fn is_lost(won: &[bool], explicit: bool, pair: usize) -> bool {
    !explicit && is_marked(won, pair)
}

// The first pair of a COVARIATE that a table has and that is not lost.
pub fn shared(table: &[bool], won: &[bool], explicit: bool, terms: &Terms) -> Option<usize> {
    for parameter in terms.parameters.entries() {
        for covariate in terms.covariates.entries() {
            let pair = pair_of(*parameter, *covariate);
            if is_marked(table, pair) && !is_lost(won, explicit, pair) {
                return Some(pair);
            }
        }
    }
    None
}
