// What a COVARIATE puts into the tables of pairs, covariate by covariate.
use crate::covariate::{self, Terms};
use crate::pair_forms;
use crate::pair_tables::pair_of;
use show_contexts::context_names::Context;

// The forms that a COVARIATE forces.
pub fn force_all(forced: &mut [bool], won: &[bool], context: Context, terms: &Terms) {
    for covariate in terms.covariates.entries() {
        let kind = covariate::kind_of(context, *covariate);
        for parameter in terms.parameters.entries() {
            pair_forms::force_pair(forced, won, kind, terms, pair_of(*parameter, *covariate));
        }
    }
}

// The groups that a COVARIATE adds: how many are new.
pub fn group_all(
    groups: &mut [bool],
    forced: &[bool],
    won: &[bool],
    context: Context,
    terms: &Terms,
) -> usize {
    let mut n = 0usize;
    for covariate in terms.covariates.entries() {
        let kind = covariate::kind_of(context, *covariate);
        for parameter in terms.parameters.entries() {
            let pair = pair_of(*parameter, *covariate);
            if pair_forms::group_pair(groups, forced, won, kind, terms, pair) {
                n = n.saturating_add(1);
            }
        }
    }
    n
}
