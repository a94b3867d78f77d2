// What the COVARIATEs of a text bring, one after the other: the parameters, covariates and forms of each, found by probes, go into tables.
use crate::covariate::{Terms, terms_at};
use crate::pair_tables;
use crate::probes::Probe;
use show_texts::scenes;

// The pairs that COVARIATEs of named parameters bring.
pub fn mark_won(won: &mut [bool], probe: &mut Probe) {
    for statement in scenes::statements_of(probe.text) {
        if let Some(terms) = terms_at(probe, statement.start)
            && terms.explicit
        {
            pair_tables::mark_pairs(won, &terms);
        }
    }
}

// The pair that a statement forces and that an earlier one, which starts at an offset, forces too.
#[derive(Clone, Copy)]
pub struct Forced {
    pub start: usize,
    pub pair: usize,
}

// The first pair that an earlier statement forces and that a table has. It counts unless the one or the other loses it; `own` says if the table
// is of a statement of named parameters.
fn shared_by(mine: &[bool], won: &[bool], own: bool, earlier: &Terms) -> Option<usize> {
    if earlier.optional {
        None
    } else {
        pair_tables::shared(mine, won, earlier.explicit && own, earlier)
    }
}

// The first statement before the one at an index that forces a pair of it; what that one brings is given.
pub fn first_forced(
    won: &[bool],
    probe: &mut Probe,
    index: usize,
    terms: &Terms,
) -> Option<Forced> {
    let mut mine = [false; pair_tables::PAIRS];
    pair_tables::mark_pairs(&mut mine, terms);
    for statement in scenes::statements_of(probe.text).take(index) {
        let start = statement.start;
        if let Some(earlier) = terms_at(probe, start)
            && let Some(pair) = shared_by(&mine, won, terms.explicit, &earlier)
        {
            return Some(Forced { start, pair });
        }
    }
    None
}
