// How large a space is that is refused by 18: its effects before merging, and its ground statements.
use crate::covariate::terms_at;
use crate::pair_tables::PAIRS;
use crate::probes::{Probe, entries_or_none};
use crate::{culprits, form_tables, operand_places, pair_probes};
use show_texts::keywords::Keyword;
use show_texts::scenes;

// How many effects a text has before merging.
pub fn all_effects(probe: &mut Probe) -> usize {
    let mut n = 0usize;
    for statement in scenes::statements_of(probe.text) {
        if let Some(terms) = terms_at(probe, statement.start) {
            n = n.saturating_add(terms.count_effects(probe.context));
        }
    }
    n
}

// The forms that the statements of a text force.
fn all_forced(forced: &mut [bool], won: &[bool], probe: &mut Probe) {
    for statement in scenes::statements_of(probe.text) {
        if let Some(terms) = terms_at(probe, statement.start)
            && !terms.optional
        {
            form_tables::force_all(forced, won, probe.context, &terms);
        }
    }
}

// The groups of a text.
fn all_groups(forced: &[bool], won: &[bool], probe: &mut Probe) -> usize {
    let mut groups = [false; 4 * 4096];
    let mut n = 0usize;
    for statement in scenes::statements_of(probe.text) {
        if let Some(terms) = terms_at(probe, statement.start) {
            let more = form_tables::group_all(&mut groups, forced, won, probe.context, &terms);
            n = n.saturating_add(more);
        }
    }
    n
}

// Whether the first operand of a statement stands for so many parameters.
fn has_parameters(probe: &mut Probe, start: usize, least: usize) -> bool {
    let operand = operand_places::first_of(probe.text, start);
    let picked = entries_or_none(culprits::probe_operand(probe, operand));
    least <= picked.entries().len()
}

// Whether the statement that starts at an offset stays as one ground statement.
fn stays(probe: &mut Probe, start: usize) -> bool {
    match scenes::keyword_at(probe.text, start) {
        None | Some(Keyword::Covariate | Keyword::Let) => false,
        Some(Keyword::Iiv | Keyword::Iov) => has_parameters(probe, start, 1),
        Some(Keyword::Covariance) => has_parameters(probe, start, 2),
        Some(_) => true,
    }
}

// How many statements of a text stay as one ground statement each.
fn all_stays(probe: &mut Probe) -> usize {
    let mut n = 0usize;
    for statement in scenes::statements_of(probe.text) {
        if stays(probe, statement.start) {
            n = n.saturating_add(1);
        }
    }
    n
}

// How many ground statements a text has.
pub fn ground_statements(probe: &mut Probe) -> usize {
    let mut won = [false; PAIRS];
    let mut forced = [false; 16 * 4096];
    pair_probes::mark_won(&mut won, probe);
    all_forced(&mut forced, &won, probe);
    all_stays(probe).saturating_add(all_groups(&forced, &won, probe))
}
