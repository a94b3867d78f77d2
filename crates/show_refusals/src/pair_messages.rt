// Why a text is refused by 17 or 18, in words: the pair that two statements force, or what there is too much of.
use crate::covariate::terms_at;
use crate::pair_probes::Forced;
use crate::pair_tables::PAIRS;
use crate::probes::{EFFECTS, Probe};
use crate::{pair_probes, space_sizes};
use show_contexts::context_names::{Context, List};
use show_pages::pages::Page;
use show_pages::places;

// A pair by its names, `CL-WT`.
pub fn put_pair(page: &mut Page, context: Context, pair: usize) {
    page.put_all(context.name(List::Parameters, pair / 64));
    page.put(b'-');
    page.put_all(context.name(context.covariates(), pair % 64));
}

// The pair, and where it is forced already.
fn put_owner(page: &mut Page, text: &[u8], context: Context, forced: Forced) {
    put_pair(page, context, forced.pair);
    page.put_str(" is forced already by the statement on line ");
    page.put_number(places::line_of(text, forced.start));
    page.put_str("; one COVARIATE without ? has all effects of a pair\n");
}

// Which earlier statement forces a pair that the statement at an index, which starts at an offset, forces.
fn find_forced(probe: &mut Probe, index: usize, start: usize) -> Option<Forced> {
    let mut won = [false; PAIRS];
    pair_probes::mark_won(&mut won, probe);
    let terms = terms_at(probe, start)?;
    pair_probes::first_forced(&won, probe, index, &terms)
}

// A pair that is forced by the statement at an index, which starts at an offset, and by an earlier one.
pub fn put_forced(page: &mut Page, probe: &mut Probe, index: usize, start: usize) {
    let text = probe.text;
    let forced = find_forced(probe, index, start);
    places::put_place(page, text, start);
    match forced {
        Some(forced) => put_owner(page, text, probe.context, forced),
        None => page.put_str("a pair that an earlier statement forces already\n"),
    }
    places::put_marked(page, text, start);
}

// A text that is too large: for its effects, its ground statements, or its ground text.
pub fn put_large(page: &mut Page, probe: &mut Probe) {
    let effects = space_sizes::all_effects(probe);
    if EFFECTS < effects {
        page.put_number(effects);
        return page.put_str(" effects before merging; a space has at most 2048\n");
    }
    let statements = space_sizes::ground_statements(probe);
    if 256 < statements {
        page.put_number(statements);
        return page.put_str(" ground statements; a ground space has at most 256\n");
    }
    page.put_str("the ground text has more than 16384 bytes\n");
}
