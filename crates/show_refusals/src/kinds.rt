// An effect that does not suit the kind of its covariate.
use crate::effects;
use labels::Family;
use resolve_context::Kind;
use show_contexts::context_names::{Context, List};
use show_pages::pages::Page;
use show_pages::places;
use show_texts::{accepted, scenes};

// The effects that suit a kind.
fn put_suiting(page: &mut Page, kind: Kind) {
    let mut joint = "";
    for effect in 0..7 {
        if resolve_context::suits(kind, effect) {
            page.put_str(joint);
            accepted::put_label(page, Family::CovariateEffect, effect as usize);
            joint = ", ";
        }
    }
}

// An effect of the COVARIATE that starts at an offset against the kind of a covariate.
pub fn put_against(page: &mut Page, text: &[u8], context: Context, start: usize, entry: usize) {
    let kind = context.kind(entry);
    let from = scenes::argument_start(text, start, 2);
    let place = match effects::first_against(text, start, kind) {
        Some(token) => token.start,
        None => scenes::argument_end(text, from),
    };
    places::put_place(page, text, place);
    page.put_quoted(scenes::spelled(text, scenes::token_at(text, place)));
    page.put_str(" does not suit the covariate ");
    page.put_all(context.name(List::Declared, entry));
    page.put_str(match kind {
        Kind::Continuous => ", which is continuous\n",
        Kind::Categorical => ", which is categorical\n",
    });
    places::put_marked(page, text, place);
    page.put_str("  accepted: ");
    put_suiting(page, kind);
    page.put(b'\n');
}
