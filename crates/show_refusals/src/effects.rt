// The effects of a COVARIATE that do not suit the kind of a covariate.
use labels::Family;
use resolve_context::Kind;
use show_texts::scenes;
use tokens::Token;

// The place of a word among the effects.
pub fn effect_of(text: &[u8], token: Token) -> Option<usize> {
    labels::mode(Family::CovariateEffect, scenes::spelled(text, token))
}

// Whether a token is an effect that does not suit a kind.
fn is_against(text: &[u8], token: Token, kind: Kind) -> bool {
    match effect_of(text, token) {
        Some(effect @ ..=6) => !resolve_context::suits(kind, effect as u32),
        _ => false,
    }
}

// The first effect of the COVARIATE which starts at an offset that does not suit a kind.
pub fn first_against(text: &[u8], start: usize, kind: Kind) -> Option<Token> {
    let from = scenes::argument_start(text, start, 2);
    let to = scenes::argument_end(text, from);
    scenes::tokens_between(text, from, to).find(|token| is_against(text, *token, kind))
}
