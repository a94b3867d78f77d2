// Effects that give way in merging: those of a COVARIATE whose parameters are a symbol or `*`, on a pair that a COVARIATE of named parameters has too.
// What a COVARIATE brings is asked of Resolve, of a text with the LETs and that statement alone; what is lost is what the whole text's answer lacks.
use crate::covariate;
use crate::pair_tables::{PAIRS, pair_of};
use crate::probes::{EFFECTS, Probe};
use show_texts::keywords::Keyword;
use show_texts::scenes;

// A pair on which a statement loses effects, where the statement starts, and where the first one starts that names the pair's parameter.
#[derive(Clone, Copy)]
pub struct Loss {
    pub start: usize,
    pub pair: usize,
    pub owner: usize,
}

// The losses of a text: in an array with their count, as no message may run out of memory.
#[derive(Clone, Copy)]
pub struct Losses {
    all: [Loss; EFFECTS],
    count: usize,
}

impl Losses {
    pub fn new() -> Losses {
        let none = Loss {
            start: 0,
            pair: 0,
            owner: 0,
        };
        Losses {
            all: [none; EFFECTS],
            count: 0,
        }
    }

    pub fn all(&self) -> &[Loss] {
        self.all.get(..self.count).unwrap_or(&[])
    }

    // One more, unless the last is of the same statement and pair, or there is no room.
    fn push(&mut self, loss: Loss) {
        if let Some(last) = self.all().last()
            && last.start == loss.start
            && last.pair == loss.pair
        {
            return;
        }
        if let Some(place) = self.all.get_mut(self.count) {
            *place = loss;
            self.count = self.count.saturating_add(1);
        }
    }
}

// Whether a statement is a COVARIATE, of named parameters or of a symbol or `*`.
fn is_covariate(text: &[u8], start: usize, named: bool) -> bool {
    scenes::keyword_at(text, start) == Some(Keyword::Covariate)
        && covariate::is_sign(text, scenes::argument_start(text, start, 0)) != named
}

// The pair that an effect is of.
fn effect_pair(effect: &[u8; 5]) -> usize {
    let [parameter, covariate, ..] = effect;
    pair_of(*parameter, *covariate)
}

// For each pair where the first COVARIATE starts that names its parameter.
fn find_owners(owners: &mut [Option<usize>], probe: &mut Probe) {
    let text = probe.text;
    let mut room = [[0; 5]; EFFECTS];
    for statement in scenes::statements_of(text) {
        if is_covariate(text, statement.start, true) {
            for effect in probe.effects(statement, &mut room) {
                if let Some(owner) = owners.get_mut(effect_pair(effect))
                    && owner.is_none()
                {
                    *owner = Some(statement.start);
                }
            }
        }
    }
}

// The effects of the statement that starts at an offset, as far as their pairs are another's and the answer lacks them: those of a pair stand side
// by side.
fn lose_all(
    losses: &mut Losses,
    effects: &[[u8; 5]],
    start: usize,
    owners: &[Option<usize>],
    answer: &[[u8; 5]],
) {
    for effect in effects {
        let pair = effect_pair(effect);
        if let Some(Some(owner)) = owners.get(pair)
            && !answer.contains(effect)
        {
            losses.push(Loss {
                start,
                pair,
                owner: *owner,
            });
        }
    }
}

// What the statements of a text lose, given the effects that it is answered by.
pub fn find_losses(losses: &mut Losses, probe: &mut Probe, answer: &[[u8; 5]]) {
    let text = probe.text;
    let mut owners = [None; PAIRS];
    find_owners(&mut owners, probe);
    let mut room = [[0; 5]; EFFECTS];
    for statement in scenes::statements_of(text) {
        if is_covariate(text, statement.start, false) {
            let effects = probe.effects(statement, &mut room);
            lose_all(losses, effects, statement.start, &owners, answer);
        }
    }
}
