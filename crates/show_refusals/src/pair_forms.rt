// The forms of effects: which of a pair are forced, and which groups remain.
ghost use Rattle.std.specs.Prelude.{◌<◌};

use crate::covariate::{FORMS, Terms};
use crate::pair_tables::{is_lost, is_marked, mark};
use resolve_context::Kind;

// The place of a form of a pair, by its operator.
fn form_place(pair: usize, additive: bool, form: usize) -> usize
    requires { pair < 4096 }
{
    pair * 16 + additive as usize * 8 + form % 8
}

// The place of a group: a pair, an operator, and an optional mark.
fn group_place(pair: usize, additive: bool, optional: bool) -> usize
    requires { pair < 4096 }
{
    pair * 4 + additive as usize * 2 + optional as usize
}

// Marks the forms that a pair is forced to have.
pub fn force_pair(forced: &mut [bool], won: &[bool], kind: Kind, terms: &Terms, pair: usize)
    requires { pair < 4096 }
{
    if is_lost(won, terms.explicit, pair) {
        return;
    }
    for form in 0..FORMS {
        if terms.has_form(kind, form) {
            mark(forced, form_place(pair, terms.additive, form));
        }
    }
}

// Whether a form of a pair remains: an optional one that is forced too goes.
fn remains(forced: &[bool], kind: Kind, terms: &Terms, pair: usize) -> bool
    requires { pair < 4096 }
{
    for form in 0..FORMS {
        let gone = terms.optional && is_marked(forced, form_place(pair, terms.additive, form));
        if terms.has_form(kind, form) && !gone {
            return true;
        }
    }
    false
}

// Marks the group of a pair, and answers whether it is new.
pub fn group_pair(
    groups: &mut [bool],
    forced: &[bool],
    won: &[bool],
    kind: Kind,
    terms: &Terms,
    pair: usize,
) -> bool
    requires { pair < 4096 }
{
    !is_lost(won, terms.explicit, pair)
        && remains(forced, kind, terms, pair)
        && mark(groups, group_place(pair, terms.additive, terms.optional))
}
