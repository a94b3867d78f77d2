// A name that is not in the model.
use crate::operand_places::{Names, Operand};
use show_contexts::context_names::{Context, List};
use show_pages::pages::Page;
use show_pages::places;
use show_texts::scenes;

fn put_what(page: &mut Page, names: Names) {
    page.put_str(match names {
        Names::Covariates => " is no covariate of the model",
        _ => " is no parameter of the model",
    });
}

// The list that an operand's names are held to.
fn held_list(context: Context, names: Names) -> List {
    match names {
        Names::Covariates => context.covariates(),
        _ => List::Parameters,
    }
}

// The names that would have been accepted.
fn put_known(page: &mut Page, context: Context, names: Names) {
    page.put_str("  known: ");
    context.put_names(page, held_list(context, names));
    page.put(b'\n');
}

// Whether an operand is the built-in IIV: by its name, or by the `*` that stands for it.
fn is_iiv(text: &[u8], operand: Operand) -> bool {
    let sign = scenes::token_at(text, operand.from);
    if sign.kind == b'*' {
        return operand.names == Names::Varied;
    }
    let token = scenes::token_at(text, sign.next.at);
    scenes::spelled(text, token).eq_ignore_ascii_case(b"IIV")
}

// The first name of the context's IIV parameters that is missing. Where none is, another operand is to blame, and what the run has behind the list is
// told: the first name of the lists that follow.
fn put_iiv(page: &mut Page, context: Context, names: Names) {
    page.put_str(" brings ");
    page.put_quoted(
        context
            .first_absent(List::Iiv, held_list(context, names))
            .unwrap_or(context.name(List::Iiv, context.count(List::Iiv))),
    );
    page.put_str(" from the line iiv of the context, which");
    put_what(page, names);
}

// A symbol of the context that brings a name which is missing: of the IIV parameters, or, for any other brings what the model has, one of the other
// kind.
fn put_builtin(page: &mut Page, text: &[u8], context: Context, operand: Operand) {
    places::put_place(page, text, operand.from);
    page.put_quoted(operand.of(text));
    if is_iiv(text, operand) {
        return put_iiv(page, context, operand.names);
    }
    page.put_str(match operand.names {
        Names::Covariates => " brings parameters, one of which",
        _ => " brings covariates, one of which",
    });
    put_what(page, operand.names);
}

// A name that is written at a place, what it is not, and what a LET brings to which line.
fn put_written(page: &mut Page, text: &[u8], operand: Operand, place: usize) {
    places::put_place(page, text, place);
    page.put_quoted(scenes::spelled(text, scenes::token_at(text, place)));
    put_what(page, operand.names);
    if !(operand.from..operand.to).contains(&place) {
        page.put_str("; ");
        page.put_quoted(operand.of(text));
        page.put_str(" brings it to line ");
        page.put_number(places::line_of(text, operand.from));
    }
}

// A name that is not in the model, and the place where it is written, or the symbol that brings it.
pub fn put_missing(page: &mut Page, text: &[u8], context: Context, operand: Operand, place: usize) {
    if scenes::token_at(text, place).kind <= tokens::NUMBER {
        put_written(page, text, operand, place);
    } else {
        put_builtin(page, text, context, operand);
    }
    page.put(b'\n');
    places::put_marked(page, text, place);
    put_known(page, context, operand.names);
}
