// What of a context comes to nothing, though Resolve takes it: an IIV name or a template's variable that is no parameter, and a role that no symbol
// but @PK and @PK_IIV goes by. Each is told on a line of its own, with its line of the file.
use crate::context_names::{Context, List};
use crate::wrong;
use show_pages::pages::Page;
use show_pages::places;

// The roles by which a built-in takes a binding: those of @ABSORPTION, @ELIMINATION, @DISTRIBUTION and @BIOAVAIL.
const ROLES: [u8; 58] = *b"ka n mtt mat cv2 lagtime alag tlag cl v v1 v2 v3 q q2 q3 f";

// Whether a role is one of these, byte for byte.
fn is_known(role: &[u8]) -> bool {
    ROLES.split(|byte| *byte == b' ').any(|known| known == role)
}

// Where an entry stands in the file, behind a word.
fn put_line(page: &mut Page, file: &[u8], list: List, index: usize, word: &[u8]) {
    page.put_all(word);
    page.put_str("line ");
    page.put_number(places::line_of(file, wrong::entry_place(file, list, index)));
    page.put_str(" of the context: ");
}

// An IIV name that is no parameter.
fn put_iiv(page: &mut Page, context: Context, file: &[u8], index: usize, word: &[u8]) {
    let name = context.name(List::Iiv, index);
    if !context.has_name(List::Parameters, name) {
        put_line(page, file, List::Iiv, index, word);
        page.put_quoted(name);
        page.put_str(
            " is no parameter of the model: @PK_IIV is without it, and a statement with @IIV is refused\n",
        );
    }
}

// A binding whose variable is no parameter.
fn put_variable(page: &mut Page, role: &[u8], variable: &[u8]) {
    page.put_quoted(variable);
    page.put_str(" is no parameter of the model: no symbol has anything for the role ");
    page.put_quoted(role);
    page.put(b'\n');
}

// A binding whose role no symbol goes by.
fn put_role(page: &mut Page, role: &[u8], variable: &[u8]) {
    page.put_quoted(role);
    page.put_str(" is a role that no symbol but @PK and @PK_IIV goes by: ");
    page.put_quoted(variable);
    page.put_str(
        " is not in @ABSORPTION, @ELIMINATION, @DISTRIBUTION or @BIOAVAIL for it; known, as written: ",
    );
    page.put_all(&ROLES);
    page.put(b'\n');
}

// A binding that comes to nothing, or to less than its role promises.
fn put_binding(page: &mut Page, context: Context, file: &[u8], index: usize, word: &[u8]) {
    let role = context.name(List::Template, index);
    let variable = context.variable(index);
    if !context.has_word(List::Parameters, variable) {
        put_line(page, file, List::Template, index, word);
        put_variable(page, role, variable);
    } else if !is_known(role) {
        put_line(page, file, List::Template, index, word);
        put_role(page, role, variable);
    }
}

// What of a context that was read from a file comes to nothing, a line each, behind a word.
pub fn put_losses(page: &mut Page, context: Context, file: &[u8], word: &[u8]) {
    for index in 0..context.count(List::Iiv) {
        put_iiv(page, context, file, index, word);
    }
    for index in 0..context.count(List::Template) {
        put_binding(page, context, file, index, word);
    }
}
