// A text's statements, all of them kept as they are read: resolving goes over them more than once.
#![tactic(auto)]

ghost use Rattle.std.specs.Prelude.{◌≡◌, length, ◌≤◌};
ghost use Rattle.tokens.specs.Class.{class_table};
ghost use Rattle.labels.specs.Table.{label_table, keyword_table};
ghost use Rattle.reading.specs.Read.{read_text};
ghost use Rattle.read_space.specs.Space.{space_as, Whole};
ghost use Rattle.reading_laws.specs.Admitted.{Admitted};

use labels::{Keywords, Labels};
use read_forms::{Feature, Modes, Refusal, Statement};
use tokens::{Classes, Cursor};

// A statement that is kept. (An array stands in a struct where its elements are structs, not where they are enums.)
#[derive(Clone, Copy)]
pub struct Form {
    pub statement: Statement,
}

// The statements of a text, and whether reading came to its end, or why it is refused. The statements stand beside: they are 60 KiB, which a Result
// that holds them would hand on anew at each `?`.
#[derive(Clone, Copy)]
pub struct Space {
    pub ending: Result<(), Refusal>,
    pub count: usize,
    pub forms: [Form; 256],
}

// A form that stands for none. All its bytes are zero, so that an array of it is made at once.
fn no_form() -> Form {
    Form {
        statement: Statement::Feature(Feature::Absorption(Modes::Wildcard)),
    }
}

fn no_forms() -> [Form; 256]
    ensures { length result ≡ 256 }
{
    [no_form(); 256]
}

// The statements of a text that is admitted, or why it is refused.
pub fn read_space(
    text: &[u8],
    classes: &Classes,
    labels: &Labels,
    keys: &Keywords,
    limit: u32,
) -> Space
    requires { (classes.now ≡ class_table) × (labels.now ≡ label_table) × (keys.now ≡ keyword_table) × Admitted limit text.now }
    ensures { (space_as text.now result ≡ read_text limit text.now) × Whole result }
{
    let mut forms = no_forms();
    let mut n = 0;
    let mut cur = Cursor::new();
    loop {
        match read_statements::next_statement(text, classes, labels, keys, cur, n, limit) {
            Ok(Some(next)) => {
                forms[n] = Form {
                    statement: next.statement,
                };
                cur = next.cursor;
                n += 1;
            }
            Ok(None) => {
                return Space {
                    ending: Ok(()),
                    count: n,
                    forms,
                };
            }
            Err(r) => {
                return Space {
                    ending: Err(read_statements::earliest(text, classes, r)),
                    count: 0,
                    forms,
                };
            }
        }
    }
}
