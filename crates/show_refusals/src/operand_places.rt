// The operands of a statement as parts of the text: what messages are about, without the context.
ghost use Rattle.std.specs.Prelude.{◌≡◌, take, drop};

use crate::lets;
use show_pages::pages;
use show_texts::keywords::Keyword;
use show_texts::scenes;
use tokens::Token;

// What an operand names: covariates; parameters, where `*` is @PK; or parameters, where `*` is @IIV.
#[derive(Clone, Copy, PartialEq, Eq)]
pub enum Names {
    Covariates,
    Parameters,
    Varied,
}

// An operand: its bytes from one offset to another, and what it names.
#[derive(Clone, Copy)]
pub struct Operand {
    pub from: usize,
    pub to: usize,
    pub names: Names,
}

fn operand_at(text: &[u8], start: usize, argument: usize, names: Names) -> Operand {
    let from = scenes::argument_start(text, start, argument);
    Operand {
        from,
        to: scenes::argument_end(text, from),
        names,
    }
}

// The first operand of a statement.
pub fn first_of(text: &[u8], start: usize) -> Operand {
    match scenes::keyword_at(text, start) {
        Some(Keyword::Covariate | Keyword::Iiv) => operand_at(text, start, 0, Names::Parameters),
        Some(Keyword::Allometry) => operand_at(text, start, 0, Names::Covariates),
        Some(Keyword::Iov) => operand_at(text, start, 0, Names::Varied),
        _ => operand_at(text, start, 1, Names::Varied),
    }
}

// Whether a statement has a second operand: it is a COVARIATE.
pub fn has_covariates(text: &[u8], start: usize) -> bool {
    scenes::keyword_at(text, start) == Some(Keyword::Covariate)
}

// The covariates of a COVARIATE.
pub fn covariates_of(text: &[u8], start: usize) -> Operand {
    operand_at(text, start, 1, Names::Covariates)
}

impl Operand {
    pub fn of(self, text: &[u8]) -> &[u8]
        ensures { result.now ≡ drop self.from (take self.to text.now) }
    {
        pages::part(text, self.from, self.to)
    }

    // What a name of the operand names by itself.
    fn own_names(self) -> Names {
        if self.names == Names::Covariates {
            Names::Covariates
        } else {
            Names::Parameters
        }
    }

    // A token of the operand by itself.
    pub fn alone(self, token: Token) -> Operand {
        Operand {
            from: token.start,
            to: token.next.at,
            names: self.own_names(),
        }
    }

    // The values of the LET that starts at an offset in the operand's place.
    pub fn values_of(self, text: &[u8], start: usize) -> Operand {
        operand_at(text, start, 1, self.own_names())
    }

    // The offset of the LET that the operand's symbol, or its `*`, is of.
    pub fn find_let(self, text: &[u8]) -> Option<usize> {
        let sign = scenes::token_at(text, self.from);
        match (sign.kind, self.names) {
            (b'*', Names::Covariates) => None,
            (b'*', Names::Varied) => lets::find_let(text, b"IIV"),
            (b'*', Names::Parameters) => lets::find_let(text, b"PK"),
            (b'@', _) => {
                let token = scenes::token_at(text, sign.next.at);
                lets::find_let(text, scenes::spelled(text, token))
            }
            _ => None,
        }
    }
}
